//! The state of a server: the tuples, what is kept for each client, and the next id; and the deeds
//! that change it.
//!
//! All that may fail comes before the first change.

ghost use Rattle.std.specs.Prelude.{◌≡◌, ◌∷◌, [], None, ℕ, true, false};
ghost use Rattle.std.specs.Prelude.{IfOk, OnOk, OnErr, map, option_to_list};
ghost use Rattle.std.specs.FinMap as maps;
ghost use Rattle.linda_book.specs.declared.kept_reply.KeptReply.TheVariants as kept_replies;
ghost use Rattle.linda_store_state.specs.declared.deed.Deed.TheVariants as deeds;
ghost use Rattle.linda_store_state.specs.State.{IsState, empty_state};
ghost use Rattle.linda_store_state.specs.After.{IsAfter};
ghost use Rattle.linda_store_state.specs.Proper.{HasRoom, IsAllowed};

use crate::deed::Deed;
use linda_bag::Bag;
use linda_book::{Book, KeptReply};
use linda_tuple::Tuple;
use linda_wire::{MAX_CLIENTS, NUMBER_LIMIT};
use std::alloc::{AllocError, Global};
use std::marker::Model;

/// All that a server keeps over a restart. The bag may be any that does what `Bag` says. A state
/// may hold any values; a store keeps them in the ranges of `IsState`.
pub struct State<B: Bag> {
    /// The tuples of the space, by their ids.
    pub bag: B,
    /// For each client its last number and the reply.
    pub book: Book,
    /// The id that the next tuple gets, from 1 to 2^63; at 2^63 no more tuples are put.
    pub next: u64,
}

impl<B: Bag> Drop for State<B> {
    fn drop(self) {
        let State {
            bag: _,
            book: _,
            next: _,
        } = self;
    }
}

impl<B: Bag> Model for State<B> {
    ghost use Rattle.linda_store_state.specs.State as seen;
    ghost use Rattle.linda_store_state.specs.Codes.{state_code};

    ghost Value = { seen.State };

    ghost coded = { state_code };

    ghost view = { λ s. record { bag = B.contents s.bag; book = s.book; next = s.next } };
}

impl<B: Bag> State<B> {
    /// The state of a server that was never used: no tuples, no clients, and 1 is the next id.
    /// Takes no memory.
    pub fn new(alloc: Global) -> State<B>
        ensures { result ≡ empty_state }
    {
        State {
            bag: B::empty(alloc),
            book: Book::new(alloc),
            next: 1,
        }
    }

    /// The client puts the tuple by its message `n`: it gets the next id.
    ///
    /// # Errors
    ///
    /// `AllocError` if memory runs out, and then the state is as before.
    pub fn put(&mut self, client: u32, n: u64, tuple: Tuple) -> Result<(), AllocError>
        requires state { IsState self.old }
        requires allowed { IsAllowed self.old (deeds.Out client n tuple) }
        ensures after { OnOk result (IsAfter self.old (deeds.Out client n tuple ∷ []) self.new) }
        ensures err { OnErr result (self.new ≡ self.old) }
    {
        keep_tuple(&mut self.bag, &mut self.book, client, n, self.next, tuple)?;
        self.next += 1;
        Ok(())
    }

    /// The client takes the tuple of this id by its message `n`, and it is returned, while the book
    /// keeps a copy; `None` if it is not there, and then the state is as before.
    ///
    /// # Errors
    ///
    /// `AllocError` if memory runs out, and then the state is as before.
    pub fn take(
        &mut self,
        alloc: Global,
        client: u32,
        n: u64,
        id: u64,
    ) -> Result<Option<Tuple>, AllocError>
        requires { IsState self.old }
        ensures tuple { IfOk result (λ tuple. tuple ≡ maps.get self.old.bag id) }
        ensures after { IfOk result (λ tuple.
            IsAfter self.old (map (λ _. deeds.Take client n id) (option_to_list tuple)) self.new) }
        ensures none { IfOk result (λ tuple. tuple ≡ None → self.new ≡ self.old) }
        ensures err { OnErr result (self.new ≡ self.old) }
    {
        match self.bag.get(id) {
            None => Ok(None),
            Some(tuple) => {
                let copy = tuple.try_clone(alloc)?;
                self.book.keep(client, n, KeptReply::Taken(id, copy))?;
                Ok(self.bag.remove(id))
            }
        }
    }

    /// The client wanted a tuple by its message `n` and does not get it: the book keeps that it is
    /// gone.
    ///
    /// # Errors
    ///
    /// `AllocError` if memory runs out, and then the state is as before.
    pub fn pass(&mut self, client: u32, n: u64) -> Result<(), AllocError>
        requires { IsState self.old }
        ensures after { OnOk result
            ((id : ℕ) → IsAfter self.old (deeds.Pass client n id ∷ []) self.new) }
        ensures err { OnErr result (self.new ≡ self.old) }
    {
        self.book.keep(client, n, KeptReply::Gone)
    }

    /// The client leaves by its message `n`: the book keeps that it left.
    ///
    /// # Errors
    ///
    /// `AllocError` if memory runs out, and then the state is as before.
    pub fn leave(&mut self, client: u32, n: u64) -> Result<(), AllocError>
        requires { IsState self.old }
        ensures after { OnOk result (IsAfter self.old (deeds.Leave client n ∷ []) self.new) }
        ensures err { OnErr result (self.new ≡ self.old) }
    {
        self.book.keep(client, n, KeptReply::Left)
    }

    /// Does the deed, if it is allowed in this state, and says whether it is. If it is not, the
    /// state is as before. So a list of deeds is done again by one call for each. A tuple that is
    /// put is the deed's own.
    ///
    /// # Errors
    ///
    /// `AllocError` if memory runs out, and then the state is as before. It comes only for a deed
    /// that is allowed.
    #[tactic(auto, using(crate::proofs::DoneLaws::one_state))]
    pub fn redo(&mut self, alloc: Global, deed: Deed) -> Result<bool, AllocError>
        requires { IsState self.old }
        ensures done { IfOk result (λ done. done ≡ true
            → IsAllowed self.old deed × IsAfter self.old (deed ∷ []) self.new) }
        ensures refused { IfOk result (λ done. done ≡ false
            → (IsAllowed self.old deed → ⊥) × (self.new ≡ self.old)) }
        ensures ranges { OnOk result (IsState self.new) }
        ensures err { OnErr result (IsAllowed self.old deed × (self.new ≡ self.old)) }
    {
        if !self.is_allowed(&deed) {
            return Ok(false);
        }
        self.do_again(alloc, deed)?;
        Ok(true)
    }

    // Does a deed that is allowed.
    fn do_again(&mut self, alloc: Global, deed: Deed) -> Result<(), AllocError>
        requires state { IsState self.old }
        requires allowed { IsAllowed self.old deed }
        ensures after { OnOk result (IsAfter self.old (deed ∷ []) self.new) }
        ensures err { OnErr result (self.new ≡ self.old) }
    {
        match deed {
            Deed::Out { client, n, tuple } => self.put(client, n, tuple),
            Deed::Take { client, n, id } => {
                let _taken = self.take(alloc, client, n, id)?;
                Ok(())
            }
            Deed::Pass { client, n, .. } => self.pass(client, n),
            Deed::Leave { client, n } => self.leave(client, n),
        }
    }

    // Whether the deed may be done in this state.
    fn is_allowed(&self, deed: &Deed) -> bool
        ensures yes { result ≡ true → IsAllowed self.now deed.now }
        ensures no { result ≡ false → IsAllowed self.now deed.now → ⊥ }
    {
        let client = deed.client();
        let n = deed.number();
        let (last, left) = self.book.standing(client);
        n > 0
            && n - 1 == last
            && !left
            && n < NUMBER_LIMIT
            && (self.book.len() < MAX_CLIENTS || self.book.kept(client).is_some())
            && self.has_room(deed)
    }

    // Whether there is an id for the tuple that the deed puts, and the tuple that it takes.
    fn has_room(&self, deed: &Deed) -> bool
        ensures yes { result ≡ true → HasRoom self.now deed.now }
        ensures no { result ≡ false → HasRoom self.now deed.now → ⊥ }
    {
        match deed {
            Deed::Out { .. } => self.next < NUMBER_LIMIT,
            Deed::Take { id, .. } => self.bag.get(*id).is_some(),
            Deed::Pass { .. } => true,
            Deed::Leave { .. } => true,
        }
    }
}

// Puts the tuple into the bag under a new id, and the reply to it into the book; or changes
// nothing.
fn keep_tuple<B: Bag>(
    bag: &mut B,
    book: &mut Book,
    client: u32,
    n: u64,
    id: u64,
    tuple: Tuple,
) -> Result<(), AllocError>
    requires { maps.get (B.contents bag.old) id ≡ None }
    ensures bag { OnOk result (B.contents bag.new ≡ maps.insert (B.contents bag.old) id tuple) }
    ensures book { OnOk result (book.new
        ≡ maps.insert book.old client (n, kept_replies.Stored id)) }
    ensures bag_err { OnErr result (B.contents bag.new ≡ B.contents bag.old) }
    ensures book_err { OnErr result (book.new ≡ book.old) }
{
    bag.insert(id, tuple)?;
    match book.keep(client, n, KeptReply::Stored(id)) {
        Ok(()) => Ok(()),
        Err(error) => {
            bag.remove(id);
            Err(error)
        }
    }
}
