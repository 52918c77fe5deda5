//! Soft state of a server, kept in memory only: which tuple is held for which request, and the
//! requests that wait.
//!
//! After an error of a call here nothing is promised about the holds and waits: their owner starts
//! with none.

mod ask;

ghost use Rattle.std.specs.Prelude.{◌≡◌, ◌++◌, [], ℕ, Bool, Some, false, map, IfOk, OnOk};
ghost use Rattle.std.specs.FinMap as maps;
ghost use Rattle.linda_bag.specs.SearchHints.{Bagged, AreRight};
ghost use Rattle.linda_wire.specs.declared.reply.Reply.TheVariants as replies;
ghost use Rattle.linda_store_step.specs.Soft.{AreApart, no_asks};
ghost use Rattle.linda_store_step.specs.Dispatch.{Sends, dispatch, release, release_all, on_close};
ghost use Rattle.linda_store_step.specs.Looking.{is_held};
ghost use Rattle.linda_store_step.specs.Asking.{AnswersCancel};

use linda_bag::{Bag, SearchHints};
use linda_hold::{Awaiting, Holds, Request, Waits};
use linda_tuple::Tuple;
use linda_wire::Reply;
use std::alloc::{AllocError, Global};
use std::hash::RandomState;
use std::marker::Model;

/// The tuples that are held, each for a request, and the requests that wait.
#[derive(Drop)]
pub(crate) struct Soft {
    pub(crate) holds: Holds,
    pub(crate) waits: Waits,
}

impl Model for Soft {
    ghost use Rattle.linda_store_step.specs.Soft as seen;
    ghost use Rattle.linda_store_step.specs.Codes.{soft_code};

    ghost Value = { seen.Soft };

    ghost coded = { soft_code };

    ghost view = { λ s. record { holds = s.holds; waits = s.waits } };
}

impl Soft {
    /// Nothing is held and nobody waits.
    pub(crate) fn new(alloc: Global) -> Soft
        ensures { result ≡ no_asks }
    {
        Soft {
            holds: Holds::new(alloc),
            waits: Waits::new(alloc),
        }
    }

    /// The numbers of those that wait are hashed by random keys from now on, if nobody waits yet.
    pub(crate) fn choose_keys(&mut self, keys: RandomState)
        ensures { self.new ≡ self.old }
    {
        self.waits.choose_keys(keys);
    }

    /// Sets the present second: what is held, and who waits, from now on is noted so.
    pub(crate) fn set_second(&mut self, second: u64)
        ensures { self.new ≡ self.old }
    {
        self.holds.set_second(second);
        self.waits.set_second(second);
    }

    /// The tuple is new or free: the reads that wait for it are answered and wait no more, then it
    /// is offered to the input that has waited longest for it, and held for that.
    ///
    /// # Errors
    ///
    /// `AllocError` if memory runs out.
    pub(crate) fn dispatch(
        &mut self,
        alloc: Global,
        id: u64,
        tuple: &Tuple,
        sends: &mut Vec<(u32, Reply)>,
    ) -> Result<(), AllocError>
        requires { AreApart self.old }
        ensures sends { OnOk result (sends.new.items
            ≡ sends.old.items ++ (dispatch id tuple.now self.old).sends) }
        ensures soft { OnOk result (self.new ≡ (dispatch id tuple.now self.old).soft) }
    {
        let Awaiting { readers, longest } = self.waits.take_awaiting(alloc, tuple)?;
        answer_reads(alloc, readers, id, tuple, sends)?;
        if let Some(request) = longest {
            let Request { client, ticket } = request;
            let tuple = tuple.try_clone(alloc)?;
            sends.push((client, Reply::Offer { ticket, id, tuple }))?;
            self.holds.insert(id, request)?;
            self.waits.remove(request);
        }
        Ok(())
    }

    /// The hold of the tuple is released: the tuple, if the bag has it, is held no longer, and is
    /// free.
    ///
    /// # Errors
    ///
    /// `AllocError` if memory runs out.
    pub(crate) fn release<B: Bag>(
        &mut self,
        alloc: Global,
        bag: &B,
        hints: &mut SearchHints,
        id: u64,
        sends: &mut Vec<(u32, Reply)>,
    ) -> Result<(), AllocError>
        requires { AreApart self.old }
        ensures sends { OnOk result (sends.new.items
            ≡ sends.old.items ++ (release (B.contents bag.now) id self.old).sends) }
        ensures soft { OnOk result (self.new ≡ (release (B.contents bag.now) id self.old).soft) }
        ensures apart { OnOk result (AreApart self.new) }
        ensures right { (next : ℕ) → AreRight (B.contents bag.now) (is_held self.old.holds)
            next hints.old
            → OnOk result (AreRight (B.contents bag.now) (is_held self.new.holds) next hints.new) }
    {
        match bag.get(id) {
            None => Ok(()),
            Some(tuple) => {
                self.holds.remove(id);
                self.dispatch(alloc, id, tuple, sends)?;
                self.note_free(hints, id, tuple);
                Ok(())
            }
        }
    }

    // The tuple was held, and is free unless it is held again.
    fn note_free(&self, hints: &mut SearchHints, id: u64, tuple: &Tuple)
        ensures { (bag : Bagged) (before : ℕ → Bool) (next : ℕ) → maps.get bag id ≡ Some tuple.now
            → ((k : ℕ) → (k ≡ id → ⊥) → is_held self.now.holds k ≡ false → before k ≡ false)
            → AreRight bag before next hints.old
            → AreRight bag (is_held self.now.holds) next hints.new }
    {
        match self.holds.get(id) {
            Some(_) => {}
            None => hints.free(id, tuple),
        }
    }

    // Releases these holds, one after the other.
    fn release_all<B: Bag>(
        &mut self,
        alloc: Global,
        bag: &B,
        hints: &mut SearchHints,
        ids: Vec<u64>,
        sends: &mut Vec<(u32, Reply)>,
    ) -> Result<(), AllocError>
        requires { AreApart self.old }
        ensures sends { OnOk result (sends.new.items
            ≡ sends.old.items ++ (release_all (B.contents bag.now) ids.items self.old).sends) }
        ensures soft { OnOk result (self.new
            ≡ (release_all (B.contents bag.now) ids.items self.old).soft) }
        ensures right { (next : ℕ) → AreRight (B.contents bag.now) (is_held self.old.holds)
            next hints.old
            → OnOk result (AreRight (B.contents bag.now) (is_held self.new.holds) next hints.new) }
    {
        for id in ids {
            self.release(alloc, bag, hints, id, sends)?;
        }
        Ok(())
    }

    /// The request is given up: it waits no more, or what is held for it is released. One that
    /// neither waits nor holds changes nothing. What is sent, each reply to a client, in order: it
    /// is put into `room`, which has none yet.
    ///
    /// # Errors
    ///
    /// `AllocError` if memory runs out.
    pub(crate) fn cancel<B: Bag>(
        &mut self,
        alloc: Global,
        bag: &B,
        hints: &mut SearchHints,
        request: Request,
        room: Vec<(u32, Reply)>,
    ) -> Result<Vec<(u32, Reply)>, AllocError>
        requires apart { AreApart self.old }
        requires room { room.items ≡ [] }
        ensures sends { IfOk result (λ sends. AnswersCancel (B.contents bag.now) request self.old
            (record { sends = sends.items; soft = self.new })) }
        ensures right { (next : ℕ) → AreRight (B.contents bag.now) (is_held self.old.holds)
            next hints.old
            → OnOk result (AreRight (B.contents bag.now) (is_held self.new.holds) next hints.new) }
    {
        let mut sends = room;
        let held = self.holds.find(request);
        if self.waits.contains(request) {
            self.waits.remove(request);
            return Ok(sends);
        }
        match held {
            Some(id) => {
                self.release(alloc, bag, hints, id, &mut sends)?;
                Ok(sends)
            }
            None => Ok(sends),
        }
    }

    /// All that the client asked is given up: first its waits, then its holds, which are released
    /// by rising id. What is sent, each reply to a client, in order.
    ///
    /// # Errors
    ///
    /// `AllocError` if memory runs out.
    pub(crate) fn close<B: Bag>(
        &mut self,
        alloc: Global,
        bag: &B,
        hints: &mut SearchHints,
        client: u32,
    ) -> Result<Vec<(u32, Reply)>, AllocError>
        requires { AreApart self.old }
        ensures sends { IfOk result (λ sends.
            let t : Sends = record { sends = sends.items; soft = self.new }
            in t ≡ on_close (B.contents bag.now) client self.old) }
        ensures right { (next : ℕ) → AreRight (B.contents bag.now) (is_held self.old.holds)
            next hints.old
            → OnOk result (AreRight (B.contents bag.now) (is_held self.new.holds) next hints.new) }
    {
        let mut sends = Vec::new(alloc);
        self.waits.remove_client(client);
        let held = self.holds.of_client(alloc, client)?;
        self.release_all(alloc, bag, hints, held, &mut sends)?;
        Ok(sends)
    }
}

// Answers each of the reads with the tuple, in this order.
fn answer_reads(
    alloc: Global,
    readers: Vec<Request>,
    id: u64,
    tuple: &Tuple,
    sends: &mut Vec<(u32, Reply)>,
) -> Result<(), AllocError>
    ensures { OnOk result (sends.new.items
        ≡ sends.old.items
        ++ map (λ r. (r.client, replies.Read r.ticket id tuple.now)) readers.items) }
{
    for Request { client, ticket } in readers {
        let tuple = tuple.try_clone(alloc)?;
        sends.push((client, Reply::Read { ticket, id, tuple }))?;
    }
    Ok(())
}
