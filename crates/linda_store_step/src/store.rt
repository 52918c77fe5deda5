//! The store of a server: a state that keeps its ranges, changed by one message after another.

ghost use Rattle.std.specs.Prelude.{◌≡◌, ◌≤◌, ◌∷◌, [], ℕ, Bool, true, false, length};
ghost use Rattle.std.specs.Prelude.{All, IfOk, IfSome, IfNone, OnOk, OnErr, IsErr};
ghost use Rattle.linda_bag.specs.SearchHints.{AreRight, Bagged};
ghost use Rattle.linda_store_state.specs.DeedFormat.{payload, SuitsForm, IsUnspelled};
ghost use Rattle.linda_store_state.specs.State.{IsState, empty_state};
ghost use Rattle.linda_store_step.specs.Soft.{no_asks};
ghost use Rattle.linda_store_step.specs.Dispatch.{on_close};
ghost use Rattle.linda_store_step.specs.Answer.{IsStep};
ghost use Rattle.linda_store_step.specs.History.{History, Answers, history_of};
ghost use Rattle.linda_store_step.specs.Served.{IsServed, IsServedToo};
ghost use Rattle.linda_store_step.specs.Size.{IsNeedOf};
ghost use Rattle.linda_store_step.specs.Store.{IsOrderly};

use crate::served::Served;
use crate::size::{self, MAX_GROUP, Need};
use crate::soft::Soft;
use crate::step::{Step, answer_message};
use linda_bag::{Bag, SearchHints};
use linda_hold::{Holds, Waits};
use linda_store_state::State;
use linda_tuple::Form;
use linda_wire::{Message, Reply};
use std::alloc::{AllocError, Global};
use std::hash::RandomState;
use std::marker::Model;

/// The state of a server, what it holds for requests and which requests wait.
///
/// It keeps its ranges: ids below the next id, which is from 1 to 2^63; kept numbers from 1 to
/// 2^63 - 1; at most 65,536 clients, those that left among them; at most 64 open asks a client,
/// each under a ticket of its own; and what is held is in the bag. Nobody waits in vain: no tuple
/// that is there matches a read that waits, and no tuple that is not held matches an input that
/// waits. A client that left holds nothing and does not wait.
///
/// Once memory ran out the store is spent: it keeps its state, holds nothing, lets nobody wait, and
/// answers each call with that error.
#[derive(Drop)]
pub struct Store<B: Bag> {
    state: State<B>,
    soft: Soft,
    hints: SearchHints,
    spent: bool,
}

impl<B: Bag> Model for Store<B> {
    ghost use Rattle.linda_store_step.specs.Store as seen;
    ghost use Rattle.linda_bag.specs.SearchHints.{AreRight};
    ghost use Rattle.linda_store_step.specs.Looking.{is_held};
    ghost use Rattle.linda_store_step.specs.Store.{IsOrderly, store_code};

    ghost Value = { seen.Store };

    ghost coded = { store_code };

    ghost view = { λ s. record { state = s.state; soft = s.soft; is_spent = s.spent } };

    ghost invariant = { λ s. IsOrderly s.state s.soft
        × AreRight s.state.bag (is_held s.soft.holds) s.state.next s.hints };
}

impl<B: Bag> Store<B> {
    /// The store of a server that was never used.
    pub fn new(alloc: Global) -> Store<B>
        ensures { result ≡ record { state = empty_state; soft = no_asks; is_spent = false } }
    {
        Store {
            state: State::new(alloc),
            soft: Soft::new(alloc),
            hints: SearchHints::new(alloc),
            spent: false,
        }
    }

    /// The store of this state, which it keeps; nothing is held and nobody waits.
    pub fn from_state(alloc: Global, state: State<B>) -> Store<B>
        requires { IsState state }
        ensures { result ≡ record { state = state; soft = no_asks; is_spent = false } }
    {
        Store {
            state,
            soft: Soft::new(alloc),
            hints: SearchHints::new(alloc),
            spent: false,
        }
    }

    /// From now on what waits is kept by random keys that no client knows, if nobody waits yet: so
    /// clients cannot make look-ups slow by what they ask and give up. A program that serves
    /// strangers calls this at its start. What other calls answer does not change.
    pub fn choose_keys(&mut self, keys: RandomState)
        ensures { self.new ≡ self.old }
    {
        self.soft.choose_keys(keys);
    }

    /// Sets the present second, from which on `Holds` and `Waits` count how long a tuple is held
    /// and a request waits. Seconds never fall; until one is set nothing is noted. What other calls
    /// answer does not change.
    pub fn set_second(&mut self, second: u64)
        ensures { self.new ≡ self.old }
    {
        self.soft.set_second(second);
    }

    /// Does what the message of the client asks, and answers it. No Hello is needed before.
    ///
    /// # Errors
    ///
    /// `AllocError` if memory runs out, and then the state is as before and the store is spent; and
    /// always if it is spent already.
    pub fn step(
        &mut self,
        alloc: Global,
        client: u32,
        message: &Message,
    ) -> Result<Step, AllocError>
        ensures ok { IfOk result (λ s. IsStep self.old.state self.old.soft client message.now
            (record { deed = s.deed; sends = s.sends.items; soft = self.new.soft })
            self.new.state) }
        ensures unspent { OnOk result ((self.old.is_spent ≡ false) × (self.new.is_spent ≡ false)) }
        ensures err { OnErr result ((self.new.state ≡ self.old.state)
            × (self.new.is_spent ≡ true)) }
        ensures dropped { OnErr result (self.old.is_spent ≡ false → self.new.soft ≡ no_asks) }
        ensures spent { self.old.is_spent ≡ true → IsErr result × (self.new ≡ self.old) }
    {
        self.step_in(alloc, client, message, Vec::new(alloc))
    }

    /// The same. The replies are put into `room`, which has none yet: so its memory, that of an
    /// earlier step, say, is used again. It is dropped if memory runs out.
    ///
    /// # Errors
    ///
    /// As `step`.
    pub fn step_in(
        &mut self,
        alloc: Global,
        client: u32,
        message: &Message,
        room: Vec<(u32, Reply)>,
    ) -> Result<Step, AllocError>
        requires { room.items ≡ [] }
        ensures ok { IfOk result (λ s. IsStep self.old.state self.old.soft client message.now
            (record { deed = s.deed; sends = s.sends.items; soft = self.new.soft })
            self.new.state) }
        ensures unspent { OnOk result ((self.old.is_spent ≡ false) × (self.new.is_spent ≡ false)) }
        ensures err { OnErr result ((self.new.state ≡ self.old.state)
            × (self.new.is_spent ≡ true)) }
        ensures dropped { OnErr result (self.old.is_spent ≡ false → self.new.soft ≡ no_asks) }
        ensures spent { self.old.is_spent ≡ true → IsErr result × (self.new ≡ self.old) }
    {
        if self.spent {
            return Err(AllocError);
        }
        match answer_message(
            &mut self.state,
            &mut self.soft,
            &mut self.hints,
            alloc,
            client,
            message,
            room,
        ) {
            Ok(step) => Ok(step),
            Err(error) => {
                spend(alloc, &mut self.soft, &mut self.hints, &mut self.spent);
                Err(error)
            }
        }
    }

    /// Does what the messages ask, one after another, each of its client, as `step` does.
    ///
    /// # Errors
    ///
    /// `AllocError` if memory runs out: some first messages may be done, and the store is spent;
    /// and always if it is spent already.
    pub fn step_all(
        &mut self,
        alloc: Global,
        messages: &[(u32, Message)],
    ) -> Result<Served, AllocError>
        ensures ok { IfOk result (λ s. Answers self.old.state self.old.soft messages.now
            (history_of self.new.state self.new.soft s.deeds.items s.sends.items)) }
        ensures served { IfOk result (λ s. IsServed self.old.state self.old.soft messages.now
            s self.new.state self.new.soft) }
        ensures unspent { OnOk result ((self.old.is_spent ≡ false) × (self.new.is_spent ≡ false)) }
        ensures err { OnErr result (self.new.is_spent ≡ true) }
        ensures dropped { OnErr result (self.old.is_spent ≡ false → self.new.soft ≡ no_asks) }
        ensures spent { self.old.is_spent ≡ true → IsErr result × (self.new ≡ self.old) }
    {
        if self.is_spent() {
            return Err(AllocError);
        }
        match self.step_each(alloc, messages) {
            Ok(served) => Ok(served),
            Err(error) => {
                self.give_up(alloc);
                Err(error)
            }
        }
    }

    /// As `step_in`, and adds what that led to. The room is given back for the next message.
    ///
    /// # Errors
    ///
    /// `AllocError` if memory runs out: the message may be done, and the store is spent; and always
    /// if it is spent already.
    pub fn add_step(
        &mut self,
        alloc: Global,
        client: u32,
        message: &Message,
        served: &mut Served,
        room: Vec<(u32, Reply)>,
    ) -> Result<Vec<(u32, Reply)>, AllocError>
        requires { room.items ≡ [] }
        ensures ok { OnOk result (IsServedToo self.old.state self.old.soft client message.now
            served.old served.new self.new.state self.new.soft) }
        ensures room { IfOk result (λ left. left.items ≡ []) }
        ensures unspent { OnOk result ((self.old.is_spent ≡ false) × (self.new.is_spent ≡ false)) }
        ensures err { OnErr result (self.new.is_spent ≡ true) }
        ensures dropped { OnErr result (self.old.is_spent ≡ false → self.new.soft ≡ no_asks) }
        ensures spent { self.old.is_spent ≡ true → IsErr result × (self.new ≡ self.old) }
    {
        let step = self.step_in(alloc, client, message, room)?;
        match served.add(step) {
            Ok(left) => Ok(left),
            Err(error) => {
                self.give_up(alloc);
                Err(error)
            }
        }
    }

    // Does what the messages ask, one after another.
    fn step_each(
        &mut self,
        alloc: Global,
        messages: &[(u32, Message)],
    ) -> Result<Served, AllocError>
        requires { self.old.is_spent ≡ false }
        ensures ok { IfOk result (λ s. IsServed self.old.state self.old.soft messages.now
            s self.new.state self.new.soft) }
        ensures unspent { OnOk result (self.new.is_spent ≡ false) }
    {
        let mut served = Served::with_room(alloc, messages.len())?;
        let mut room = Vec::new(alloc);
        for message in messages {
            room = self.add_step(alloc, message.0, &message.1, &mut served, room)?;
        }
        Ok(served)
    }

    // Memory ran out: nothing is held any more, and nobody waits.
    fn give_up(&mut self, alloc: Global)
        ensures { self.new ≡ record { state = self.old.state; soft = no_asks; is_spent = true } }
    {
        spend(alloc, &mut self.soft, &mut self.hints, &mut self.spent);
    }

    /// How many bytes the deeds of the messages will spell in the form, as `step_all` does them;
    /// `None` if one of them will have no spelling there. Takes no memory, and changes nothing.
    pub fn size_of(&self, form: Form, messages: &[(u32, Message)]) -> Option<u64>
        requires { length messages.now ≤ MAX_GROUP }
        ensures bytes { (all : History) → Answers self.now.state self.now.soft messages.now all
            → IfSome result (λ size. size ≡ length (payload form all.deeds)) }
        ensures suit { (all : History) → Answers self.now.state self.now.soft messages.now all
            → IfSome result (λ size. All (SuitsForm form) all.deeds) }
        ensures none { (all : History) → Answers self.now.state self.now.soft messages.now all
            → IfNone result (IsUnspelled form all.deeds) }
        ensures orderly { IsOrderly self.now.state self.now.soft }
    {
        match self.need_of(form, messages) {
            Some(need) => Some(need.bytes as u64),
            None => None,
        }
    }

    /// What the deeds of the messages will need in the form, as `step_all` does them; `None` if one
    /// of them will have no spelling there. Takes no memory, and changes nothing.
    pub fn need_of(&self, form: Form, messages: &[(u32, Message)]) -> Option<Need>
        requires { length messages.now ≤ MAX_GROUP }
        ensures need { (all : History) → Answers self.now.state self.now.soft messages.now all
            → IsNeedOf form all.deeds result }
        ensures few { IfSome result (λ need. need.deeds ≤ MAX_GROUP) }
        ensures orderly { IsOrderly self.now.state self.now.soft }
    {
        size::need_of(form, &self.state, messages)
    }

    /// What the deed of the client's message will need in the form, as `step` does it, and nothing
    /// if it will do none; `None` if it will have no spelling there. Takes no memory, and changes
    /// nothing.
    pub fn need_of_one(&self, form: Form, client: u32, message: &Message) -> Option<Need>
        ensures need { (all : History)
            → Answers self.now.state self.now.soft ((client, message.now) ∷ []) all
            → IsNeedOf form all.deeds result }
        ensures few { IfSome result (λ need. need.deeds ≤ MAX_GROUP) }
        ensures orderly { IsOrderly self.now.state self.now.soft }
    {
        size::need_of_one(form, &self.state, client, message)
    }

    /// Gives up all that the client asked: its waits, and then its holds by rising id, each of
    /// which is free at once for those that wait. The state is as before.
    ///
    /// # Errors
    ///
    /// `AllocError` if memory runs out, and then the store is spent; and always if it is spent
    /// already.
    pub fn close(&mut self, alloc: Global, client: u32) -> Result<Vec<(u32, Reply)>, AllocError>
        ensures ok { IfOk result (λ sends. record { sends = sends.items; soft = self.new.soft }
            ≡ on_close self.old.state.bag client self.old.soft) }
        ensures unspent { OnOk result ((self.old.is_spent ≡ false) × (self.new.is_spent ≡ false)) }
        ensures state { self.new.state ≡ self.old.state }
        ensures err { OnErr result (self.new.is_spent ≡ true) }
        ensures dropped { OnErr result (self.old.is_spent ≡ false → self.new.soft ≡ no_asks) }
        ensures spent { self.old.is_spent ≡ true → IsErr result × (self.new ≡ self.old) }
    {
        if self.spent {
            return Err(AllocError);
        }
        match self
            .soft
            .close(alloc, &self.state.bag, &mut self.hints, client)
        {
            Ok(sends) => Ok(sends),
            Err(error) => {
                spend(alloc, &mut self.soft, &mut self.hints, &mut self.spent);
                Err(error)
            }
        }
    }

    /// The state, which keeps its ranges.
    pub fn state(&self) -> &State<B>
        ensures state { result.now ≡ self.now.state }
        ensures ranges { IsState result.now }
    {
        &self.state
    }

    /// Which tuple is held for which request.
    pub fn holds(&self) -> &Holds
        ensures holds { result.now ≡ self.now.soft.holds }
        ensures orderly { IsOrderly self.now.state self.now.soft }
    {
        &self.soft.holds
    }

    /// The requests that wait, in order of arrival.
    pub fn waits(&self) -> &Waits
        ensures waits { result.now ≡ self.now.soft.waits }
        ensures orderly { IsOrderly self.now.state self.now.soft }
    {
        &self.soft.waits
    }

    /// Forgets all that is held and waits, as a server does that was stopped.
    pub fn forget(&mut self, alloc: Global)
        ensures { self.new
            ≡ record { state = self.old.state; soft = no_asks; is_spent = self.old.is_spent } }
    {
        self.soft = Soft::new(alloc);
        self.hints = SearchHints::new(alloc);
    }

    /// Gives the state away, which keeps its ranges.
    pub fn into_state(self) -> State<B>
        ensures state { result ≡ self.state }
        ensures ranges { IsState result }
    {
        let Store { state, .. } = self;
        state
    }

    /// Whether memory ran out.
    pub fn is_spent(&self) -> bool
        ensures spent { result ≡ self.now.is_spent }
        ensures orderly { IsOrderly self.now.state self.now.soft }
    {
        self.spent
    }
}

// Memory ran out: nothing is held any more, and nobody waits.
fn spend(alloc: Global, soft: &mut Soft, hints: &mut SearchHints, spent: &mut bool)
    ensures soft { soft.new ≡ no_asks }
    ensures hints { (bag : Bagged) (passed : ℕ → Bool) (next : ℕ)
        → AreRight bag passed next hints.new }
    ensures spent { spent.new ≡ true }
{
    *soft = Soft::new(alloc);
    *hints = SearchHints::new(alloc);
    *spent = true;
}
