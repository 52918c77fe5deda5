//! A server that keeps nothing over its end.

ghost use Rattle.std.specs.Prelude.{◌≡◌, true, false, [], IfOk, OnOk, OnErr};
ghost use Rattle.linda_store_state.specs.State.{IsState, empty_state};
ghost use Rattle.linda_store_step.specs.Soft.{no_asks};
ghost use Rattle.linda_store_step.specs.History.{Happens, comings};
ghost use Rattle.linda_store.specs.Node.{in_hand};

use crate::node::{Node, NodeFault};
use crate::work::Work;
use linda_bag::IndexBag;
use linda_disk::Torn;
use linda_hold::Holds;
use linda_store_state::{Deed, State};
use linda_store_step::{Served, Step, Store};
use linda_wire::{Message, Reply};
use std::alloc::{AllocError, Global};
use std::snapshot::Snapshot;

/// A server in memory only. It keeps its state over a stop, and is never full: ids, numbers and
/// clients have their limits, and a message beyond them gets a refusal. Once memory ran out it is
/// down for good: no stop brings it back.
pub struct Volatile {
    store: Store<IndexBag>,
    // The state before the last call, which only contracts see.
    before: Snapshot<State<IndexBag>>,
}

impl Drop for Volatile {
    fn drop(self) {
        let Volatile {
            store: _,
            before: _,
        } = self;
    }
}

impl Volatile {
    /// A server that was never used.
    pub fn new(alloc: Global) -> Volatile
        ensures { ⟦<Volatile as Node>⟧.shown result
            ≡ record {
              state = empty_state;
              soft = no_asks;
              is_down = false;
              may_fill = false;
              lost = [];
            } }
    {
        let store = Store::new(alloc);
        let before = Snapshot::of(store.state());
        Volatile { store, before }
    }

    /// What the server keeps, in its ranges.
    pub fn state(&self) -> &State<IndexBag>
        ensures state { (⟦<Volatile as Node>⟧.shown self.now).is_down ≡ false
            → result.now ≡ (⟦<Volatile as Node>⟧.shown self.now).state }
        ensures ranges { IsState result.now }
    {
        self.store.state()
    }

    /// Which tuple is held for which request.
    pub fn holds(&self) -> &Holds
        ensures { result.now ≡ (⟦<Volatile as Node>⟧.shown self.now).soft.holds }
    {
        self.store.holds()
    }
}

impl Node for Volatile {
    ghost use Rattle.linda_store.specs.Volatile.{shown};

    ghost shown = { λ v. shown v.before.value v.store };

    fn handle(
        &mut self,
        alloc: Global,
        client: u32,
        message: &Message,
    ) -> Result<Vec<(u32, Reply)>, NodeFault> {
        if self.store.is_spent() {
            return Err(NodeFault::Down);
        }
        self.before = Snapshot::of(self.store.state());
        match self.store.step(alloc, client, message) {
            Ok(step) => {
                let Step { sends, .. } = step;
                Ok(sends)
            }
            Err(_) => Err(NodeFault::Down),
        }
    }

    fn handle_all(
        &mut self,
        alloc: Global,
        messages: &[(u32, Message)],
    ) -> Result<Vec<(u32, Reply)>, NodeFault> {
        if self.store.is_spent() {
            return Err(NodeFault::Down);
        }
        self.before = Snapshot::of(self.store.state());
        match self.store.step_all(alloc, messages) {
            Ok(served) => {
                let Served { sends, .. } = served;
                Ok(sends)
            }
            Err(_) => Err(NodeFault::Down),
        }
    }

    fn close(&mut self, alloc: Global, client: u32) -> Result<Vec<(u32, Reply)>, NodeFault> {
        if self.store.is_spent() {
            return Err(NodeFault::Down);
        }
        self.before = Snapshot::of(self.store.state());
        match self.store.close(alloc, client) {
            Ok(sends) => Ok(sends),
            Err(_) => Err(NodeFault::Down),
        }
    }

    fn snapshot(&mut self, alloc: Global) -> Result<(), NodeFault> {
        let _ = alloc;
        if self.store.is_spent() {
            return Err(NodeFault::Down);
        }
        Ok(())
    }

    fn stop(
        &mut self,
        alloc: Global,
        work: Work,
        at: u64,
        torn: Torn,
    ) -> Result<Vec<Deed>, NodeFault> {
        let _ = (at, torn);
        if self.store.is_spent() {
            return Err(NodeFault::Down);
        }
        self.before = Snapshot::of(self.store.state());
        match do_work(alloc, &mut self.store, work) {
            Ok(served) => {
                let Served { deeds, .. } = served;
                self.store.forget(alloc);
                Ok(deeds)
            }
            Err(_) => Err(NodeFault::Down),
        }
    }

    fn is_down(&self) -> bool {
        self.store.is_spent()
    }
}

// Does all of the work.
fn do_work(alloc: Global, store: &mut Store<IndexBag>, work: Work) -> Result<Served, AllocError>
    ensures ok { IfOk result (λ s. Happens store.old.state store.old.soft (in_hand work)
        (record {
          deeds = s.deeds.items;
          sends = s.sends.items;
          soft = store.new.soft;
          state = store.new.state;
        })) }
    ensures unspent { OnOk result (store.new.is_spent ≡ false) }
    ensures err { OnErr result (store.new.is_spent ≡ true) }
{
    let messages = messages_of(alloc, work);
    store.step_all(alloc, &messages)
}

// The messages of the work.
fn messages_of(alloc: Global, work: Work) -> Vec<(u32, Message)>
    ensures { comings result.items ≡ in_hand work }
{
    match work {
        Work::Messages(messages) => messages,
        Work::Snapshot => Vec::new(alloc),
    }
}
