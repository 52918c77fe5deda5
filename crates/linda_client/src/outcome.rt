//! Outcomes: how what was pending ended.

ghost use Rattle.std.specs.Prelude.{◌≡◌, IfOk};
ghost use Rattle.linda_event.specs.Trees.{tree_of};
ghost use Rattle.linda_client.specs.Reaction.{commitment};

use linda_event::{Event, labels_of, nacks_of};
use linda_tuple::{Atom, Tuple};
use std::alloc::{AllocError, Global};
use std::marker::Model;

/// Labels or nack numbers, in order.
#[derive(Debug, Drop)]
pub struct Numbers {
    items: Vec<u64>,
}

impl Model for Numbers {
    ghost use Rattle.std.specs.Prelude.{ℕ, List};

    ghost Value = { List ℕ };

    ghost view = { λ n. n.items.items };
}

impl Numbers {
    /// These numbers, which it keeps: no memory is taken.
    pub fn new(items: Vec<u64>) -> Numbers
        ensures { result ≡ items.items }
    {
        Numbers { items }
    }

    /// The numbers, in order.
    pub fn as_slice(&self) -> &[u64]
        ensures { result.now ≡ self.now }
    {
        &self.items
    }

    /// The numbers as a `Vec`.
    pub fn into_vec(self) -> Vec<u64>
        ensures { result.items ≡ self }
    {
        self.items
    }
}

/// The values that the formals of a template bound, in order.
#[derive(Debug, Drop)]
pub struct Bindings {
    items: Vec<Atom>,
}

impl Model for Bindings {
    ghost use Rattle.std.specs.Prelude.{List};
    ghost use Rattle.linda_tuple.specs.declared.atom.Atom.{Atom};

    ghost Value = { List Atom };

    ghost view = { λ b. b.items.items };
}

impl Bindings {
    /// These values, which it keeps: no memory is taken.
    pub fn new(items: Vec<Atom>) -> Bindings
        ensures { result ≡ items.items }
    {
        Bindings { items }
    }

    /// The values, in order.
    pub fn as_slice(&self) -> &[Atom]
        ensures { result.now ≡ self.now }
    {
        &self.items
    }

    /// The values as a `Vec`.
    pub fn into_vec(self) -> Vec<Atom>
        ensures { result.items ≡ self }
    {
        self.items
    }
}

/// What a synchronization committed to got.
#[derive(Debug, Drop)]
pub enum Got {
    /// An input took the tuple of this id away from the server.
    Took {
        server: u32,
        id: u64,
        tuple: Tuple,
        bindings: Bindings,
    },
    /// A read got a copy of the tuple of this id, which stays at the server.
    Copied {
        server: u32,
        id: u64,
        tuple: Tuple,
        bindings: Bindings,
    },
    /// The clock reached an alarm.
    Alarm,
    /// This value was ready at once.
    Always(Atom),
}

/// How what was pending came to its end.
#[derive(Debug, Drop)]
pub enum Outcome {
    /// The tuple that was put is stored at the server under this id.
    Stored {
        server: u32,
        id: u64,
    },
    /// The synchronization committed to the base of this number.
    Synced {
        base: usize,
        got: Got,
        /// The labels above the base, innermost first.
        labels: Numbers,
        /// The numbers of the nack nodes that are not above the base, one for each node, in tree
        /// order.
        raised: Numbers,
    },
    /// The synchronization was abandoned.
    Dropped {
        /// All nack numbers of its event, one for each node, in tree order.
        raised: Numbers,
    },
    /// The client has left: every server has answered its Leave.
    Left,
}

impl Outcome {
    /// The outcome of a synchronization that commits to this base.
    pub(crate) fn synced(
        alloc: Global,
        event: &Event,
        base: usize,
        got: Got,
    ) -> Result<Outcome, AllocError>
        ensures { IfOk result (λ o. o ≡ commitment (tree_of event.now) base got) }
    {
        Ok(Outcome::Synced {
            base,
            got,
            labels: Numbers::new(labels_of(alloc, event, base)?),
            raised: Numbers::new(nacks_of(alloc, event, base)?),
        })
    }
}
