//! Results of messages that were served, for each of them.

ghost use Rattle.std.specs.Prelude.{◌≡◌, ◌∷◌, ◌++◌, [], length, option_to_list, IfOk, OnOk};
ghost use Rattle.std.specs.Option.{is_some};

use crate::step::Step;
use linda_store_state::Deed;
use linda_wire::Reply;
use std::alloc::{AllocError, Global};

/// What messages led to, one after another: all deeds, all replies, and which of them are whose.
#[derive(Drop)]
pub struct Served {
    /// The changes of the state, in order.
    pub deeds: Vec<Deed>,
    /// The replies with the clients that they go to, in order.
    pub sends: Vec<(u32, Reply)>,
    /// For each message, in order, its counts.
    pub counts: Vec<StepCounts>,
}

impl Served {
    /// Nothing was served yet. Takes no memory.
    pub fn new(alloc: Global) -> Served
        ensures deeds { result.deeds.items ≡ [] }
        ensures sends { result.sends.items ≡ [] }
        ensures counts { result.counts.items ≡ [] }
    {
        Served {
            deeds: Vec::new(alloc),
            sends: Vec::new(alloc),
            counts: Vec::new(alloc),
        }
    }

    /// Nothing was served yet; there is room for what so many messages mostly lead to.
    pub(crate) fn with_room(alloc: Global, messages: usize) -> Result<Served, AllocError>
        ensures deeds { IfOk result (λ served. served.deeds.items ≡ []) }
        ensures sends { IfOk result (λ served. served.sends.items ≡ []) }
        ensures counts { IfOk result (λ served. served.counts.items ≡ []) }
    {
        Ok(Served {
            deeds: Vec::with_capacity(alloc, messages)?,
            sends: Vec::with_capacity(alloc, messages)?,
            counts: Vec::with_capacity(alloc, messages)?,
        })
    }

    /// Adds what one message more led to. Gives the memory of its replies back, for the next one.
    pub(crate) fn add(&mut self, step: Step) -> Result<Vec<(u32, Reply)>, AllocError>
        ensures deeds { OnOk result (self.new.deeds.items
            ≡ self.old.deeds.items ++ option_to_list step.deed) }
        ensures sends { OnOk result (self.new.sends.items
            ≡ self.old.sends.items ++ step.sends.items) }
        ensures counts { OnOk result (self.new.counts.items ≡ self.old.counts.items
            ++ record { has_deed = is_some step.deed; sends = length step.sends.items } ∷ []) }
        ensures room { IfOk result (λ left. left.items ≡ []) }
    {
        let Step { deed, mut sends } = step;
        let count = counts_of(&deed, &sends);
        push_deed(&mut self.deeds, deed)?;
        self.sends.append(&mut sends)?;
        self.counts.push(count)?;
        Ok(sends)
    }

    /// Only the replies.
    pub fn into_sends(self) -> Vec<(u32, Reply)>
        ensures { result ≡ self.sends }
    {
        let Served { sends, .. } = self;
        sends
    }

    /// Only the changes of the state.
    pub fn into_deeds(self) -> Vec<Deed>
        ensures { result ≡ self.deeds }
    {
        let Served { deeds, .. } = self;
        deeds
    }
}

/// What one message led to.
#[derive(Clone, Copy, Debug, PartialEq, Eq)]
pub struct StepCounts {
    /// Whether it did a deed: then that is the next one.
    pub has_deed: bool,
    /// How many replies it sent: the next ones.
    pub sends: usize,
}

// The counts of one answer.
fn counts_of(deed: &Option<Deed>, sends: &[(u32, Reply)]) -> StepCounts
    ensures { result ≡ record { has_deed = is_some deed.now; sends = length sends.now } }
{
    StepCounts {
        has_deed: deed.is_some(),
        sends: sends.len(),
    }
}

// Pushes the deed, if there is one.
fn push_deed(deeds: &mut Vec<Deed>, deed: Option<Deed>) -> Result<(), AllocError>
    ensures { OnOk result (deeds.new.items ≡ deeds.old.items ++ option_to_list deed) }
{
    match deed {
        Some(deed) => Ok(deeds.push(deed)?),
        None => Ok(()),
    }
}
