//! Doing again what the records of a journal say.

ghost use Rattle.std.specs.Prelude.{◌≡◌, true, false, IfOk, IfErr, OnOk};
ghost use Rattle.linda_store_state.specs.State.{IsState};
ghost use Rattle.linda_store_state.specs.Proper.{AreDone};
ghost use Rattle.linda_snap.specs.declared.replay.ReplayFault.TheVariants.{Memory};
ghost use Rattle.linda_snap.specs.Replay.{GoesOn, Stops, joined, IsReplayFault};

use linda_bag::Bag;
use linda_journal::Record;
use linda_store_state::{Deed, State};
use std::alloc::{AllocError, Global};

/// Why records were not done again.
#[derive(Clone, Copy, Debug, PartialEq, Eq)]
pub(crate) enum ReplayFault {
    /// No memory.
    Memory,
    /// The gate of the first record that has a deed which is not allowed where it comes.
    Improper(usize),
}

impl From<AllocError> for ReplayFault {
    ghost from_gives = { λ _ fault. fault ≡ Memory };

    fn from(_error: AllocError) -> ReplayFault {
        ReplayFault::Memory
    }
}

/// Does the deeds of the records, one after the other, and gives back the memory of each record
/// after it. After an error the state may be any.
///
/// # Errors
///
/// `Improper` with the gate of the first record that has a deed which is not allowed; `Memory`.
pub(crate) fn replay<B: Bag>(
    alloc: Global,
    state: &mut State<B>,
    records: Vec<Record>,
) -> Result<(), ReplayFault>
    requires { IsState state.old }
    ensures done { OnOk result (AreDone state.old (joined records.items) state.new) }
    ensures ranges { OnOk result (IsState state.new) }
    ensures fault { IfErr result (IsReplayFault state.old records.items) }
{
    for record in records {
        let Record { gate, deeds } = record;
        if !redo_all(alloc, state, deeds)? {
            return Err(ReplayFault::Improper(gate));
        }
    }
    Ok(())
}

// Does the deeds one after the other, and returns whether each was allowed where it came.
fn redo_all<B: Bag>(
    alloc: Global,
    state: &mut State<B>,
    deeds: Vec<Deed>,
) -> Result<bool, AllocError>
    requires { IsState state.old }
    ensures done { IfOk result (λ done. done ≡ true → GoesOn state.old deeds.items state.new) }
    ensures refused { IfOk result (λ done. done ≡ false → Stops state.old deeds.items) }
    ensures ranges { OnOk result (IsState state.new) }
{
    for deed in deeds {
        if !state.redo(alloc, deed)? {
            return Ok(false);
        }
    }
    Ok(true)
}
