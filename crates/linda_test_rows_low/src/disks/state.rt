//! Snapshots of states, as the bytes of a disk.

use crate::disks::bytes::tell_pieces;
use linda_bag::{Bag, ListBag};
use linda_snap::{SnapshotFault, get_state, put_state};
use linda_store_state::{BANK_FORM, State};
use linda_test_script::{WordsFault, done, tell};
use std::alloc::Global;

/// More bytes than a snapshot may have.
const TOO_LONG: usize = 1 << 32;

/// Reads the state that all of the bytes spell, and writes what it has; or spells it again.
pub(crate) fn play_state(
    alloc: Global,
    bytes: &[u8],
    word: &str,
    came: &mut String,
) -> Result<(), WordsFault> {
    match word {
        "read" => read(alloc, bytes, came),
        "spelled" => spell(alloc, bytes, came),
        _ => Err(WordsFault::Unknown),
    }
}

// Writes what the state has that the bytes spell.
fn read(alloc: Global, bytes: &[u8], came: &mut String) -> Result<(), WordsFault> {
    match get_state(alloc, BANK_FORM, bytes) {
        Ok(state) => tell_state(came, "", &state),
        Err(fault) => tell_fault(fault, came),
    }
}

// Writes how the state is spelled that the bytes spell.
fn spell(alloc: Global, bytes: &[u8], came: &mut String) -> Result<(), WordsFault> {
    match spelled(alloc, bytes) {
        Ok(bytes) => tell_pieces(alloc, &bytes, came),
        Err(fault) => tell_fault(fault, came),
    }
}

// The spelling of the state that the bytes spell.
fn spelled(alloc: Global, bytes: &[u8]) -> Result<Vec<u8>, SnapshotFault> {
    if bytes.len() >= TOO_LONG {
        return Err(SnapshotFault::NoSnapshot);
    }
    let state: State<ListBag> = get_state(alloc, BANK_FORM, bytes)?;
    let mut out = Vec::new(alloc);
    put_state(&mut out, &state)?;
    Ok(out)
}

fn tell_fault(fault: SnapshotFault, came: &mut String) -> Result<(), WordsFault> {
    match fault {
        SnapshotFault::Memory => Err(WordsFault::Memory),
        fault => tell(came, fault),
    }
}

/// Writes the next id of a state, and how many tuples and clients there are, after these words.
pub(crate) fn tell_state(
    came: &mut String,
    words: &str,
    state: &State<ListBag>,
) -> Result<(), WordsFault> {
    let next = state.next;
    let tuples = state.bag.len();
    let clients = state.book.len();
    done(writeln!(
        came,
        "> {words}next {next}, tuples {tuples}, clients {clients}"
    ))
}
