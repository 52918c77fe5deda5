//! The banks on both disks, of which one is chosen, and beside which a new one is made.

use crate::disks::disks::Disks;
use crate::disks::state::tell_state;
use linda_bag::ListBag;
use linda_disk::MemDisk;
use linda_snap::{ChoiceFault, Chosen, SwitchFault, choose_bank, switch};
use linda_test_script::{WordsFault, read_number, read_size, split_word, tell, tell_two};
use std::alloc::Global;

/// A bank that was chosen of those on two disks in memory.
type Choice = Chosen<ListBag, MemDisk>;

/// Does with the banks on both disks what the words say.
pub(crate) fn play_banks(
    alloc: Global,
    disks: &mut Disks,
    words: &str,
    came: &mut String,
) -> Result<(), WordsFault> {
    let (word, rest) = split_word(words);
    match word {
        "choose" => choose(alloc, disks, rest, came),
        "switch" => switch_once(alloc, disks, rest, came),
        _ => Err(WordsFault::Unknown),
    }
}

// Chooses one of the banks on the two disks, which are gone then.
fn choose(
    alloc: Global,
    disks: &mut Disks,
    limit: &str,
    came: &mut String,
) -> Result<(), WordsFault> {
    let limit = read_size(limit)?;
    let Disks { left, right } = disks.take(alloc);
    match choose_bank(alloc, left, right, limit) {
        Ok(chosen) => tell_choice(&chosen, came),
        Err((fault, _, _)) => tell_fault(fault, came),
    }
}

// Writes which bank was chosen, and of the state that it represents.
fn tell_choice(chosen: &Choice, came: &mut String) -> Result<(), WordsFault> {
    let side = if chosen.is_right { "right, " } else { "left, " };
    tell_state(came, side, &chosen.state)
}

// Writes why no bank was chosen.
fn tell_fault(fault: ChoiceFault, came: &mut String) -> Result<(), WordsFault> {
    match fault {
        ChoiceFault::Memory => Err(WordsFault::Memory),
        ChoiceFault::Damaged { right, offset } => {
            let words = if right {
                "right damaged at"
            } else {
                "left damaged at"
            };
            tell_two(came, words, offset)
        }
        fault => tell(came, fault),
    }
}

// Switches from the bank that is chosen to the other disk, whose power goes off inside a device
// call. The disks are then the one that was in use, and the other; if none is chosen, they are
// gone.
fn switch_once(
    alloc: Global,
    disks: &mut Disks,
    words: &str,
    came: &mut String,
) -> Result<(), WordsFault> {
    let (limit, calls) = read_switch(words)?;
    let Disks { left, right } = disks.take(alloc);
    match switched(alloc, left, right, limit, calls) {
        Ok((fault, left, right)) => {
            *disks = Disks { left, right };
            tell_switch(fault, came)
        }
        Err(fault) => tell_fault(fault, came),
    }
}

// The limit of a bank, and how many calls of the other device the power lasts: all, if no number
// says it.
fn read_switch(words: &str) -> Result<(u16, u64), WordsFault> {
    let (limit, calls) = split_word(words);
    let Ok(limit) = limit.parse::<u16>() else {
        return Err(WordsFault::Unknown);
    };
    if calls.is_empty() {
        return Ok((limit, u64::MAX));
    }
    Ok((limit, read_number(calls)?))
}

// Chooses one of the banks on two disks and switches to the other disk, if the power goes off
// inside the device call of this number. Gives the two disks: the one that was in use, and the
// other.
fn switched(
    alloc: Global,
    left: MemDisk,
    right: MemDisk,
    limit: u16,
    calls: u64,
) -> Result<(Option<SwitchFault>, MemDisk, MemDisk), ChoiceFault> {
    let chosen: Choice = match choose_bank(alloc, left, right, usize::from(limit)) {
        Ok(chosen) => chosen,
        Err((fault, _, _)) => return Err(fault),
    };
    let Chosen {
        state,
        bank,
        mut other,
        ..
    } = chosen;
    other.fuse(calls);
    match switch(alloc, bank, other, &state) {
        Ok((bank, old)) => Ok((None, old, bank.into_disk())),
        Err((fault, bank, other)) => Ok((Some(fault), bank.into_disk(), other)),
    }
}

// Writes why a server did not switch.
fn tell_switch(fault: Option<SwitchFault>, came: &mut String) -> Result<(), WordsFault> {
    match fault {
        None => Ok(()),
        Some(SwitchFault::Memory) => Err(WordsFault::Memory),
        Some(fault) => tell(came, fault),
    }
}
