//! Report on two banks, line by line.

ghost use Rattle.std.specs.Prelude.{◌≡◌, ◌⊎◌, [], IfErr, OnOk};
ghost use Rattle.linda_store_state.specs.State.{State};
ghost use Rattle.linda_snap.specs.Stands.{Stands};
ghost use Rattle.linda_inspect.specs.Faults.{IsFaultOf, IsOfOutput, MayStand};

use crate::fault::{InspectFault, OutputFault, of_choice};
use crate::lists::{Lists, list_state};
use crate::output::write_lines;
use crate::side::{are_two, letters_of, side_line, side_name};
use crate::whole::whole_before;
use linda_bag::IndexBag;
use linda_disk::MemDisk;
use linda_snap::{ChoiceFault, Chosen, choose_bank};
use std::alloc::Global;
use std::io::Write;

/// Writes what two files of these bytes come to as the banks of a store, whose banks may have so
/// many bytes: a line for each side, which one is in use and why, and what it keeps. If a bank is
/// damaged, what is whole before that.
///
/// # Errors
///
/// `NoStore`, `Damaged` as a server returns them; `Memory`; `Io`, and then some first lines are
/// written.
pub fn write_report<W: Write>(
    alloc: Global,
    writer: &mut W,
    left: Vec<u8>,
    right: Vec<u8>,
    limit: usize,
    lists: Lists,
) -> Result<(), InspectFault>
    // It ends well only if the two represent a state, or if both are empty, in which case a server
    // makes a store;
    ensures opens { OnOk result (((left.items ≡ []) × (right.items ≡ []))
        ⊎ MayStand left.items right.items) }
    // and then only a fault that says nothing of the banks keeps it from that.
    ensures stands { (st : State) → Stands left.items right.items st → IfErr result IsOfOutput }
    ensures new { left.items ≡ [] → right.items ≡ [] → IfErr result IsOfOutput }
    // A fault is one of those bytes.
    ensures fault { IfErr result (IsFaultOf left.items right.items) }
{
    let two = are_two(&left, &right);
    write_sides(alloc, writer, &left, &right)?;
    if left.is_empty() && right.is_empty() {
        write_lines(writer, "stands neither a server makes a new store\n")?;
        return Ok(());
    }
    let left = MemDisk::from_bytes(alloc, left)?;
    let right = MemDisk::from_bytes(alloc, right)?;
    match choose_bank(alloc, left, right, limit) {
        Ok(chosen) => {
            write_standing(alloc, writer, &chosen, two, lists)?;
            Ok(())
        }
        Err((fault, left, right)) => {
            write_fault(alloc, writer, fault, left, right, limit, lists)?;
            Err(of_choice(fault))
        }
    }
}

// The lines of the two files.
fn write_sides<W: Write>(
    alloc: Global,
    writer: &mut W,
    left: &[u8],
    right: &[u8],
) -> Result<(), OutputFault> {
    let line = side_line(alloc, side_name(false), left)?;
    write_lines(writer, &line)?;
    let line = side_line(alloc, side_name(true), right)?;
    write_lines(writer, &line)
}

// The lines of the bank in use: one of two, or the only one.
fn write_standing<W: Write>(
    alloc: Global,
    writer: &mut W,
    chosen: &Chosen<IndexBag, MemDisk>,
    two: bool,
    lists: Lists,
) -> Result<(), OutputFault> {
    let side = side_name(chosen.is_right);
    let why = if two {
        "the greater generation"
    } else {
        "the only bank"
    };
    let line = format!(in alloc; "stands {side} {why}\n")?;
    write_lines(writer, &line)?;
    write_bank(alloc, writer, chosen, lists)
}

// The lines of a bank: its form, and how much it has and keeps.
fn write_bank<W: Write>(
    alloc: Global,
    writer: &mut W,
    chosen: &Chosen<IndexBag, MemDisk>,
    lists: Lists,
) -> Result<(), OutputFault> {
    let letters = letters_of(chosen.bank.form());
    let generation = chosen.bank.generation();
    let records = chosen.bank.records();
    let used = chosen.bank.end();
    let limit = chosen.bank.limit();
    let line = format!(in alloc;
        "bank {letters} generation {generation} records {records} used {used} of {limit}\n"
    )?;
    write_lines(writer, &line)?;
    list_state(alloc, writer, &chosen.state, lists)
}

// The lines of a store that no server opens.
fn write_fault<W: Write>(
    alloc: Global,
    writer: &mut W,
    fault: ChoiceFault,
    left: MemDisk,
    right: MemDisk,
    limit: usize,
    lists: Lists,
) -> Result<(), OutputFault> {
    match fault {
        ChoiceFault::NoStore => write_lines(writer, "stands neither no bank\n"),
        ChoiceFault::Damaged {
            right: is_right,
            offset,
        } => {
            let side = side_name(is_right);
            let line = format!(in alloc; "damaged {side} {offset}\n")?;
            write_lines(writer, &line)?;
            let disk = if is_right { &right } else { &left };
            write_whole(alloc, writer, disk.bytes(), offset, limit, lists)
        }
        ChoiceFault::Disk => Ok(()),
        ChoiceFault::Memory => Ok(()),
    }
}

// The lines of what is whole before a damage.
fn write_whole<W: Write>(
    alloc: Global,
    writer: &mut W,
    bytes: &[u8],
    offset: usize,
    limit: usize,
    lists: Lists,
) -> Result<(), OutputFault> {
    match whole_before(alloc, bytes, offset, limit)? {
        None => write_lines(writer, "whole none\n"),
        Some(chosen) => {
            let end = chosen.bank.end();
            let line = format!(in alloc; "whole before {end}\n")?;
            write_lines(writer, &line)?;
            write_bank(alloc, writer, &chosen, lists)
        }
    }
}
