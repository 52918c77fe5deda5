//! JSON object of what two banks come to.

mod head;
mod listing;
mod output;
mod value;

ghost use Rattle.std.specs.Prelude.{◌≡◌, ◌++◌, ◌⊎◌, [], ℕ, List, IfErr, IfOk, OnOk};
ghost use Rattle.std.specs.Io.KnownBytes.{Appends};
ghost use Rattle.linda_store_state.specs.State.{IsState, State};
ghost use Rattle.linda_snap.specs.Stands.{Stands};
ghost use Rattle.linda_inspect.specs.Faults.{IsFaultOf, IsOfOutput, MayStand};
ghost use Rattle.linda_inspect.specs.Json.{json_state};
ghost use Rattle.linda_inspect.specs.Object.{IsObject, json_bank, json_files, json_new};
ghost use Rattle.linda_inspect.specs.Object.{json_standing};

use crate::fault::{InspectFault, OutputFault, of_choice};
use crate::lists::Lists;
use crate::whole::whole_before;
use head::{are_banks, push_bank, push_files, push_standing, side};
use linda_bag::IndexBag;
use linda_disk::MemDisk;
use linda_journal::{Heading, read_heading};
use linda_snap::{ChoiceFault, Chosen, choose_bank};
use listing::write_state;
use output::write_bytes;
use std::alloc::{AllocError, Global};
use std::io::Write;
use value::push_member;
pub use value::{
    push_atom as push_json_atom, push_member as push_json_member, push_string as push_json_string,
    push_tuple as push_json_tuple,
};

/// Writes what `write_report` reports, as one JSON object.
///
/// # Errors
///
/// As `write_report`.
pub fn write_json<W: Write>(
    alloc: Global,
    writer: &mut W,
    left: Vec<u8>,
    right: Vec<u8>,
    limit: usize,
    lists: Lists,
) -> Result<(), InspectFault>
    // It ends well, and fails, as `write_report`.
    ensures opens { OnOk result (((left.items ≡ []) × (right.items ≡ []))
        ⊎ MayStand left.items right.items) }
    ensures stands { (st : State) → Stands left.items right.items st → IfErr result IsOfOutput }
    ensures new { left.items ≡ [] → right.items ≡ [] → IfErr result IsOfOutput }
    ensures fault { IfErr result (IsFaultOf left.items right.items) }
    // If it ends well, what it wrote is the object of the two files.
    ensures object { OnOk result ((text : List ℕ)
        × IsObject lists limit left.items right.items text
        × Appends (W.contents writer.old) (W.contents writer.new) text) }
{
    let one = read_heading(&left);
    let two = read_heading(&right);
    let are_two = are_banks(one, two);
    let head = begun(alloc, one, left.len(), two, right.len())?;
    if left.is_empty() && right.is_empty() {
        write_new(writer, head)?;
        return Ok(());
    }
    let left = MemDisk::from_bytes(alloc, left)?;
    let right = MemDisk::from_bytes(alloc, right)?;
    match choose_bank(alloc, left, right, limit) {
        Ok(chosen) => {
            write_standing(alloc, writer, head, are_two, &chosen, lists)?;
            Ok(())
        }
        Err((fault, left, right)) => {
            write_fault(alloc, writer, head, fault, left, right, limit, lists)?;
            Err(of_choice(fault))
        }
    }
}

// The object up to the two files.
fn begun(
    alloc: Global,
    left: Heading,
    bytes: usize,
    right: Heading,
    more: usize,
) -> Result<Vec<u8>, OutputFault>
    ensures { IfOk result (λ out. out.items ≡ json_files left bytes right more) }
{
    let mut out = Vec::new(alloc);
    push_files(&mut out, left, bytes, right, more)?;
    Ok(out)
}

// The rest of the object of two empty files, after its head.
fn write_new<W: Write>(writer: &mut W, head: Vec<u8>) -> Result<(), OutputFault>
    ensures { OnOk result (Appends (W.contents writer.old) (W.contents writer.new)
        (head.items ++ json_new)) }
{
    write_bytes(writer, &head)?;
    write_bytes(
        writer,
        b",\n\"stands\":null,\n\"why\":\"a server makes a new store\"\n}\n",
    )?;
    Ok(())
}

// The rest of the object of two files of which one is in use, after its head.
fn write_standing<W: Write>(
    alloc: Global,
    writer: &mut W,
    head: Vec<u8>,
    are_two: bool,
    chosen: &Chosen<IndexBag, MemDisk>,
    lists: Lists,
) -> Result<(), OutputFault>
    requires { IsState chosen.now.state }
    ensures { OnOk result (Appends (W.contents writer.old) (W.contents writer.new)
        (head.items ++ json_standing chosen.now.is_right are_two
        ++ json_bank chosen.now.bank.form chosen.now.bank.generation chosen.now.bank.records
        chosen.now.bank.end chosen.now.bank.limit
        ++ json_state lists chosen.now.state)) }
{
    let mut out = head;
    push_standing(&mut out, chosen.is_right, are_two)?;
    write_bank(alloc, writer, out, chosen, lists)?;
    Ok(())
}

// A bank and what it keeps, after the head of an object.
fn write_bank<W: Write>(
    alloc: Global,
    writer: &mut W,
    head: Vec<u8>,
    chosen: &Chosen<IndexBag, MemDisk>,
    lists: Lists,
) -> Result<(), OutputFault>
    requires { IsState chosen.now.state }
    ensures { OnOk result (Appends (W.contents writer.old) (W.contents writer.new)
        (head.items
        ++ json_bank chosen.now.bank.form chosen.now.bank.generation chosen.now.bank.records
        chosen.now.bank.end chosen.now.bank.limit
        ++ json_state lists chosen.now.state)) }
{
    let mut out = head;
    push_chosen(&mut out, chosen)?;
    write_bytes(writer, &out)?;
    write_state(alloc, writer, &chosen.state, lists)?;
    Ok(())
}

// A bank.
fn push_chosen(out: &mut Vec<u8>, chosen: &Chosen<IndexBag, MemDisk>) -> Result<(), AllocError>
    ensures { OnOk result (out.new.items ≡ out.old.items
        ++ json_bank chosen.now.bank.form chosen.now.bank.generation chosen.now.bank.records
        chosen.now.bank.end chosen.now.bank.limit) }
{
    let form = chosen.bank.form();
    let generation = chosen.bank.generation();
    let records = chosen.bank.records();
    let used = chosen.bank.end();
    let limit = chosen.bank.limit();
    push_bank(out, form, generation, records, used, limit)?;
    Ok(())
}

// The rest of the object of a store that no server opens, after its head.
fn write_fault<W: Write>(
    alloc: Global,
    writer: &mut W,
    head: Vec<u8>,
    fault: ChoiceFault,
    left: MemDisk,
    right: MemDisk,
    limit: usize,
    lists: Lists,
) -> Result<(), OutputFault> {
    match fault {
        ChoiceFault::NoStore => write_none(writer, head),
        ChoiceFault::Damaged {
            right: is_right,
            offset,
        } => {
            let damaged = told_damaged(head, is_right, offset)?;
            let disk = if is_right { &right } else { &left };
            write_whole(alloc, writer, damaged, disk.bytes(), offset, limit, lists)
        }
        ChoiceFault::Disk => Ok(()),
        ChoiceFault::Memory => Ok(()),
    }
}

fn write_none<W: Write>(writer: &mut W, head: Vec<u8>) -> Result<(), OutputFault> {
    write_bytes(writer, &head)?;
    write_bytes(writer, b",\n\"stands\":null,\n\"why\":\"no bank\"\n}\n")
}

// The head, with a damage at this offset.
fn told_damaged(head: Vec<u8>, is_right: bool, offset: usize) -> Result<Vec<u8>, AllocError> {
    let mut out = head;
    out.extend_from_slice(b",\n\"stands\":null,\n\"why\":\"damaged\",\n\"damaged\":{\"side\":")?;
    out.extend_from_slice(side(is_right))?;
    push_member(&mut out, b",\"offset\":", offset as u64)?;
    out.extend_from_slice(b"}")?;
    Ok(out)
}

// What is whole before a damage, after the head of the object.
fn write_whole<W: Write>(
    alloc: Global,
    writer: &mut W,
    head: Vec<u8>,
    bytes: &[u8],
    offset: usize,
    limit: usize,
    lists: Lists,
) -> Result<(), OutputFault> {
    match whole_before(alloc, bytes, offset, limit)? {
        None => {
            write_bytes(writer, &head)?;
            write_bytes(writer, b",\n\"whole_before\":null\n}\n")
        }
        Some(chosen) => {
            let mut out = head;
            push_member(&mut out, b",\n\"whole_before\":", chosen.bank.end() as u64)?;
            write_bank(alloc, writer, out, &chosen, lists)
        }
    }
}
