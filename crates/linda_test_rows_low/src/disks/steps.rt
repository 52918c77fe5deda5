//! Snapshots in steps, groups whose deeds take several records, and what is kept then.

ghost use Rattle.std.specs.Prelude.{IfOk, ◌≤◌, length};
ghost use Rattle.linda_store_step.specs.declared.size.TheConstants.{MAX_GROUP};

use crate::disks::serving::tell_done;
use linda_bag::Bag;
use linda_disk::MemDisk;
use linda_server::{Durable, Progress};
use linda_store::NodeFault;
use linda_store_step::MAX_GROUP;
use linda_test_script::{
    WordsFault, done, read_messages, read_number, read_size, read_small_number, tell, tell_two,
};
use linda_wire::Message;
use std::alloc::{AllocError, Global};

/// Lets the server do what the words say, or shows what it keeps.
pub(crate) fn play_steps(
    alloc: Global,
    server: &mut Durable<MemDisk>,
    word: &str,
    rest: &str,
    came: &mut String,
) -> Result<(), WordsFault> {
    match word {
        "begin" => tell_done(server.begin_snapshot(alloc), came),
        "step" => tell_progress(server.continue_snapshot(alloc, read_size(rest)?), came),
        "copy" => copy(alloc, server, rest, came),
        "group" => serve_group(alloc, server, rest, came),
        _ => show(server, word, rest, came),
    }
}

// Writes how a snapshot in steps goes on, or why it does not.
fn tell_progress(told: Result<Progress, NodeFault>, came: &mut String) -> Result<(), WordsFault> {
    match told {
        Ok(Progress::Done) => tell(came, "done"),
        Ok(Progress::Going) => tell(came, "going"),
        Ok(Progress::Idle) => tell(came, "idle"),
        Err(fault) => tell(came, fault),
    }
}

// Copies so many more clients at most, and says whether all are copied.
fn copy(
    alloc: Global,
    server: &mut Durable<MemDisk>,
    most: &str,
    came: &mut String,
) -> Result<(), WordsFault> {
    let most = read_small_number(most)?;
    let are_all = server.copy_clients(alloc, most);
    tell(
        came,
        if are_all {
            "all copied"
        } else {
            "more to copy"
        },
    )
}

// Client 9 puts so many tuples ("a", 0) as one group, by its messages from 1 on.
fn serve_group(
    alloc: Global,
    server: &mut Durable<MemDisk>,
    count: &str,
    came: &mut String,
) -> Result<(), WordsFault> {
    let messages = puts(alloc, read_number(count)?)?;
    match server.serve_all(alloc, &messages) {
        Ok(_) => Ok(()),
        Err(fault) => tell(came, fault),
    }
}

// So many puts of client 9, which are few enough for one group.
fn puts(alloc: Global, count: u64) -> Result<Vec<(u32, Message)>, WordsFault>
    ensures { IfOk result (λ messages. length messages.items ≤ MAX_GROUP) }
{
    let messages = read_messages(alloc, &script_of(alloc, count)?)?;
    if messages.len() > MAX_GROUP {
        return Err(WordsFault::Unknown);
    }
    Ok(messages)
}

fn script_of(alloc: Global, count: u64) -> Result<String, AllocError> {
    let mut script = String::new(alloc);
    for n in 1..=count {
        writeln!(script, "9 out {n} (\"a\", 0)")?;
    }
    Ok(script)
}

// Shows the bank in use, whether a snapshot in steps is begun, which ids have a tuple, or the last
// number of a client and whether it left by that.
fn show(
    server: &Durable<MemDisk>,
    word: &str,
    rest: &str,
    came: &mut String,
) -> Result<(), WordsFault> {
    match word {
        "use" => done(tell_use(server, came)),
        "begun" => tell(
            came,
            if server.is_snapshot_begun() {
                "begun"
            } else {
                "none begun"
            },
        ),
        "ids" => done(tell_ids(server, read_number(rest)?, came)),
        _ => {
            let (last, left) = server.state().book.standing(read_small_number(rest)?);
            tell_two(came, last, if left { "left" } else { "stays" })
        }
    }
}

// Writes which bank is in use, how many records it has and how many bytes.
fn tell_use(server: &Durable<MemDisk>, came: &mut String) -> Result<(), AllocError> {
    let side = match server.in_use() {
        None => "unknown",
        Some(used) if used.is_right => "right",
        Some(_) => "left",
    };
    let (records, used) = (server.records(), server.used());
    writeln!(came, "> {side}, records {records}, used {used}")
}

// Writes the ids below this one that have a tuple.
fn tell_ids(server: &Durable<MemDisk>, end: u64, came: &mut String) -> Result<(), AllocError> {
    came.push_str("> ids")?;
    for id in 0..end {
        if server.state().bag.get(id).is_some() {
            write!(came, " {id}")?;
        }
    }
    came.push('\n')
}
