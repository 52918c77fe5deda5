//! Writing side of a connection: what comes out of its client's outlet is written.

ghost use Rattle.std.specs.Prelude.{◌≡◌, IfOk, IfErr};
ghost use Rattle.std.specs.List.{flat_map};
ghost use Rattle.linda_wire.specs.Frames.{reply_frame};
ghost use Rattle.linda_store.specs.Sending.{HasWritten};
ghost use Rattle.linda_net_pump.specs.Pumping.{IsOfIntake};

use crate::connection::ThreadConnection;
use linda_disk::Disk;
use linda_shared::Shared;
use linda_store::{ConverseFault, send};
use linda_wire::{Reply, encode_reply};
use std::alloc::{AllocError, Global};
use std::io::Write;
use std::sync::Wait;
use std::sync::ledger::Ledger;
use std::time::Clock;

/// Drains the outlet of the connection's client, once it was greeted, and writes what came out,
/// until no more comes or it cannot be written. Then nothing more is read, and the outlet is given
/// back.
pub(crate) fn write_all<D: Disk, L: Ledger, R: Wait + Clock>(
    rt: &R,
    alloc: Global,
    shared: &Shared<D, L>,
    connection: &ThreadConnection<L>,
) {
    let Some(outlet) = connection.wait_outlet(rt, shared) else {
        return;
    };
    let mut outlet = outlet;
    for _ in rt.forever() {
        let replies = shared.drain_wait(rt, &mut outlet);
        if replies.is_empty() || !write_in_turn(rt, alloc, connection, &replies) {
            break;
        }
    }
    connection.end_reading();
    connection.put_outlet(rt, outlet);
}

// Writes the replies. Nothing is submitted meanwhile. Returns whether they were written.
fn write_in_turn<L: Ledger, R: Wait>(
    rt: &R,
    alloc: Global,
    connection: &ThreadConnection<L>,
    replies: &[Reply],
) -> bool {
    let mut stream = connection.stream();
    let turn = connection.turn().lock(rt);
    let written = write_replies(alloc, &mut stream, replies);
    drop(turn);
    written.is_ok()
}

/// Writes the frames of the replies, in order.
///
/// # Errors
///
/// `Memory` if there is none for the frames: nothing was written. `Write` if the writer failed: it
/// has taken a prefix of the frames.
pub(crate) fn write_replies<W: Write>(
    alloc: Global,
    writer: &mut W,
    replies: &[Reply],
) -> Result<(), ConverseFault>
    ensures written { HasWritten (W.contents writer.old) (W.contents writer.new)
        (flat_map reply_frame replies.now) result }
    ensures err { IfErr result IsOfIntake }
{
    match spell(alloc, replies) {
        Ok(bytes) => match send(writer, &bytes) {
            Ok(()) => Ok(()),
            Err(_) => Err(ConverseFault::Write),
        },
        Err(_) => Err(ConverseFault::Memory),
    }
}

// The frames of the replies, in order.
fn spell(alloc: Global, replies: &[Reply]) -> Result<Vec<u8>, AllocError>
    ensures { IfOk result (λ bytes. bytes.items ≡ flat_map reply_frame replies.now) }
{
    let mut bytes = Vec::new(alloc);
    for reply in replies {
        encode_reply(&mut bytes, reply)?;
    }
    Ok(bytes)
}
