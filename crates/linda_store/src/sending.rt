//! Writing replies and whole buffers, so that it is known what went out even if a write fails.

ghost use Rattle.std.specs.Prelude.{◌≡◌, ◌<◌, ◌≤◌, length, take, IfOk, OnErr};
ghost use Rattle.std.specs.List.{flat_map};
ghost use Rattle.linda_wire.specs.Frames.{reply_frame};
ghost use Rattle.std.specs.Io.KnownBytes.{Keeps, Appends};
ghost use Rattle.linda_store.specs.Sending.{HasSent, HasWritten};

use crate::end::ConverseFault;
use linda_wire::{Reply, encode_reply};
use std::alloc::{AllocError, Global};
use std::io;
use std::io::{ErrorKind, Write};

/// Writes the frames of the replies, in order, and flushes.
///
/// # Errors
///
/// `Memory` if there is none for the frames: nothing was written. `Write` if the writer failed or
/// was interrupted: it has taken a prefix of the frames.
pub(crate) fn write_replies<W: Write>(
    alloc: Global,
    writer: &mut W,
    replies: &[Reply],
) -> Result<(), ConverseFault>
    ensures { HasWritten (W.contents writer.old) (W.contents writer.new)
        (flat_map reply_frame replies.now) result }
{
    match spell_replies(alloc, replies) {
        Ok(bytes) => match send(writer, &bytes) {
            Ok(()) => Ok(()),
            Err(_) => Err(ConverseFault::Write),
        },
        Err(_) => Err(ConverseFault::Memory),
    }
}

// The frames of the replies, in order.
fn spell_replies(alloc: Global, replies: &[Reply]) -> Result<Vec<u8>, AllocError>
    ensures { IfOk result (λ bytes. bytes.items ≡ flat_map reply_frame replies.now) }
{
    let mut bytes = Vec::new(alloc);
    for reply in replies {
        encode_reply(&mut bytes, reply)?;
    }
    Ok(bytes)
}

/// Writes all of the bytes and flushes.
///
/// # Errors
///
/// If the writer failed, was interrupted or took nothing: it has taken some first bytes.
pub fn send<W: Write>(writer: &mut W, bytes: &[u8]) -> io::Result<()>
    ensures { HasSent (W.contents writer.old) (W.contents writer.new) bytes.now result }
{
    let mut sent = 0;
    while sent < bytes.len() {
        sent += write_some(writer, &bytes[sent..])?;
    }
    writer.flush()
}

// Writes at least one of the bytes, and says how many.
fn write_some<W: Write>(writer: &mut W, bytes: &[u8]) -> io::Result<usize>
    requires { 0 < length bytes.now }
    ensures bound { IfOk result (λ n. (0 < n) × (n ≤ length bytes.now)) }
    ensures ok { IfOk result (λ n.
        Appends (W.contents writer.old) (W.contents writer.new) (take n bytes.now)) }
    ensures err { OnErr result (Keeps (W.contents writer.old) (W.contents writer.new)) }
{
    let written = writer.write(bytes)?;
    if written == 0 {
        return Err(io::Error::from(ErrorKind::WriteZero));
    }
    Ok(written)
}
