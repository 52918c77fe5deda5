//! Replies as lines of hexadecimal digits.

ghost use Rattle.std.specs.Prelude.{◌≡◌, ◌++◌, OnOk, OnErr};
ghost use Rattle.std.specs.List.{flat_map};
ghost use Rattle.linda_store_step.specs.Course.{IsFront};
ghost use Rattle.linda_pipe.specs.Piping.{reply_line};

use linda_wire::{Reply, encode_reply};
use std::alloc::{AllocError, Global};

const LINE_FEED: u8 = b'\n';

/// Appends the lines of some replies, one for each, in lower-case digits.
///
/// # Errors
///
/// If memory runs out, `lines` is left as it was.
pub fn push_reply_lines(
    alloc: Global,
    lines: &mut Vec<u8>,
    replies: &[Reply],
) -> Result<(), AllocError>
    ensures ok { OnOk result (lines.new.items
        ≡ lines.old.items ++ flat_map reply_line replies.now) }
    ensures err { OnErr result (lines.new.items ≡ lines.old.items) }
{
    let len = lines.len();
    let pushed = push_each(alloc, lines, replies);
    if pushed.is_err() {
        lines.truncate(len);
    }
    pushed
}

// Appends the lines of some replies; if memory runs out, some of them.
fn push_each(alloc: Global, lines: &mut Vec<u8>, replies: &[Reply]) -> Result<(), AllocError>
    ensures ok { OnOk result (lines.new.items
        ≡ lines.old.items ++ flat_map reply_line replies.now) }
    ensures err { OnErr result (IsFront lines.old.items lines.new.items) }
{
    for reply in replies {
        push_reply_line(alloc, lines, reply)?;
    }
    Ok(())
}

// Appends the line of one reply; if memory runs out, some of it.
fn push_reply_line(alloc: Global, lines: &mut Vec<u8>, reply: &Reply) -> Result<(), AllocError>
    ensures ok { OnOk result (lines.new.items ≡ lines.old.items ++ reply_line reply.now) }
    ensures err { OnErr result (IsFront lines.old.items lines.new.items) }
{
    let mut frame = Vec::new(alloc);
    encode_reply(&mut frame, reply)?;
    let digits = hex::encode(alloc, frame.as_slice())?;
    lines.extend_from_slice(digits.as_bytes())?;
    lines.push(LINE_FEED)?;
    Ok(())
}
