//! A reply in a frame: read, passed over and written.

ghost use Rattle.std.specs.Prelude.{◌≡◌, ℕ, ◌∷◌, ◌++◌, length, take, OnOk};
ghost use Rattle.linda_tuple.specs.Tuple.{FitsIn};
ghost use Rattle.linda_codec.specs.Steps.{Gives, GivesAlways, left_by};
ghost use Rattle.linda_codec.specs.Formats.{made_at, number};
ghost use Rattle.linda_wire.specs.Frames as format;
ghost use Rattle.linda_wire.specs.Frames.{spoken};
ghost use Rattle.linda_wire.specs.declared.reply.Reply.TheVariants as replies;

use crate::framed::{FramePayload, push_numbered, push_placed, push_tuple};
use crate::kinds::{GONE, LEFT, OFFER, READ, REFUSED, STORED, TAKEN, WELCOME};
use crate::limits::FORM;
use crate::reply::Reply;
use linda_codec::{KIND_BYTES, ReadFault, read_tuple, read_u8, read_u64, skip_tuple};
use linda_tuple::Tuple;
use std::alloc::{AllocError, Global};

impl FramePayload for Reply {
    ghost use Rattle.linda_wire.specs.FrameLaws.{reply_is, reply_size};
    ghost use Rattle.linda_wire.specs.Frames.{reply};

    ghost format = { reply };

    ghost framed = { record { lawful = reply_is; sized = reply_size } };

    fn read(alloc: Global, payload: &[u8]) -> Result<(Reply, &[u8]), ReadFault> {
        match payload {
            [] => Err(ReadFault::Short),
            [kind, body @ ..] => read_body(alloc, *kind, body),
        }
    }

    fn skip(payload: &[u8]) -> Result<&[u8], ReadFault> {
        match payload {
            [] => Err(ReadFault::Short),
            [kind, body @ ..] => skip_body(*kind, body),
        }
    }

    fn push(&self, out: &mut Vec<u8>) -> Result<(), AllocError> {
        match self {
            Reply::Welcome { last } => push_numbered(out, WELCOME, *last),
            Reply::Stored { n, id } => push_placed(out, STORED, *n, *id),
            Reply::Offer { ticket, id, tuple } => push_entry(out, OFFER, *ticket, *id, tuple),
            Reply::Read { ticket, id, tuple } => push_entry(out, READ, *ticket, *id, tuple),
            Reply::Taken { n, id, tuple } => push_entry(out, TAKEN, *n, *id, tuple),
            Reply::Gone { n } => push_numbered(out, GONE, *n),
            Reply::Refused { code, detail } => push_refused(out, *code, *detail),
            Reply::Left { n } => push_numbered(out, LEFT, *n),
        }
    }
}

// Reads a reply of that kind, of which the kind is read and the body is at the front.
fn read_body(alloc: Global, kind: u8, body: &[u8]) -> Result<(Reply, &[u8]), ReadFault>
    ensures { Gives (λ x. (x.0, x.1.now)) result (format.reply_body_at kind body.now) }
{
    match kind {
        WELCOME => {
            let (last, rest) = read_u64(body)?;
            Ok((Reply::Welcome { last }, rest))
        }
        STORED => {
            let ((n, id), rest) = read_pair(body)?;
            Ok((Reply::Stored { n, id }, rest))
        }
        OFFER => {
            let (ticket, id, tuple, rest) = read_entry(alloc, body)?;
            Ok((Reply::Offer { ticket, id, tuple }, rest))
        }
        READ => {
            let (ticket, id, tuple, rest) = read_entry(alloc, body)?;
            Ok((Reply::Read { ticket, id, tuple }, rest))
        }
        TAKEN => {
            let (n, id, tuple, rest) = read_entry(alloc, body)?;
            Ok((Reply::Taken { n, id, tuple }, rest))
        }
        GONE => {
            let (n, rest) = read_u64(body)?;
            Ok((Reply::Gone { n }, rest))
        }
        REFUSED => {
            let ((code, detail), rest) = read_refusal(body)?;
            Ok((Reply::Refused { code, detail }, rest))
        }
        LEFT => {
            let (n, rest) = read_u64(body)?;
            Ok((Reply::Left { n }, rest))
        }
        _ => Err(ReadFault::BadKind(KIND_BYTES + body.len())),
    }
}

// The bytes after a reply of that kind, of which the kind is read and the body is at the front.
fn skip_body(kind: u8, body: &[u8]) -> Result<&[u8], ReadFault>
    ensures { GivesAlways (λ rest. rest.now) result (left_by (format.reply_body_at kind body.now)) }
{
    match kind {
        WELCOME => skip_number(body),
        STORED => skip_pair(body),
        OFFER => skip_entry(body),
        READ => skip_entry(body),
        TAKEN => skip_entry(body),
        GONE => skip_number(body),
        REFUSED => skip_refusal(body),
        LEFT => skip_number(body),
        _ => Err(ReadFault::BadKind(KIND_BYTES + body.len())),
    }
}

fn skip_number(body: &[u8]) -> Result<&[u8], ReadFault>
    ensures { (make : ℕ → Reply) → GivesAlways (λ rest. rest.now) result
        (left_by (made_at make number body.now)) }
{
    let (_number, rest) = read_u64(body)?;
    Ok(rest)
}

// Two numbers, and the bytes after them.
fn read_pair(body: &[u8]) -> Result<((u64, u64), &[u8]), ReadFault>
    ensures { GivesAlways (λ x. (x.0, x.1.now)) result (format.stored.read body.now) }
{
    let (number, rest) = read_u64(body)?;
    let (id, rest) = read_u64(rest)?;
    Ok(((number, id), rest))
}

fn skip_pair(body: &[u8]) -> Result<&[u8], ReadFault>
    ensures { (make : ℕ × ℕ → Reply) → GivesAlways (λ rest. rest.now) result
        (left_by (made_at make format.stored body.now)) }
{
    let (_pair, rest) = read_pair(body)?;
    Ok(rest)
}

// A code and its detail, and the bytes after them.
fn read_refusal(body: &[u8]) -> Result<((u8, u64), &[u8]), ReadFault>
    ensures { GivesAlways (λ x. (x.0, x.1.now)) result (format.refusal.read body.now) }
{
    let (code, rest) = read_u8(body)?;
    let (detail, rest) = read_u64(rest)?;
    Ok(((code, detail), rest))
}

fn skip_refusal(body: &[u8]) -> Result<&[u8], ReadFault>
    ensures { (make : ℕ × ℕ → Reply) → GivesAlways (λ rest. rest.now) result
        (left_by (made_at make format.refusal body.now)) }
{
    let (_refusal, rest) = read_refusal(body)?;
    Ok(rest)
}

// Two numbers and a tuple, and the bytes after them.
fn read_entry(alloc: Global, body: &[u8]) -> Result<(u64, u64, Tuple, &[u8]), ReadFault>
    ensures { Gives (λ x. ((x.0, (x.1, x.2)), x.3.now)) result (format.entry.read body.now) }
{
    let (number, rest) = read_u64(body)?;
    let (id, rest) = read_u64(rest)?;
    let (tuple, rest) = read_tuple(alloc, FORM, rest)?;
    Ok((number, id, tuple, rest))
}

fn skip_entry(body: &[u8]) -> Result<&[u8], ReadFault>
    ensures { (make : ℕ × (ℕ × Tuple) → Reply) → GivesAlways (λ rest. rest.now) result
        (left_by (made_at make format.entry body.now)) }
{
    let (_number, rest) = read_u64(body)?;
    let (_id, rest) = read_u64(rest)?;
    skip_tuple(FORM, rest)
}

fn push_refused(out: &mut Vec<u8>, code: u8, detail: u64) -> Result<(), AllocError>
    ensures ok { OnOk result (out.new.items
        ≡ out.old.items ++ format.spell_reply (replies.Refused code detail)) }
    ensures front { take (length out.old.items) out.new.items ≡ out.old.items }
{
    out.push(REFUSED)?;
    out.push(code)?;
    out.extend_from_slice(&detail.to_be_bytes())
}

// Appends a kind byte, two numbers and a tuple.
fn push_entry(
    out: &mut Vec<u8>,
    kind: u8,
    number: u64,
    id: u64,
    tuple: &Tuple,
) -> Result<(), AllocError>
    ensures ok { OnOk result (out.new.items
        ≡ out.old.items ++ (kind ∷ format.entry.spell (number, (id, tuple.now)))) }
    ensures front { take (length out.old.items) out.new.items ≡ out.old.items }
    ensures within { OnOk result (FitsIn spoken tuple.now) }
{
    push_placed(out, kind, number, id)?;
    push_tuple(out, tuple)
}
