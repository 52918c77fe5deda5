//! A kept reply as bytes: a kind byte, and the id and the tuple that it gives.

ghost use Rattle.std.specs.Prelude.{◌≡◌, [], ◌∷◌, ◌++◌, ◌↔◌, length, take, IsOk, IsErrOf, IsTrue};
ghost use Rattle.std.specs.Prelude.{OnOk};
ghost use Rattle.linda_tuple.specs.declared.form.Form.TheVariants.{Two};
ghost use Rattle.linda_tuple.specs.Tuple.{FitsIn};
ghost use Rattle.linda_codec.specs.Steps.{Gives, GivesAlways, left_by};
ghost use Rattle.linda_codec.specs.Formats.{body_at, made_at, no_kind, number};
ghost use Rattle.linda_book.specs.declared.kept_reply.KeptReply.TheVariants.{Stored, Taken};
ghost use Rattle.linda_book.specs.declared.kinds.TheConstants as kind;
ghost use Rattle.linda_book.specs.ReplyFormat as format;

use crate::kept_reply::KeptReply;
use crate::kinds::{GONE, LEFT, STORED, TAKEN, has_leaves};
use linda_codec::{KIND_BYTES, MAX_TUPLE_BYTES, NUMBER_BYTES, ReadFault, Spelled, read_u64};
use linda_tuple::{Form, Tuple, fits};
use std::alloc::{AllocError, Global};

/// The most bytes that a kept reply spells in either form: a kind, and an id and a tuple.
pub(crate) const MAX_REPLY_BYTES: usize = KIND_BYTES + NUMBER_BYTES + MAX_TUPLE_BYTES;

impl Spelled for KeptReply {
    ghost use Rattle.linda_book.specs.declared.kept_reply.spelled.TheConstants.{MAX_REPLY_BYTES};
    ghost use Rattle.linda_book.specs.ReplyFormat.{reply};

    ghost format = { reply };

    ghost Within = { λ r. Unit {0} };

    ghost longest = { MAX_REPLY_BYTES };

    fn read(alloc: Global, form: Form, bytes: &[u8]) -> Result<(KeptReply, &[u8]), ReadFault> {
        match bytes {
            [] => Err(ReadFault::Short),
            [kind, body @ ..] => read_body(alloc, form, *kind, body),
        }
    }

    fn skip(form: Form, bytes: &[u8]) -> Result<&[u8], ReadFault> {
        match bytes {
            [] => Err(ReadFault::Short),
            [kind, body @ ..] => skip_body(form, *kind, body),
        }
    }

    fn push(&self, form: Form, out: &mut Vec<u8>) -> Result<(), AllocError> {
        match self {
            KeptReply::Stored(id) => push_stored(out, *id),
            KeptReply::Taken(id, tuple) => push_taken(form, out, *id, tuple),
            KeptReply::Gone => push_kind(out, GONE),
            KeptReply::Left => push_kind(out, LEFT),
        }
    }

    fn len(&self, form: Form) -> usize {
        match self {
            KeptReply::Stored(_) => KIND_BYTES + NUMBER_BYTES,
            KeptReply::Taken(_, tuple) => KIND_BYTES + NUMBER_BYTES + tuple.len(form),
            KeptReply::Gone => KIND_BYTES,
            KeptReply::Left => KIND_BYTES,
        }
    }
}

// Reads a kept reply of that kind, of which the kind is read and the body is at the front.
fn read_body(
    alloc: Global,
    form: Form,
    kind: u8,
    body: &[u8],
) -> Result<(KeptReply, &[u8]), ReadFault>
    ensures value { Gives (λ x. (x.0, x.1.now)) result (format.reply_body_at form kind body.now) }
    ensures memory { IsErrOf result ReadFault.Memory
        → IsOk (format.reply_body_at form kind body.now) }
{
    match kind {
        STORED => read_stored(body),
        TAKEN => read_taken(alloc, form, body),
        GONE => Ok((KeptReply::Gone, body)),
        _ => read_left(form, kind, body),
    }
}

// Reads a Stored.
fn read_stored(body: &[u8]) -> Result<(KeptReply, &[u8]), ReadFault>
    ensures { GivesAlways (λ x. (x.0, x.1.now)) result (made_at (λ id. Stored id) number body.now) }
{
    let (id, rest) = read_u64(body)?;
    Ok((KeptReply::Stored(id), rest))
}

// Reads a Taken.
fn read_taken(alloc: Global, form: Form, body: &[u8]) -> Result<(KeptReply, &[u8]), ReadFault>
    ensures value { Gives (λ x. (x.0, x.1.now)) result
        (made_at (λ p. Taken p.0 p.1) (format.placed form) body.now) }
    ensures memory { IsErrOf result ReadFault.Memory
        → IsOk (made_at (λ p. Taken p.0 p.1) (format.placed form) body.now) }
{
    let (id, rest) = read_u64(body)?;
    let (tuple, rest) = Tuple::read(alloc, form, rest)?;
    Ok((KeptReply::Taken(id, tuple), rest))
}

// Reads a Left, of which the kind is read, if the form has Leaves; of another kind that is the
// fault.
fn read_left(form: Form, kind: u8, rest: &[u8]) -> Result<(KeptReply, &[u8]), ReadFault>
    ensures { GivesAlways (λ x. (x.0, x.1.now)) result
        (body_at (format.left_kinds form) no_kind kind rest.now) }
{
    if kind == LEFT && has_leaves(form) {
        return Ok((KeptReply::Left, rest));
    }
    Err(ReadFault::BadKind(KIND_BYTES + rest.len()))
}

// The bytes after a kept reply of that kind, of which the kind is read and the body is at the
// front.
fn skip_body(form: Form, kind: u8, body: &[u8]) -> Result<&[u8], ReadFault>
    ensures { GivesAlways (λ rest. rest.now) result
        (left_by (format.reply_body_at form kind body.now)) }
{
    match kind {
        STORED => skip_stored_body(body),
        TAKEN => skip_taken_body(form, body),
        GONE => Ok(body),
        _ => skip_left_body(form, kind, body),
    }
}

// The bytes after a Stored.
fn skip_stored_body(body: &[u8]) -> Result<&[u8], ReadFault>
    ensures { GivesAlways (λ rest. rest.now) result
        (left_by (made_at (λ id. Stored id) number body.now)) }
{
    let (_id, rest) = read_u64(body)?;
    Ok(rest)
}

// The bytes after a Taken.
fn skip_taken_body(form: Form, body: &[u8]) -> Result<&[u8], ReadFault>
    ensures { GivesAlways (λ rest. rest.now) result
        (left_by (made_at (λ p. Taken p.0 p.1) (format.placed form) body.now)) }
{
    let (_id, rest) = read_u64(body)?;
    Tuple::skip(form, rest)
}

// The bytes after a Left, of which the kind is read.
fn skip_left_body(form: Form, kind: u8, rest: &[u8]) -> Result<&[u8], ReadFault>
    ensures { GivesAlways (λ rest. rest.now) result
        (left_by (body_at (format.left_kinds form) no_kind kind rest.now)) }
{
    let (_left, rest) = read_left(form, kind, rest)?;
    Ok(rest)
}

// Appends a Stored; if memory runs out, a part of it may be after the old bytes.
fn push_stored(out: &mut Vec<u8>, id: u64) -> Result<(), AllocError>
    ensures ok { OnOk result (out.new.items ≡ out.old.items ++ kind.STORED ∷ number.spell id) }
    ensures front { take (length out.old.items) out.new.items ≡ out.old.items }
{
    out.push(STORED)?;
    out.extend_from_slice(&id.to_be_bytes())
}

// Appends a Taken; likewise.
fn push_taken(form: Form, out: &mut Vec<u8>, id: u64, tuple: &Tuple) -> Result<(), AllocError>
    requires { FitsIn form tuple.now }
    ensures ok { OnOk result
        (out.new.items ≡ out.old.items ++ kind.TAKEN ∷ (format.placed form).spell (id, tuple.now)) }
    ensures front { take (length out.old.items) out.new.items ≡ out.old.items }
{
    out.push(TAKEN)?;
    out.extend_from_slice(&id.to_be_bytes())?;
    tuple.push(form, out)
}

// Appends the kind of a reply that has no body; likewise.
fn push_kind(out: &mut Vec<u8>, byte: u8) -> Result<(), AllocError>
    ensures ok { OnOk result (out.new.items ≡ out.old.items ++ byte ∷ []) }
    ensures front { take (length out.old.items) out.new.items ≡ out.old.items }
{
    out.push(byte)?;
    Ok(())
}

impl KeptReply {
    /// Whether the reply has a spelling in the form: the tuple that it gives has one, if it gives
    /// one, and that to a Leave has one if the form has them. In the second form each reply has
    /// one.
    pub fn fits(&self, form: Form) -> bool
        ensures exact { IsTrue result ↔ format.FitsReply form self.now }
        ensures second { format.FitsReply Two self.now }
    {
        // The ids are read because their ranges are known then, and the fields because the tuple is
        // known to keep its limits then.
        match self {
            KeptReply::Stored(id) => {
                let _id = *id;
                true
            }
            KeptReply::Taken(id, tuple) => {
                let (_id, _fields) = (*id, tuple.fields());
                fits(form, tuple)
            }
            KeptReply::Gone => true,
            KeptReply::Left => has_leaves(form),
        }
    }
}
