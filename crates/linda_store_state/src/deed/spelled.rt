//! A deed as bytes: a kind byte, the client, the number, and a tuple in a form, or its id, or
//! nothing more.

ghost use Rattle.std.specs.Prelude.{◌≡◌, ◌∷◌, ◌++◌, ◌↔◌, length, take, IsOk, IsErrOf, IsTrue, OnOk};
ghost use Rattle.linda_codec.specs.Steps.{Gives, GivesAlways, left_by};
ghost use Rattle.linda_codec.specs.Formats.{choice_at, made_at, no_kind, short_number, number};
ghost use Rattle.linda_store_state.specs.declared.deed.Deed.TheVariants.{Out, Take, Pass};
ghost use Rattle.linda_store_state.specs.DeedFormat as format;

use crate::deed::Deed;
use crate::kinds::{LEAVE, OUT, PASS, TAKE};
use crate::limits::{HEAD_BYTES, ID_BYTES};
use linda_book::has_leaves;
use linda_codec::{ReadFault, Spelled, read_u32, read_u64};
use linda_tuple::{Form, Tuple, fits};
use std::alloc::{AllocError, Global};

impl Spelled for Deed {
    ghost use Rattle.linda_store_state.specs.declared.limits.TheConstants.{MAX_DEED_BYTES};
    ghost use Rattle.linda_store_state.specs.DeedFormat.{deed};

    ghost format = { deed };

    ghost Within = { λ d. Unit {0} };

    ghost longest = { MAX_DEED_BYTES };

    fn read(alloc: Global, form: Form, bytes: &[u8]) -> Result<(Deed, &[u8]), ReadFault> {
        match bytes {
            [] => Err(ReadFault::Short),
            [OUT, body @ ..] => out_from(alloc, form, body),
            [TAKE, body @ ..] => take_from(body),
            [PASS, body @ ..] => pass_from(body),
            [kind, body @ ..] => other_from(form, *kind, body),
        }
    }

    fn skip(form: Form, bytes: &[u8]) -> Result<&[u8], ReadFault> {
        match bytes {
            [] => Err(ReadFault::Short),
            [OUT, body @ ..] => skip_out(form, body),
            [TAKE, body @ ..] => skip_take(body),
            [PASS, body @ ..] => skip_pass(body),
            [kind, body @ ..] => skip_other(form, *kind, body),
        }
    }

    fn push(&self, form: Form, out: &mut Vec<u8>) -> Result<(), AllocError> {
        match self {
            Deed::Out { client, n, tuple } => {
                push_head(out, OUT, *client, *n)?;
                tuple.push(form, out)
            }
            Deed::Take { client, n, id } => push_reference(out, TAKE, *client, *n, *id),
            Deed::Pass { client, n, id } => push_reference(out, PASS, *client, *n, *id),
            Deed::Leave { client, n } => push_head(out, LEAVE, *client, *n),
        }
    }

    fn len(&self, form: Form) -> usize {
        match self {
            Deed::Out { tuple, .. } => HEAD_BYTES + tuple.len(form),
            Deed::Take { .. } => HEAD_BYTES + ID_BYTES,
            Deed::Pass { .. } => HEAD_BYTES + ID_BYTES,
            Deed::Leave { .. } => HEAD_BYTES,
        }
    }
}

fn out_from(alloc: Global, form: Form, body: &[u8]) -> Result<(Deed, &[u8]), ReadFault>
    ensures value { Gives (λ x. (x.0, x.1.now)) result
        (made_at (λ p. Out p.0 p.1.0 p.1.1) (format.out form) body.now) }
    ensures memory { IsErrOf result ReadFault.Memory
        → IsOk (made_at (λ p. Out p.0 p.1.0 p.1.1) (format.out form) body.now) }
{
    let (client, rest) = read_u32(body)?;
    let (n, rest) = read_u64(rest)?;
    let (tuple, rest) = Tuple::read(alloc, form, rest)?;
    Ok((Deed::Out { client, n, tuple }, rest))
}

fn skip_out(form: Form, body: &[u8]) -> Result<&[u8], ReadFault>
    ensures { GivesAlways (λ rest. rest.now) result
        (left_by (made_at (λ p. Out p.0 p.1.0 p.1.1) (format.out form) body.now)) }
{
    let (_client, rest) = read_u32(body)?;
    let (_n, rest) = read_u64(rest)?;
    Tuple::skip(form, rest)
}

fn take_from(body: &[u8]) -> Result<(Deed, &[u8]), ReadFault>
    ensures { GivesAlways (λ x. (x.0, x.1.now)) result
        (made_at (λ p. Take p.0 p.1.0 p.1.1) format.reference body.now) }
{
    let (client, rest) = read_u32(body)?;
    let (n, rest) = read_u64(rest)?;
    let (id, rest) = read_u64(rest)?;
    Ok((Deed::Take { client, n, id }, rest))
}

fn pass_from(body: &[u8]) -> Result<(Deed, &[u8]), ReadFault>
    ensures { GivesAlways (λ x. (x.0, x.1.now)) result
        (made_at (λ p. Pass p.0 p.1.0 p.1.1) format.reference body.now) }
{
    let (client, rest) = read_u32(body)?;
    let (n, rest) = read_u64(rest)?;
    let (id, rest) = read_u64(rest)?;
    Ok((Deed::Pass { client, n, id }, rest))
}

// Passes over the body of a Take.
fn skip_take(body: &[u8]) -> Result<&[u8], ReadFault>
    ensures { GivesAlways (λ rest. rest.now) result
        (left_by (made_at (λ p. Take p.0 p.1.0 p.1.1) format.reference body.now)) }
{
    let (_deed, rest) = take_from(body)?;
    Ok(rest)
}

// Passes over the body of a Pass.
fn skip_pass(body: &[u8]) -> Result<&[u8], ReadFault>
    ensures { GivesAlways (λ rest. rest.now) result
        (left_by (made_at (λ p. Pass p.0 p.1.0 p.1.1) format.reference body.now)) }
{
    let (_deed, rest) = pass_from(body)?;
    Ok(rest)
}

// Passes over what `other_from` reads.
fn skip_other(form: Form, kind: u8, body: &[u8]) -> Result<&[u8], ReadFault>
    ensures { GivesAlways (λ rest. rest.now) result
        (left_by (choice_at (format.leave_kinds form) no_kind (kind ∷ body.now))) }
{
    let (_deed, rest) = other_from(form, kind, body)?;
    Ok(rest)
}

// What is after a kind byte that not every form has: a Leave, if the form has them.
fn other_from(form: Form, kind: u8, body: &[u8]) -> Result<(Deed, &[u8]), ReadFault>
    ensures { GivesAlways (λ x. (x.0, x.1.now)) result
        (choice_at (format.leave_kinds form) no_kind (kind ∷ body.now)) }
{
    match form {
        Form::One => Err(ReadFault::BadKind(1 + body.len())),
        Form::Two => {
            if kind == LEAVE {
                leave_from(body)
            } else {
                Err(ReadFault::BadKind(1 + body.len()))
            }
        }
    }
}

fn leave_from(body: &[u8]) -> Result<(Deed, &[u8]), ReadFault>
    ensures { GivesAlways (λ x. (x.0, x.1.now)) result
        (made_at format.leave_of format.leave body.now) }
{
    let (client, rest) = read_u32(body)?;
    let (n, rest) = read_u64(rest)?;
    Ok((Deed::Leave { client, n }, rest))
}

// Appends a kind byte, the client, the number and the id of a tuple; if memory runs out, a part of
// them may be after the old bytes.
fn push_reference(
    out: &mut Vec<u8>,
    kind: u8,
    client: u32,
    n: u64,
    id: u64,
) -> Result<(), AllocError>
    ensures ok { OnOk result (out.new.items
        ≡ out.old.items ++ kind ∷ format.reference.spell (client, (n, id))) }
    ensures front { take (length out.old.items) out.new.items ≡ out.old.items }
{
    push_head(out, kind, client, n)?;
    out.extend_from_slice(&id.to_be_bytes())
}

// Appends a kind byte, the client and the number; likewise.
fn push_head(out: &mut Vec<u8>, kind: u8, client: u32, n: u64) -> Result<(), AllocError>
    ensures ok { OnOk result (out.new.items
        ≡ out.old.items ++ kind ∷ (short_number.spell client ++ number.spell n)) }
    ensures front { take (length out.old.items) out.new.items ≡ out.old.items }
{
    let [a, b, c, d] = client.to_be_bytes();
    let [s, t, u, v, w, x, y, z] = n.to_be_bytes();
    out.extend_from_slice(&[kind, a, b, c, d, s, t, u, v, w, x, y, z])
}

impl Deed {
    /// Whether the deed has a spelling in the form: the tuple that it puts has one, if it puts one,
    /// and a Leave has one if the form has them. Takes no memory.
    pub fn fits(&self, form: Form) -> bool
        ensures exact { IsTrue result ↔ format.SuitsForm form self.now }
        // The numbers of a deed in memory have their widths.
        ensures spelled { IsTrue result → format.FitsDeed form self.now }
    {
        // The numbers are read because their ranges are known then.
        match self {
            Deed::Out { client, n, tuple } => {
                let (_client, _n) = (*client, *n);
                fits(form, tuple)
            }
            Deed::Take { client, n, id } => {
                let (_client, _n, _id) = (*client, *n, *id);
                true
            }
            Deed::Pass { client, n, id } => {
                let (_client, _n, _id) = (*client, *n, *id);
                true
            }
            Deed::Leave { client, n } => {
                let (_client, _n) = (*client, *n);
                has_leaves(form)
            }
        }
    }
}
