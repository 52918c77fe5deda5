//! Framed values: the parts of a frame, and how a value is written as one.

ghost use Rattle.std.specs.Prelude.{◌≡◌, ◌+◌, ◌≤◌, ◌∷◌, ◌++◌, length, take, drop, OnOk, OnErr};
ghost use Rattle.linda_tuple.specs.Tuple.{FitsIn};
ghost use Rattle.linda_tuple.specs.Template.{FitsTemplateIn};
ghost use Rattle.linda_codec.specs.Steps.{Read, Gives, GivesAlways, left_by};
ghost use Rattle.linda_codec.specs.Formats.{Format, number};
ghost use Rattle.linda_codec.specs.Values as value;
ghost use Rattle.linda_wire.specs.declared.limits.TheConstants.{LENGTH_BYTES, MAX_PAYLOAD};
ghost use Rattle.linda_wire.specs.Frames.{frame, spoken, stored};
ghost use Rattle.linda_wire.specs.Stream.{IsFramed};

use crate::limits::{FORM, LENGTH_BYTES};
use linda_codec::{ReadFault, put_template, put_tuple};
use linda_tuple::{Template, Tuple};
use std::alloc::{AllocError, Global};

/// A value that is in a frame: a kind byte and a body, by a lawful format.
pub trait FramePayload: Drop {
    ghost format: { Format Self };

    /// Reads a value, and gives the bytes after it.
    ///
    /// # Errors
    ///
    /// The first fault from the left, given by the count of bytes left. `Memory` may be returned
    /// before it.
    fn read(alloc: Global, payload: &[u8]) -> Result<(Self, &[u8]), ReadFault>
        ensures { Gives (λ x. (x.0, x.1.now)) result (format.read payload.now) };

    /// The bytes after the value at the front.
    ///
    /// # Errors
    ///
    /// The first fault from the left, given by the count of bytes left; never `Memory`.
    fn skip(payload: &[u8]) -> Result<&[u8], ReadFault>
        ensures { GivesAlways (λ rest. rest.now) result (left_by (format.read payload.now)) };

    /// Appends the kind byte and the body.
    ///
    /// # Errors
    ///
    /// If memory runs out, a part of them may be after the old bytes.
    fn push(&self, out: &mut Vec<u8>) -> Result<(), AllocError>
        ensures ok { OnOk result (out.new.items ≡ out.old.items ++ format.spell self.now) }
        ensures front { take (length out.old.items) out.new.items ≡ out.old.items }
        ensures fits { OnOk result (format.Fits self.now) };

    // The format is lawful, and what it spells is no longer than a frame may be.
    ghost framed: { IsFramed format };
}

/// What is left after the value that was read, whichever it was.
pub(crate) fn rest_of<T: Drop>(read: Result<(T, &[u8]), ReadFault>) -> Result<&[u8], ReadFault>
    ensures { (given : Read T) → GivesAlways (λ x. (x.0, x.1.now)) read.entry given
        → GivesAlways (λ rest. rest.now) result (left_by given) }
{
    match read {
        Ok((_value, rest)) => Ok(rest),
        Err(fault) => Err(fault),
    }
}

/// Appends a kind byte and a number; if memory runs out, a part of them may be after the old bytes.
pub(crate) fn push_numbered(out: &mut Vec<u8>, kind: u8, n: u64) -> Result<(), AllocError>
    ensures ok { OnOk result (out.new.items ≡ out.old.items ++ (kind ∷ number.spell n)) }
    ensures front { take (length out.old.items) out.new.items ≡ out.old.items }
{
    let n = n.to_be_bytes();
    out.extend_from_slice(&[kind, n[0], n[1], n[2], n[3], n[4], n[5], n[6], n[7]])
}

/// Appends a kind byte and two numbers; likewise.
pub(crate) fn push_placed(
    out: &mut Vec<u8>,
    kind: u8,
    number: u64,
    id: u64,
) -> Result<(), AllocError>
    ensures ok { OnOk result (out.new.items
        ≡ out.old.items ++ (kind ∷ stored.spell (number, id))) }
    ensures front { take (length out.old.items) out.new.items ≡ out.old.items }
{
    let n = number.to_be_bytes();
    let id = id.to_be_bytes();
    out.extend_from_slice(&[
        kind, n[0], n[1], n[2], n[3], n[4], n[5], n[6], n[7], id[0], id[1], id[2], id[3], id[4],
        id[5], id[6], id[7],
    ])
}

/// Appends the tuple in the form of frames, in which every tuple has a spelling; if memory runs
/// out, `out` is left as it was.
pub(crate) fn push_tuple(out: &mut Vec<u8>, tuple: &Tuple) -> Result<(), AllocError>
    ensures ok { OnOk result (out.new.items
        ≡ out.old.items ++ (value.tuple spoken).spell tuple.now) }
    ensures err { OnErr result (out.new.items ≡ out.old.items) }
    ensures within { FitsIn spoken tuple.now }
{
    let _fields = tuple.fields();
    put_tuple(FORM, out, tuple)
}

/// Appends the template in the form of frames; likewise.
pub(crate) fn push_template(out: &mut Vec<u8>, template: &Template) -> Result<(), AllocError>
    ensures ok { OnOk result (out.new.items
        ≡ out.old.items ++ (value.template spoken).spell template.now) }
    ensures err { OnErr result (out.new.items ≡ out.old.items) }
    ensures within { FitsTemplateIn spoken template.now }
{
    let _patterns = template.fields();
    put_template(FORM, out, template)
}

/// Appends the value's frame; if memory runs out, `out` is left as it was.
pub(crate) fn encode<T: FramePayload>(out: &mut Vec<u8>, value: &T) -> Result<(), AllocError>
    ensures ok { OnOk result (out.new.items ≡ out.old.items ++ frame (T.format.spell value.now)) }
    ensures err { OnErr result (out.new.items ≡ out.old.items) }
{
    let start = out.len();
    match push_frame(out, value) {
        Ok(()) => Ok(()),
        Err(error) => {
            out.truncate(start);
            Err(error)
        }
    }
}

// Appends the value's frame; if memory runs out, a part of it may be after the old bytes.
fn push_frame<T: FramePayload>(out: &mut Vec<u8>, value: &T) -> Result<(), AllocError>
    ensures ok { OnOk result (out.new.items ≡ out.old.items ++ frame (T.format.spell value.now)) }
    ensures front { take (length out.old.items) out.new.items ≡ out.old.items }
{
    let start = out.len();
    out.extend_from_slice(&[0; LENGTH_BYTES])?;
    value.push(out)?;
    set_length(out.as_mut_slice(), start);
    Ok(())
}

// Writes the length of the payload that ends the bytes over the bytes before it, at `start`.
fn set_length(bytes: &mut [u8], start: usize)
    requires room { start + LENGTH_BYTES ≤ length bytes.old }
    requires short { length bytes.old ≤ start + LENGTH_BYTES + MAX_PAYLOAD }
    ensures { bytes.new ≡ take start bytes.old ++ frame (drop (start + LENGTH_BYTES) bytes.old) }
{
    let len = (bytes.len() - (start + LENGTH_BYTES)) as u32;
    bytes[start..start + LENGTH_BYTES].copy_from_slice(&len.to_be_bytes());
}
