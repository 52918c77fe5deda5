//! Values one after the other: read, passed over, written and counted in the same way for all
//! types.

ghost use Rattle.std.specs.Prelude.{◌≡◌, ◌≤◌, ◌<◌, ◌*◌, ◌^◌, ◌++◌, All, length, take, OnOk};
ghost use Rattle.std.specs.List.{flat_map};
ghost use Rattle.linda_codec.specs.Steps.{Gives, GivesAlways, left_by, many_at};

use crate::fault::ReadFault;
use crate::spelled::Spelled;
use linda_tuple::Form;
use std::alloc::{AllocError, Global};

/// So many values, and the bytes after them.
///
/// # Errors
///
/// The first fault from the left, given by the count of bytes left. `Memory` may be returned before
/// a fault that is after it.
pub fn read_list<V: Spelled>(
    alloc: Global,
    form: Form,
    count: usize,
    bytes: &[u8],
) -> Result<(Vec<V>, &[u8]), ReadFault>
    ensures { Gives (λ x. (x.0.items, x.1.now)) result
        (many_at (V.format form).read count bytes.now) }
{
    let mut values = Vec::with_capacity(alloc, count)?;
    let mut rest = bytes;
    for _ in 0..count {
        let (value, after) = V::read(alloc, form, rest)?;
        values.push(value)?;
        rest = after;
    }
    Ok((values, rest))
}

/// The bytes after so many values.
///
/// # Errors
///
/// The first fault from the left, given by the count of bytes left; never `Memory`.
pub fn skip_list<V: Spelled>(form: Form, count: usize, bytes: &[u8]) -> Result<&[u8], ReadFault>
    ensures { GivesAlways (λ rest. rest.now) result
        (left_by (many_at (V.format form).read count bytes.now)) }
{
    let mut rest = bytes;
    for _ in 0..count {
        rest = V::skip(form, rest)?;
    }
    Ok(rest)
}

/// Appends the spellings of the values.
///
/// # Errors
///
/// If memory runs out, a part of the spellings may be after the old bytes.
pub fn push_list<V: Spelled>(form: Form, out: &mut Vec<u8>, values: &[V]) -> Result<(), AllocError>
    requires { All (V.format form).Fits values.now }
    ensures ok { OnOk result (out.new.items
        ≡ out.old.items ++ flat_map (V.format form).spell values.now) }
    ensures front { take (length out.old.items) out.new.items ≡ out.old.items }
{
    for value in values {
        value.push(form, out)?;
    }
    Ok(())
}

/// How many bytes the values spell.
pub fn list_len<V: Spelled>(form: Form, values: &[V]) -> usize
    requires within { All V.Within values.now }
    requires few { V.longest * length values.now < 2 ^ 64 }
    ensures exact { result ≡ length (flat_map (V.format form).spell values.now) }
    ensures short { result ≤ V.longest * length values.now }
{
    let mut len = 0;
    for value in values {
        len += value.len(form);
    }
    len
}
