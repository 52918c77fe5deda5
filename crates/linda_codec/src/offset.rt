//! Readers of atoms, tuples and templates at an offset, which give the value and the offset of the
//! byte after it.

ghost use Rattle.std.specs.Prelude.{◌≡◌, drop};
ghost use Rattle.linda_codec.specs.Places.{placed, IsReadAt};
ghost use Rattle.linda_codec.specs.Lawful.{IsFormat};
ghost use Rattle.linda_codec.specs.Values as values;

use crate::fault::ReadFault;
use crate::spelled::Spelled;
use linda_tuple::{Atom, Form, Template, Tuple};
use std::alloc::Global;

/// The atom whose spelling begins at the offset, and the offset of the byte after it. Past the end
/// there are no bytes.
///
/// # Errors
///
/// The first fault from the left, given by its offset; `Memory` if a text finds none.
pub fn get_atom(
    alloc: Global,
    form: Form,
    bytes: &[u8],
    at: usize,
) -> Result<(Atom, usize), ReadFault>
    ensures { IsReadAt (values.atom form) bytes.now at result }
{
    get(alloc, form, bytes, at)
}

/// The tuple whose spelling begins at the offset, and the offset of the byte after it. Past the end
/// there are no bytes.
///
/// # Errors
///
/// The first fault from the left, given by its offset; `Memory` if the values find none.
pub fn get_tuple(
    alloc: Global,
    form: Form,
    bytes: &[u8],
    at: usize,
) -> Result<(Tuple, usize), ReadFault>
    ensures { IsReadAt (values.tuple form) bytes.now at result }
{
    get(alloc, form, bytes, at)
}

/// The template whose spelling begins at the offset, and the offset of the byte after it. Past the
/// end there are no bytes.
///
/// # Errors
///
/// The first fault from the left, given by its offset; `Memory` if the values find none.
pub fn get_template(
    alloc: Global,
    form: Form,
    bytes: &[u8],
    at: usize,
) -> Result<(Template, usize), ReadFault>
    ensures { IsReadAt (values.template form) bytes.now at result }
{
    get(alloc, form, bytes, at)
}

// The value whose spelling begins at the offset, and the offset of the byte after it.
fn get<V: Spelled>(
    alloc: Global,
    form: Form,
    bytes: &[u8],
    at: usize,
) -> Result<(V, usize), ReadFault>
    requires { IsFormat (V.format form) }
    ensures { IsReadAt (V.format form) bytes.now at result }
{
    match V::read(alloc, form, tail(bytes, at)) {
        Ok((value, rest)) => Ok((value, bytes.len() - rest.len())),
        Err(fault) => Err(fault.placed(bytes.len())),
    }
}

// The bytes from the offset on; past the end there are none.
fn tail(bytes: &[u8], at: usize) -> &[u8]
    ensures { result.now ≡ drop at bytes.now }
{
    if at > bytes.len() {
        return &[];
    }
    bytes.split_at(at).1
}

impl ReadFault {
    // The fault given by its offset, if it counts the bytes left of so many.
    fn placed(self, len: usize) -> ReadFault
        ensures value { result ≡ placed len self }
        ensures memory { result ≡ ReadFault.Memory → self ≡ ReadFault.Memory }
    {
        match self {
            ReadFault::Memory => ReadFault::Memory,
            ReadFault::Short => ReadFault::Short,
            ReadFault::BadKind(left) => ReadFault::BadKind(len.saturating_sub(left)),
            ReadFault::BadBool(left) => ReadFault::BadBool(len.saturating_sub(left)),
            ReadFault::BadText(left) => ReadFault::BadText(len.saturating_sub(left)),
            ReadFault::TooMany(left) => ReadFault::TooMany(len.saturating_sub(left)),
            ReadFault::LongText(left) => ReadFault::LongText(len.saturating_sub(left)),
        }
    }
}
