//! Payloads: a kind byte and a body, which is to be all of what is between a frame's length and its
//! end.

ghost use Rattle.std.specs.Prelude.{◌≡◌, ◌≤◌, length, IsOk, IsErrOf};
ghost use Rattle.linda_wire.specs.declared.limits.TheConstants.{MAX_PAYLOAD};
ghost use Rattle.linda_wire.specs.Stream.{malformed_with, frame_fault, with_no_rest, whole_of};
ghost use Rattle.linda_wire.specs.Stream.{GivesWhole, Judges};

use crate::fault::FrameFault;
use crate::framed::FramePayload;
use crate::limits::LENGTH_BYTES;
use linda_codec::ReadFault;
use std::alloc::Global;

/// The value that a payload spells, all of it. `Memory` is returned last: only of a payload that
/// spells one.
pub(crate) fn read_whole<T: FramePayload>(alloc: Global, payload: &[u8]) -> Result<T, FrameFault>
    requires { length payload.now ≤ MAX_PAYLOAD }
    ensures value { GivesWhole result (whole_of T.format payload.now) }
    ensures memory { IsErrOf result FrameFault.Memory → IsOk (whole_of T.format payload.now) }
{
    match T::read(alloc, payload) {
        Ok((value, rest)) => {
            ended(payload.len(), rest)?;
            Ok(value)
        }
        Err(fault) => {
            if fault == ReadFault::Memory {
                judge::<T>(payload)?;
            }
            Err(fault_of_frame(payload.len(), fault))
        }
    }
}

// Whether a payload spells a value, all of it, and which fault it has if not; takes no memory.
fn judge<T: FramePayload>(payload: &[u8]) -> Result<(), FrameFault>
    requires { length payload.now ≤ MAX_PAYLOAD }
    ensures { Judges result (whole_of T.format payload.now) }
{
    match T::skip(payload) {
        Ok(rest) => ended(payload.len(), rest),
        Err(fault) => Err(fault_of_frame(payload.len(), fault)),
    }
}

// A payload of so many bytes ends after its value.
fn ended(len: usize, rest: &[u8]) -> Result<(), FrameFault>
    requires { len ≤ MAX_PAYLOAD }
    ensures { result ≡ with_no_rest len tt rest.now }
{
    if !rest.is_empty() {
        return Err(malformed(len, rest.len()));
    }
    Ok(())
}

// A fault of a value, in a payload of so many bytes, as a fault of the frame.
fn fault_of_frame(len: usize, fault: ReadFault) -> FrameFault
    requires { len ≤ MAX_PAYLOAD }
    ensures value { result ≡ frame_fault len fault }
    ensures memory { result ≡ FrameFault.Memory → fault ≡ ReadFault.Memory }
{
    match fault {
        ReadFault::Memory => FrameFault::Memory,
        ReadFault::Short => malformed(len, 0),
        ReadFault::BadKind(left) => malformed(len, left),
        ReadFault::BadBool(left) => malformed(len, left),
        ReadFault::BadText(left) => malformed(len, left),
        ReadFault::TooMany(left) => malformed(len, left),
        ReadFault::LongText(left) => malformed(len, left),
    }
}

// The fault at the byte from which so many bytes of the payload are left.
fn malformed(len: usize, left: usize) -> FrameFault
    requires { len ≤ MAX_PAYLOAD }
    ensures { result ≡ malformed_with len left }
{
    let place = (LENGTH_BYTES + len).saturating_sub(left);
    FrameFault::Malformed(place as u32)
}
