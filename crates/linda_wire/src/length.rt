//! The length that is before a frame's kind and body.

ghost use Rattle.std.specs.Prelude.{◌≡◌, ◌≢◌, ◌≤◌, length, IfOk, IfSome, Err};
ghost use Rattle.linda_codec.specs.Lawful.{IsBytes};
ghost use Rattle.linda_wire.specs.declared.limits.TheConstants.{LENGTH_BYTES};
ghost use Rattle.linda_wire.specs.Frames.{told_length};
ghost use Rattle.linda_wire.specs.Stream.{payload_len, HasFrame};

use crate::fault::FrameFault;
use crate::limits::{LENGTH_BYTES, MAX_PAYLOAD};

/// How many bytes the first frame has after its length: `None` while some of them are to come.
#[tactic(auto, unfolding(crate::specs::Stream::payload_len))]
pub(crate) fn len_of_payload(bytes: &[u8]) -> Result<Option<usize>, FrameFault>
    ensures value { result ≡ payload_len bytes.now }
    ensures within { IfOk result (λ told.
        IfSome told (λ len. (len ≡ told_length bytes.now) × HasFrame bytes.now)) }
    ensures always { result ≢ Err FrameFault.Memory }
    ensures bytes { IsBytes bytes.now }
{
    if bytes.len() < LENGTH_BYTES {
        return Ok(None);
    }
    let told = length_told(bytes);
    let len = told as usize;
    if len == 0 {
        return Err(FrameFault::EmptyFrame);
    }
    if len > MAX_PAYLOAD {
        return Err(FrameFault::FrameTooLong(told));
    }
    if bytes.len() < LENGTH_BYTES + len {
        return Ok(None);
    }
    Ok(Some(len))
}

// The number that the first four bytes are.
#[tactic(auto, unfolding(crate::specs::Frames::told_length))]
fn length_told(bytes: &[u8]) -> u32
    requires { LENGTH_BYTES ≤ length bytes.now }
    ensures { result ≡ told_length bytes.now }
{
    u32::from_be_bytes([bytes[0], bytes[1], bytes[2], bytes[3]])
}
