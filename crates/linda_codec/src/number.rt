//! Readers of numbers and of truth values, each of which gives the value and the bytes after it.

ghost use Rattle.linda_codec.specs.Steps.{GivesAlways};
ghost use Rattle.linda_codec.specs.Formats as format;

use crate::fault::ReadFault;

/// Reads a byte.
///
/// # Errors
///
/// `Short` if there is none.
pub fn read_u8(bytes: &[u8]) -> Result<(u8, &[u8]), ReadFault>
    ensures { GivesAlways (λ x. (x.0, x.1.now)) result (format.byte.read bytes.now) }
{
    match bytes {
        [] => Err(ReadFault::Short),
        [byte, rest @ ..] => Ok((*byte, rest)),
    }
}

/// Reads a text's length: a number of two bytes that is not above the limit.
///
/// # Errors
///
/// `Short` if there are fewer, `LongText` if it is above.
pub(crate) fn read_length(limit: usize, bytes: &[u8]) -> Result<(usize, &[u8]), ReadFault>
    ensures { GivesAlways (λ x. (x.0, x.1.now)) result
        ((format.short_length limit).read bytes.now) }
{
    if bytes.len() < 2 {
        return Err(ReadFault::Short);
    }
    let (front, rest) = bytes.split_at(2);
    let len = usize::from(u16::from_be_bytes([front[0], front[1]]));
    if len > limit {
        return Err(ReadFault::LongText(bytes.len()));
    }
    Ok((len, rest))
}

/// Reads a number of four bytes.
///
/// # Errors
///
/// `Short` if there are fewer.
pub fn read_u32(bytes: &[u8]) -> Result<(u32, &[u8]), ReadFault>
    ensures { GivesAlways (λ x. (x.0, x.1.now)) result (format.short_number.read bytes.now) }
{
    if bytes.len() < 4 {
        return Err(ReadFault::Short);
    }
    let (front, rest) = bytes.split_at(4);
    let number = u32::from_be_bytes([front[0], front[1], front[2], front[3]]);
    Ok((number, rest))
}

/// Reads a number of eight bytes.
///
/// # Errors
///
/// `Short` if there are fewer.
pub fn read_u64(bytes: &[u8]) -> Result<(u64, &[u8]), ReadFault>
    ensures { GivesAlways (λ x. (x.0, x.1.now)) result (format.number.read bytes.now) }
{
    if bytes.len() < 8 {
        return Err(ReadFault::Short);
    }
    let (front, rest) = bytes.split_at(8);
    let number = u64::from_be_bytes([
        front[0], front[1], front[2], front[3], front[4], front[5], front[6], front[7],
    ]);
    Ok((number, rest))
}

/// Reads a byte that is `00` (false) or `01` (true).
///
/// # Errors
///
/// `Short` if there is none, `BadBool` if it is another one.
#[tactic(auto, unfolding(crate::specs::Formats::truth_at))]
pub fn read_bool(bytes: &[u8]) -> Result<(bool, &[u8]), ReadFault>
    ensures { GivesAlways (λ x. (x.0, x.1.now)) result (format.truth.read bytes.now) }
{
    match bytes {
        [] => Err(ReadFault::Short),
        [0, rest @ ..] => Ok((false, rest)),
        [1, rest @ ..] => Ok((true, rest)),
        [_, ..] => Err(ReadFault::BadBool(bytes.len())),
    }
}

/// Reads eight bytes of two's complement.
pub(crate) fn read_i64(bytes: &[u8]) -> Result<(i64, &[u8]), ReadFault>
    ensures { GivesAlways (λ x. (x.0, x.1.now)) result (format.integer.read bytes.now) }
{
    let (number, rest) = read_u64(bytes)?;
    Ok((number.cast_signed(), rest))
}
