//! Numbers without a sign, in decimal: `0`, or digits that do not begin with 0.

ghost use Rattle.std.specs.Prelude.{◌≡◌, ◌≤◌, length, IfOk};
ghost use Rattle.std.specs.Str.{IsUtf8};
ghost use Rattle.std.specs.Str.Parse.{IsNumeral, without_leading_plus};
ghost use Rattle.linda_text.specs.Reading.{digit_count, positive_len, number_of};
ghost use Rattle.linda_text.specs.Reading.{positive_at, natural_at};
ghost use Rattle.linda_text.specs.Steps.{GivesAlways};

use crate::fault::TextFault;
use crate::marks::ZERO;

/// The number without a sign at the front, and the bytes after it.
///
/// # Errors
///
/// `SyntaxAt` with the count of bytes left if no digit is at the front; `NumberRange` if the number
/// needs more than 64 bits.
#[tactic(auto, unfolding(crate::specs::Reading::natural_at))]
pub fn split_number(bytes: &[u8]) -> Result<(u64, &[u8]), TextFault>
    ensures { GivesAlways (λ x. (x.0, x.1.now)) result (natural_at bytes.now) }
{
    match bytes {
        [] => Err(TextFault::SyntaxAt(0)),
        [ZERO, rest @ ..] => Ok((0, rest)),
        [_, ..] => split_positive(bytes),
    }
}

/// The number at the front whose digits do not begin with 0, and the bytes after it.
#[tactic(auto, unfolding(crate::specs::Reading::positive_at))]
pub(crate) fn split_positive(bytes: &[u8]) -> Result<(u64, &[u8]), TextFault>
    ensures { GivesAlways (λ x. (x.0, x.1.now)) result (positive_at bytes.now) }
{
    let len = positive_len(bytes)?;
    let (digits, rest) = bytes.split_at(len);
    let number = number_of(digits)?;
    Ok((number, rest))
}

// The length of the digits at the front, of which the first is not 0.
#[tactic(auto, unfolding(crate::specs::Reading::positive_len))]
fn positive_len(bytes: &[u8]) -> Result<usize, TextFault>
    ensures value { GivesAlways (λ n. n) result (positive_len bytes.now) }
    ensures within { IfOk result (λ n. n ≤ length bytes.now) }
{
    match bytes {
        [] => Err(TextFault::SyntaxAt(0)),
        [first, rest @ ..] => {
            if first.is_ascii_digit() && *first != ZERO {
                Ok(digit_count(rest) + 1)
            } else {
                Err(TextFault::SyntaxAt(bytes.len()))
            }
        }
    }
}

// How many digits are at the front.
#[tactic(auto, unfolding(crate::specs::Reading::digit_count))]
fn digit_count(bytes: &[u8]) -> usize
    ensures value { result ≡ digit_count bytes.now }
    ensures within { result ≤ length bytes.now }
{
    let mut count = 0;
    let mut rest = bytes;
    while let [first, after @ ..] = rest {
        if !first.is_ascii_digit() {
            return count;
        }
        count += 1;
        rest = after;
    }
    count
}

// The number that digits write.
#[tactic(auto, unfolding(crate::specs::Reading::number_of))]
fn number_of(digits: &[u8]) -> Result<u64, TextFault>
    requires digits { IsNumeral 10 (without_leading_plus digits.now) }
    requires text { IsUtf8 digits.now }
    ensures { GivesAlways (λ n. n) result (number_of digits.now) }
{
    let Ok(text) = std::str::from_utf8(digits) else {
        return Err(TextFault::NumberRange);
    };
    match text.parse::<u64>() {
        Ok(number) => Ok(number),
        Err(_) => Err(TextFault::NumberRange),
    }
}
