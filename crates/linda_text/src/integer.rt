//! Integers in decimal: a number without a sign, or a minus before digits that do not begin with 0.

ghost use Rattle.linda_text.specs.Reading.{integer_at};
ghost use Rattle.linda_text.specs.Steps.{GivesAlways};

use crate::fault::TextFault;
use crate::marks::MINUS;
use crate::number::{split_number, split_positive};

/// The integer at the front, and the bytes after it.
#[tactic(auto, unfolding(crate::specs::Reading::integer_at, crate::specs::Reading::integer_of))]
pub(crate) fn read_integer(bytes: &[u8]) -> Result<(i64, &[u8]), TextFault>
    ensures { GivesAlways (λ x. (x.0, x.1.now)) result (integer_at bytes.now) }
{
    match bytes {
        [] => Err(TextFault::SyntaxAt(0)),
        [MINUS, digits @ ..] => {
            let (number, rest) = split_positive(digits)?;
            match 0_i64.checked_sub_unsigned(number) {
                Some(integer) => Ok((integer, rest)),
                None => Err(TextFault::NumberRange),
            }
        }
        [_, ..] => {
            let (number, rest) = split_number(bytes)?;
            match 0_i64.checked_add_unsigned(number) {
                Some(integer) => Ok((integer, rest)),
                None => Err(TextFault::NumberRange),
            }
        }
    }
}
