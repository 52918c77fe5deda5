//! A time in seconds.

ghost use Rattle.std.specs.Prelude.{◌≡◌, ◌++◌, ◌/◌, ◌%◌, IfOk};
ghost use Rattle.std.specs.String.{string_bytes};
ghost use Rattle.linda_status.specs.Status.{digits, seconds};

use std::alloc::AllocError;

/// How many microseconds a second has.
const MICROS: u64 = 1_000_000;

/// Writes so many microseconds in seconds after what is there: a point, and six digits after it.
pub(crate) fn push_seconds(page: &mut String, micros: u64) -> Result<(), AllocError>
    ensures { IfOk result (λ _. string_bytes page.new
        ≡ string_bytes page.old ++ seconds micros) }
{
    let whole = micros / MICROS;
    let rest = micros % MICROS;
    write!(page, "{whole}.")?;
    push_digits(page, rest / 1_000)?;
    push_digits(page, rest % 1_000)
}

// Writes the last three digits of a number.
fn push_digits(page: &mut String, number: u64) -> Result<(), AllocError>
    ensures { IfOk result (λ _. string_bytes page.new
        ≡ string_bytes page.old ++ digits number) }
{
    let first = number / 100 % 10;
    let second = number / 10 % 10;
    let third = number % 10;
    write!(page, "{first}{second}{third}")
}
