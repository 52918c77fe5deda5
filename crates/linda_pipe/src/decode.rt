//! Lines of hexadecimal digits, as pieces of a stream.

ghost use Rattle.std.specs.Prelude.{◌≡◌, ◌↔◌, IfOk, IsErr, IsOk, IsSome, IsTrue, option_map};
ghost use Rattle.std.specs.List.{AllPass};
ghost use Rattle.hex.specs.Hex.{decode_of, is_hex_digit};
ghost use Rattle.linda_pipe.specs.Hex.{digits_of, piece_of};

use hex::FromHexError;
use std::alloc::{AllocError, Global};

/// What may be at the end of a line, and is no part of it.
pub(crate) const CARRIAGE_RETURN: u8 = b'\r';

/// The bytes that a line says, in digits of either case; a carriage return at its end is passed
/// over. `None` if the line is not hexadecimal, also if memory is short.
pub fn decode_line(alloc: Global, line: &[u8]) -> Result<Option<Vec<u8>>, AllocError>
    ensures piece { IfOk result (λ piece. option_map (λ p. p.items) piece ≡ piece_of line.now) }
    // Memory runs out only if the line is hexadecimal.
    ensures memory { IsErr result → IsSome (piece_of line.now) }
{
    let text = without_return(line);
    match hex::decode(alloc, text) {
        Ok(piece) => Ok(Some(piece)),
        Err(FromHexError::OutOfMemory) => {
            if !is_hexadecimal(text) {
                return Ok(None);
            }
            Err(AllocError)
        }
        Err(_) => Ok(None),
    }
}

// Whether the text is pairs of digits; takes no memory.
fn is_hexadecimal(text: &[u8]) -> bool
    ensures { IsTrue result ↔ IsOk (decode_of text.now) }
{
    text.len() % 2 == 0 && are_digits(text)
}

// Whether the text has only digits.
fn are_digits(text: &[u8]) -> bool
    ensures { IsTrue result ↔ AllPass is_hex_digit text.now }
{
    text.iter().all(|b| is_digit(*b))
}

// Whether the byte is a digit, of either case.
fn is_digit(byte: u8) -> bool
    ensures { result ≡ is_hex_digit byte }
{
    byte.is_ascii_hexdigit()
}

/// The line without the carriage return at its end, if there is one.
pub fn without_return(line: &[u8]) -> &[u8]
    ensures { result.now ≡ digits_of line.now }
{
    match line {
        [] => line,
        [front @ .., last] => {
            if *last == CARRIAGE_RETURN {
                front
            } else {
                line
            }
        }
    }
}
