//! Ways to crash and bytes at the front of a text.

use linda_disk::Torn;
use linda_test_script::{WordsFault, split_word};

/// The way to crash that begins the text, as `kept`, `lost` or `filled ff`, and what is after it.
pub(crate) fn split_torn(text: &str) -> Result<(Torn, &str), WordsFault> {
    let (word, rest) = split_word(text);
    match word {
        "kept" => Ok((Torn::Kept, rest)),
        "lost" => Ok((Torn::Lost, rest)),
        "filled" => split_filled(rest),
        _ => Err(WordsFault::Unknown),
    }
}

// The byte that each byte becomes, and what is after it.
fn split_filled(text: &str) -> Result<(Torn, &str), WordsFault> {
    let (digits, rest) = split_word(text);
    match read_byte(digits) {
        Ok(byte) => Ok((Torn::Filled(byte), rest)),
        Err(fault) => Err(fault),
    }
}

/// The byte of these two hexadecimal digits.
pub(crate) fn read_byte(digits: &str) -> Result<u8, WordsFault> {
    match u8::from_str_radix(digits, 16) {
        Ok(byte) => Ok(byte),
        Err(_) => Err(WordsFault::Unknown),
    }
}
