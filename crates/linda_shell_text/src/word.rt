//! Words and numbers at the front of a line, and the blanks after them.

ghost use Rattle.linda_text.specs.Steps.{GivesAlways};
ghost use Rattle.linda_shell_text.specs.Words.{behind_word_at, front_number_at, Finds};

use crate::token::end_word;
use linda_text::{TextFault, skip_blanks, skip_word, split_number};

/// The number at the front of the text, which no letter or digit follows, and the bytes after it
/// and after blanks; `None` if there is none, or if it has more than 64 bits.
pub fn number_in(text: &[u8]) -> Option<(u64, &[u8])>
    ensures { Finds (λ x. (x.0, x.1.now)) result (front_number_at text.now) }
{
    match front_number(text) {
        Ok(found) => Some(found),
        Err(_) => None,
    }
}

/// The bytes after the word, which no letter or digit follows, and after blanks; `None` if the text
/// does not begin with it.
pub fn behind_word<'a>(text: &'a [u8], word: &[u8]) -> Option<&'a [u8]>
    ensures { Finds (λ rest. rest.now) result (behind_word_at word.now text.now) }
{
    match skip_spaced_word(text, word) {
        Ok(rest) => Some(rest),
        Err(_) => None,
    }
}

// The number at the front, which no letter or digit follows, and the bytes after it and after
// blanks.
#[tactic(auto, unfolding(crate::specs::Words::front_number_at))]
fn front_number(text: &[u8]) -> Result<(u64, &[u8]), TextFault>
    ensures { GivesAlways (λ x. (x.0, x.1.now)) result (front_number_at text.now) }
{
    let (number, rest) = split_number(text)?;
    Ok((number, skip_blanks(end_word(rest)?)))
}

// The bytes after the word, which no letter or digit follows, and after blanks.
#[tactic(auto, unfolding(crate::specs::Words::behind_word_at))]
fn skip_spaced_word<'a>(text: &'a [u8], word: &[u8]) -> Result<&'a [u8], TextFault>
    ensures { GivesAlways (λ rest. rest.now) result (behind_word_at word.now text.now) }
{
    let rest = end_word(skip_word(text, word)?)?;
    Ok(skip_blanks(rest))
}
