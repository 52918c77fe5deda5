//! Words and marks that are written as they are.

ghost use Rattle.linda_text.specs.Reading.{word_at};
ghost use Rattle.linda_text.specs.Steps.{GivesAlways};

use crate::fault::TextFault;

/// The bytes after the word at the front.
///
/// # Errors
///
/// `SyntaxAt` with the count of bytes left from the first wrong one on, or 0 if the bytes end too
/// early.
#[tactic(auto, unfolding(crate::specs::Reading::word_at))]
pub fn skip_word<'a>(bytes: &'a [u8], word: &[u8]) -> Result<&'a [u8], TextFault>
    ensures { GivesAlways (λ rest. rest.now) result (word_at word.now bytes.now) }
{
    let mut rest = bytes;
    let mut letters = word;
    while let [letter, others @ ..] = letters {
        match rest {
            [] => return Err(TextFault::SyntaxAt(0)),
            [first, after @ ..] => {
                if *first != *letter {
                    return Err(TextFault::SyntaxAt(rest.len()));
                }
                rest = after;
            }
        }
        letters = others;
    }
    Ok(rest)
}
