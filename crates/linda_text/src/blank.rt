//! Blanks: spaces and tabs.

ghost use Rattle.std.specs.Prelude.{◌≡◌};
ghost use Rattle.linda_text.specs.Letters.{is_blank};
ghost use Rattle.linda_text.specs.Reading.{after_blanks};

use crate::marks::{SPACE, TAB};

/// The bytes after the blanks at the front.
#[tactic(auto, unfolding(crate::specs::Reading::after_blanks))]
pub fn skip_blanks(bytes: &[u8]) -> &[u8]
    ensures { result.now ≡ after_blanks bytes.now }
{
    let mut rest = bytes;
    while let [first, after @ ..] = rest {
        if !is_blank(*first) {
            return rest;
        }
        rest = after;
    }
    rest
}

fn is_blank(byte: u8) -> bool
    ensures { result ≡ is_blank byte }
{
    byte == SPACE || byte == TAB
}
