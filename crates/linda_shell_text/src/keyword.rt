//! The keywords of events, one for each kind of node.

ghost use Rattle.std.specs.Prelude.{◌≡◌};
ghost use Rattle.linda_text.specs.Steps.{GivesAlways};
ghost use Rattle.linda_shell_text.specs.Words.{keyword_text, is_always, is_nack, a_word, n_word};
ghost use Rattle.linda_shell_text.specs.Words.{candidate, keyword_at};

use crate::marks::{
    A_LETTER, ALWAYS_LETTER, CHOOSE_LETTER, IN_LETTER, N_LETTER, NACK_LETTER, RD_LETTER,
    WRAP_LETTER,
};
use crate::token::end_word;
use linda_text::{TextFault, skip_word};

/// What an event begins with.
#[derive(Clone, Copy, PartialEq, Eq)]
pub(crate) enum Keyword {
    In,
    Rd,
    Alarm,
    Always,
    Never,
    Choose,
    Wrap,
    Nack,
}

impl Keyword {
    /// The keyword as it is written.
    pub(crate) fn text(self) -> &'static str
        ensures { result.now ≡ keyword_text self }
    {
        match self {
            Keyword::In => "in",
            Keyword::Rd => "rd",
            Keyword::Alarm => "alarm",
            Keyword::Always => "always",
            Keyword::Never => "never",
            Keyword::Choose => "choose",
            Keyword::Wrap => "wrap",
            Keyword::Nack => "nack",
        }
    }
}

/// The keyword at the front, which no letter or digit follows, and the bytes after it.
#[tactic(auto, unfolding(crate::specs::Words::keyword_at))]
pub(crate) fn read_keyword(bytes: &[u8]) -> Result<(Keyword, &[u8]), TextFault>
    ensures { GivesAlways (λ x. (x.0, x.1.now)) result (keyword_at bytes.now) }
{
    match candidate(bytes) {
        None => Err(TextFault::SyntaxAt(bytes.len())),
        Some(keyword) => {
            let rest = skip_word(bytes, keyword.text().as_bytes())?;
            Ok((keyword, end_word(rest)?))
        }
    }
}

// Which keyword may be at the front.
#[tactic(auto, unfolding(crate::specs::Words::candidate))]
fn candidate(bytes: &[u8]) -> Option<Keyword>
    ensures { result ≡ candidate bytes.now }
{
    match bytes {
        [] => None,
        [IN_LETTER, ..] => Some(Keyword::In),
        [RD_LETTER, ..] => Some(Keyword::Rd),
        [A_LETTER, rest @ ..] => Some(a_word(rest)),
        [N_LETTER, rest @ ..] => Some(n_word(rest)),
        [CHOOSE_LETTER, ..] => Some(Keyword::Choose),
        [WRAP_LETTER, ..] => Some(Keyword::Wrap),
        [_, ..] => None,
    }
}

// Which of the two keywords that begin with `a` the others of its letters begin.
fn a_word(rest: &[u8]) -> Keyword
    ensures { result ≡ a_word (is_always rest.now) }
{
    match rest {
        [_, ALWAYS_LETTER, ..] => Keyword::Always,
        _ => Keyword::Alarm,
    }
}

// Which of the two keywords that begin with `n` the others of its letters begin.
fn n_word(rest: &[u8]) -> Keyword
    ensures { result ≡ n_word (is_nack rest.now) }
{
    match rest {
        [NACK_LETTER, ..] => Keyword::Nack,
        _ => Keyword::Never,
    }
}
