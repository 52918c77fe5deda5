//! Cutting a text into lines while its pieces arrive.
//!
//! A line ends with a line feed, which is no part of it. Each byte of the text is looked at once,
//! and copied once at most, however long the lines are and wherever the pieces are cut.

ghost use Rattle.std.specs.Prelude.{◌≡◌, ◌∷◌, ◌++◌, IfOk, MatchOption, OnErr};
ghost use Rattle.std.specs.Option.{option_copied};
ghost use Rattle.linda_pipe.specs.declared.line.TheConstants.{LINE_FEED};
ghost use Rattle.linda_pipe.specs.Lines.{Extends, HasNoFeed};

use std::alloc::AllocError;

/// What ends a line.
pub(crate) const LINE_FEED: u8 = b'\n';

/// The text before its first line feed and the text after it; `None` if it has none.
pub fn split_line<'a>(text: &'a [u8]) -> Option<(&'a [u8], &'a [u8])>
    ensures { MatchOption result (HasNoFeed text.entry.now)
        (λ parts. HasNoFeed parts.0.now
        × (text.entry.now ≡ parts.0.now ++ LINE_FEED ∷ parts.1.now)) }
{
    match text.iter().position(|b| *b == LINE_FEED) {
        Some(end) => Some((&text[..end], &text[end + 1..])),
        None => None,
    }
}

/// Moves the front of a text to the end of an unfinished line: all bytes before the first line
/// feed.
///
/// Answers what follows that line feed, and then the line is whole; or `None` if the text has no
/// line feed, and then the whole text has gone to the line. After an error the line is unchanged.
pub fn extend_line<'a>(line: &mut Vec<u8>, text: &'a [u8]) -> Result<Option<&'a [u8]>, AllocError>
    ensures ok { IfOk result (λ rest.
        Extends line.old.items text.entry.now line.new.items (option_copied rest)) }
    ensures err { OnErr result (line.new.items ≡ line.old.items) }
{
    match split_line(text) {
        Some((front, rest)) => {
            line.extend_from_slice(front)?;
            Ok(Some(rest))
        }
        None => {
            line.extend_from_slice(text)?;
            Ok(None)
        }
    }
}
