//! Streams of frames, of messages or of replies.
//!
//! `frame WORDS` gives the frame of a message or a reply. `feed BYTES` is a piece of the row's
//! stream; `next` gives what is at its front, `nothing` if that is not whole, or the fault; `left`
//! how many bytes are not read. `bytewise BYTES` feeds them one by one, and gives how often there
//! was nothing before a byte came.
//!
//! `behind BYTES` says what `fault` lets come after. `fault BYTES` gives a new stream all of them
//! but the last one, the last one, and what comes after, and gives what is next after each, and how
//! many bytes are left.

use crate::values::frames::{Spoken, frame_of, push_words_of_copy};
use crate::values::hexadecimal::tell_made;
use crate::values::told::push_fault;
use linda_test_script::{WordsFault, done, read_hex, split_word};
use linda_wire::FrameFeed;
use std::alloc::{AllocError, Global};

/// The stream of a row.
#[derive(Drop)]
pub(crate) struct Stream<T: Spoken> {
    feed: FrameFeed<T>,
    /// What comes after the bytes of a fault.
    behind: Vec<u8>,
}

impl<T: Spoken> Stream<T> {
    /// A stream of which nothing came yet.
    pub(crate) fn new(alloc: Global) -> Stream<T> {
        Stream {
            feed: FrameFeed::new(alloc),
            behind: Vec::new(alloc),
        }
    }

    /// Plays a line of a row about streams.
    ///
    /// # Errors
    ///
    /// `Unknown` if it says nothing of the kind; `Memory` if memory runs out.
    pub(crate) fn play(
        &mut self,
        alloc: Global,
        words: &str,
        came: &mut String,
    ) -> Result<(), WordsFault> {
        let (verb, rest) = split_word(words);
        match verb {
            "frame" => tell_made(alloc, came, frame_of::<T>(alloc, rest)),
            "next" => done(tell_next(alloc, came, &mut self.feed)),
            "left" => self.tell_left(came),
            _ => self.play_digits(alloc, verb, rest, came),
        }
    }

    fn tell_left(&self, came: &mut String) -> Result<(), WordsFault> {
        done(writeln!(came, "> {}", self.feed.rest()))
    }

    // Plays a line of which the rest says bytes.
    fn play_digits(
        &mut self,
        alloc: Global,
        verb: &str,
        digits: &str,
        came: &mut String,
    ) -> Result<(), WordsFault> {
        let bytes = read_hex(alloc, digits)?;
        self.play_bytes(alloc, verb, &bytes, came)
    }

    fn play_bytes(
        &mut self,
        alloc: Global,
        verb: &str,
        bytes: &[u8],
        came: &mut String,
    ) -> Result<(), WordsFault> {
        match verb {
            "feed" => done(self.feed.feed(bytes)),
            "bytewise" => self.feed_bytewise(alloc, came, bytes),
            "behind" => self.keep_behind(bytes),
            "fault" => self.tell_fault(alloc, came, bytes),
            _ => Err(WordsFault::Unknown),
        }
    }

    fn keep_behind(&mut self, bytes: &[u8]) -> Result<(), WordsFault> {
        self.behind.clear();
        done(self.behind.extend_from_slice(bytes))
    }

    fn feed_bytewise(
        &mut self,
        alloc: Global,
        came: &mut String,
        bytes: &[u8],
    ) -> Result<(), WordsFault> {
        let mut count = 0u64;
        for byte in bytes {
            if let Ok(None) = self.feed.next(alloc) {
                count = count.saturating_add(1);
            }
            self.feed.feed(&[*byte])?;
        }
        done(writeln!(came, "> nothing before {count} bytes"))
    }

    fn tell_fault(&self, alloc: Global, came: &mut String, bytes: &[u8]) -> Result<(), WordsFault> {
        let Some((last, front)) = bytes.split_last() else {
            return Err(WordsFault::Unknown);
        };
        let mut feed = FrameFeed::<T>::new(alloc);
        came.push_str("> ")?;
        push_piece(alloc, came, &mut feed, front)?;
        push_piece(alloc, came, &mut feed, &[*last])?;
        push_piece(alloc, came, &mut feed, &self.behind)?;
        done(writeln!(came, "{} left", feed.rest()))
    }
}

// Feeds a piece, and appends what is next then.
fn push_piece<T: Spoken>(
    alloc: Global,
    came: &mut String,
    feed: &mut FrameFeed<T>,
    piece: &[u8],
) -> Result<(), AllocError> {
    feed.feed(piece)?;
    push_next(alloc, came, feed)?;
    came.push_str(", ")
}

fn tell_next<T: Spoken>(
    alloc: Global,
    came: &mut String,
    feed: &mut FrameFeed<T>,
) -> Result<(), AllocError> {
    came.push_str("> ")?;
    push_next(alloc, came, feed)?;
    came.push('\n')
}

fn push_next<T: Spoken>(
    alloc: Global,
    came: &mut String,
    feed: &mut FrameFeed<T>,
) -> Result<(), AllocError> {
    match feed.next(alloc) {
        Ok(Some(value)) => push_words_of_copy(alloc, came, &value),
        Ok(None) => came.push_str("nothing"),
        Err(fault) => push_fault(came, fault),
    }
}
