//! Talks with a peer of a pipe, a conversation and a script, and how they end.
//!
//! - `says BYTES`, `wants BYTES`: the peer says more; more is to be written to it, as long as
//!   nothing fails. Bytes are as in `texts`.
//! - `front LENGTH`: only so many bytes are said.
//! - `pipe SIZE ends WIDTH ROOM`, and so `converse` and `run`: over a reader that gives so many
//!   bytes at once and then ends, or, with `fails`, fails, and a writer that takes so many at once
//!   and has so much room.
//!
//! It is reported how it ended (`whole 38` if a conversation came to the end of its stream and its
//! whole messages have so many bytes); how much was written of what is wanted (`all`, `its room`,
//! or so many bytes, or else `other bytes` and their digits); how many bytes were not read; and how
//! many calls of the reader and of the writer failed. The reader fails as well if it is asked while
//! something is not flushed. A flush after a call of the writer that failed is counted with the
//! calls that failed.

use crate::peers::{Narrow, Pieces};
use crate::texts::push_bytes;
use linda_pipe::pipe;
use linda_shell::run_script;
use linda_store::{End, Volatile, converse};
use linda_test_script::{WordsFault, done, read_numbered, split_word};
use std::alloc::{AllocError, Global};
use std::cell::Cell;

/// What the peer says, and what it is to be written.
#[derive(Drop)]
pub(crate) struct Talks {
    said: Vec<u8>,
    wanted: Vec<u8>,
}

impl Talks {
    /// Nothing is said.
    pub(crate) fn new(alloc: Global) -> Talks {
        Talks {
            said: Vec::new(alloc),
            wanted: Vec::new(alloc),
        }
    }

    /// Begins a row.
    pub(crate) fn begin(&mut self) {
        self.said.clear();
        self.wanted.clear();
    }

    /// Does what the words say.
    pub(crate) fn play(
        &mut self,
        alloc: Global,
        words: &str,
        came: &mut String,
    ) -> Result<(), WordsFault> {
        let (word, rest) = split_word(words);
        match word {
            "says" => push_bytes(alloc, &mut self.said, rest),
            "wants" => push_bytes(alloc, &mut self.wanted, rest),
            "front" => self.cut(rest),
            _ => self.serve(alloc, word, rest, came),
        }
    }

    // Only so many bytes are said.
    fn cut(&mut self, words: &str) -> Result<(), WordsFault> {
        let (len, _) = read_numbered(words)?;
        self.said.truncate(len as usize);
        Ok(())
    }

    // Serves the peer by this command, within the bounds that the words give, and reports what came
    // of it.
    fn serve(
        &self,
        alloc: Global,
        command: &str,
        words: &str,
        came: &mut String,
    ) -> Result<(), WordsFault> {
        let bounds = bounds_of(words)?;
        let unflushed = Cell::new(false);
        let mut reader = Pieces {
            bytes: &self.said,
            size: bounds.size,
            fails: bounds.fails,
            unflushed: &unflushed,
            failed: 0,
        };
        let mut writer = Narrow {
            bytes: Vec::new(alloc),
            width: bounds.width,
            room: bounds.room,
            unflushed: &unflushed,
            failed: 0,
        };
        served(alloc, command, &mut reader, &mut writer, came)?;
        done(self.tell(alloc, &reader, &writer, came))
    }

    // Writes how much was written, how much was not read, and how many calls failed.
    fn tell(
        &self,
        alloc: Global,
        reader: &Pieces,
        writer: &Narrow,
        came: &mut String,
    ) -> Result<(), AllocError> {
        self.tell_written(alloc, writer, came)?;
        let unread = reader.bytes.len();
        let failed = reader.failed.saturating_add(writer.failed);
        writeln!(came, ", unread {unread}, failed {failed}")
    }

    // Writes how much was written of what is wanted, or all of it if it is something else.
    fn tell_written(
        &self,
        alloc: Global,
        writer: &Narrow,
        came: &mut String,
    ) -> Result<(), AllocError> {
        let written = writer.bytes.as_slice();
        let wanted = self.wanted.as_slice();
        if !wanted.starts_with(written) {
            let digits = hex::encode(alloc, written)?;
            return write!(came, "other bytes {digits}");
        }
        if written.len() == wanted.len() {
            return came.push_str("all");
        }
        if written.len() == writer.room {
            return came.push_str("its room");
        }
        write!(came, "{}", written.len())
    }
}

/// How many bytes the reader gives at once and whether it `ends` or `fails` after them, how many
/// the writer takes at once, and for how many it has room.
#[derive(Clone, Copy)]
struct Bounds {
    size: usize,
    fails: bool,
    width: usize,
    room: usize,
}

// The bounds that the words give, in this order.
fn bounds_of(words: &str) -> Result<Bounds, WordsFault> {
    let (size, rest) = read_numbered(words)?;
    let (end, rest) = split_word(rest);
    let (width, rest) = read_numbered(rest)?;
    let (room, _) = read_numbered(rest)?;
    Ok(Bounds {
        size: size as usize,
        fails: end == "fails",
        width: width as usize,
        room: room as usize,
    })
}

// Serves by this command, and writes how that ends.
fn served(
    alloc: Global,
    command: &str,
    reader: &mut Pieces,
    writer: &mut Narrow,
    came: &mut String,
) -> Result<(), WordsFault> {
    match command {
        "pipe" => done(piped(alloc, reader, writer, came)),
        "converse" => done(conversed(alloc, reader, writer, came)),
        "run" => done(ran(alloc, reader, writer, came)),
        _ => Err(WordsFault::Unknown),
    }
}

// Writes how a pipe ends.
fn piped(
    alloc: Global,
    reader: &mut Pieces,
    writer: &mut Narrow,
    came: &mut String,
) -> Result<(), AllocError> {
    let end = pipe(alloc, reader, writer);
    write!(came, "> {end:?}, wrote ")
}

// Writes how a script over one server ends.
fn ran(
    alloc: Global,
    reader: &mut Pieces,
    writer: &mut Narrow,
    came: &mut String,
) -> Result<(), AllocError> {
    let end = run_script(alloc, reader, writer, 1);
    write!(came, "> {end:?}, wrote ")
}

// Writes how a conversation with a new server ends; at the end of the stream, how many bytes its
// whole messages have.
fn conversed(
    alloc: Global,
    reader: &mut Pieces,
    writer: &mut Narrow,
    came: &mut String,
) -> Result<(), AllocError> {
    let len = reader.bytes.len();
    let mut node = Volatile::new(alloc);
    match converse(alloc, &mut node, reader, writer) {
        Ok(End::Ended { rest }) => {
            let whole = len.saturating_sub(reader.bytes.len()).saturating_sub(rest);
            write!(came, "> whole {whole}, wrote ")
        }
        end => write!(came, "> {end:?}, wrote "),
    }
}
