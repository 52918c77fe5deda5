//! Sessions piece by piece, and whole conversations.

use crate::servers::node::play_node;
use crate::servers::pipe::{Pieces, Room};
use linda_store::{ConnectionState, End, Session, Taken, Volatile, converse};
use linda_test_script::{
    WordsFault, done, read_size, said_frames, split_word, tell, tell_two, write_reply,
};
use linda_wire::{Reply, ReplyFeed};
use std::alloc::{AllocError, Global};

/// A node, a session with it, and the stream that a client is to say to it in a conversation.
#[derive(Drop)]
pub(crate) struct Talks {
    node: Volatile,
    session: Session,
    stream: Vec<u8>,
}

impl Talks {
    /// A new node, a new session, and nothing to be said.
    pub(crate) fn new(alloc: Global) -> Talks {
        Talks {
            node: Volatile::new(alloc),
            session: Session::new(alloc),
            stream: Vec::new(alloc),
        }
    }

    /// Does what the words say.
    pub(crate) fn play(
        &mut self,
        alloc: Global,
        words: &str,
        came: &mut String,
    ) -> Result<(), WordsFault> {
        let (word, rest) = split_word(words);
        match word {
            "says" => self.hear(alloc, rest),
            "talk" => self.talk(alloc, rest, came),
            "takes" => self.take(alloc, rest, came),
            "session" => done(show(&self.session, came)),
            _ => play_node(alloc, &mut self.node, words, came),
        }
    }

    // The stream goes on with a message, or with bytes.
    fn hear(&mut self, alloc: Global, words: &str) -> Result<(), WordsFault> {
        let piece = said_frames(alloc, words)?;
        done(self.stream.extend_from_slice(&piece))
    }

    // The session takes a piece, a message or bytes; gives the replies, and whether it goes on.
    fn take(&mut self, alloc: Global, words: &str, came: &mut String) -> Result<(), WordsFault> {
        let piece = said_frames(alloc, words)?;
        let taken = self.session.take(alloc, &mut self.node, &piece)?;
        tell_taken(alloc, &taken, came)
    }

    // The conversation over the stream, which comes in pieces of this size; the reader fails at its
    // end if the word `fails` is there, and the writer after so many bytes. Gives what was written,
    // and the end.
    fn talk(&mut self, alloc: Global, words: &str, came: &mut String) -> Result<(), WordsFault> {
        let (size, rest) = split_word(words);
        let (word, room) = split_word(rest);
        self.converse(
            alloc,
            read_size(size)?,
            word == "fails",
            read_size(room)?,
            came,
        )
    }

    fn converse(
        &mut self,
        alloc: Global,
        size: usize,
        fails: bool,
        room: usize,
        came: &mut String,
    ) -> Result<(), WordsFault> {
        let mut reader = Pieces {
            bytes: self.stream.as_slice(),
            size,
            fails,
        };
        let mut writer = Room {
            taken: Vec::new(alloc),
            room,
        };
        let end = converse(alloc, &mut self.node, &mut reader, &mut writer);
        tell_written(alloc, &writer.taken, came)?;
        match end {
            Ok(End::Ended { rest }) => tell_two(came, "ended, rest", rest),
            Ok(End::Malformed(at)) => tell_two(came, "malformed at", at),
            Err(fault) => tell(came, fault),
        }
    }
}

// Writes what the session said, and whether it goes on.
fn tell_taken(alloc: Global, taken: &Taken, came: &mut String) -> Result<(), WordsFault> {
    for reply in &taken.replies {
        tell_reply(alloc, reply, came)?;
    }
    tell(came, if taken.goes_on { "goes on" } else { "ends" })
}

// Writes the replies that are written, and the bytes after them that are less than one.
fn tell_written(alloc: Global, written: &[u8], came: &mut String) -> Result<(), WordsFault> {
    let mut feed = ReplyFeed::new(alloc);
    feed.feed(written)?;
    for _ in 0..written.len() {
        match feed.next(alloc) {
            Ok(Some(reply)) => tell_reply(alloc, &reply, came)?,
            _ => break,
        }
    }
    let (_, rest) = written.split_at(written.len().saturating_sub(feed.rest()));
    tell_rest(alloc, rest, came)
}

// Writes a reply as a line.
fn tell_reply(alloc: Global, reply: &Reply, came: &mut String) -> Result<(), WordsFault> {
    tell(came, write_reply(alloc, reply)?)
}

// Writes the bytes that are less than a reply, if there are any.
fn tell_rest(alloc: Global, rest: &[u8], came: &mut String) -> Result<(), WordsFault> {
    if rest.is_empty() {
        return Ok(());
    }
    tell_two(came, "bytes", hex::encode(alloc, rest)?)
}

// Writes whom the session greeted, its stage, and how many bytes came after its last message.
fn show(session: &Session, came: &mut String) -> Result<(), AllocError> {
    match session.greeted() {
        Some(client) => write!(came, "> greeted {client}, ")?,
        None => came.push_str("> greeted nobody, ")?,
    }
    push_stage(session.stage(), came)?;
    writeln!(came, ", rest {}", session.rest())
}

fn push_stage(stage: ConnectionState, came: &mut String) -> Result<(), AllocError> {
    match stage {
        ConnectionState::Open => came.push_str("open"),
        ConnectionState::Malformed(at) => write!(came, "malformed at {at}"),
        ConnectionState::Down => came.push_str("down"),
    }
}
