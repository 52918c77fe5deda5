//! Sayings of a client and replies to it, as the model and the test name them. A tuple of a letter
//! and a number from 0 to 3 is a row: four times the place of its letter, and the number.

use linda_test_server::{ask, number_in, put};
use linda_tuple::{Atom, Pattern, Tuple};
use linda_wire::{Message, Reply};
use std::alloc::{AllocError, Global};

/// A message of a client.
#[derive(Clone, Copy)]
pub(super) enum Said {
    Hello { version: u8, fresh: bool },
    Out { n: u64, row: u64 },
    Ask(Asked),
    Accept { n: u64, ticket: u64, id: u64 },
    Cancel { ticket: u64 },
    Leave { n: u64 },
}

/// An ask for a row, or for one with its letter and any number: to take it, or for a copy.
#[derive(Clone, Copy)]
pub(super) struct Asked {
    pub(super) ticket: u64,
    pub(super) remove: bool,
    pub(super) row: u64,
    pub(super) is_any: bool,
}

/// Kinds of replies.
pub(super) const WELCOME: usize = 0;

pub(super) const STORED: usize = 1;

pub(super) const OFFER: usize = 2;

pub(super) const COPY: usize = 3;

pub(super) const TAKEN: usize = 4;

pub(super) const GONE: usize = 5;

pub(super) const REFUSED: usize = 6;

pub(super) const LEFT: usize = 7;

/// A reply: its kind, its number, ticket or code, its id or detail, and its row.
#[derive(Clone, Copy, Debug, PartialEq, Eq)]
pub(super) struct Told {
    pub(super) kind: usize,
    pub(super) n: u64,
    pub(super) id: u64,
    pub(super) row: u64,
}

/// The reply of these.
pub(super) fn made(kind: usize, n: u64, id: u64, row: u64) -> Told {
    Told { kind, n, id, row }
}

/// The reply by that name; none if its tuple is no row.
pub(super) fn told_of(reply: &Reply) -> Option<Told> {
    match reply {
        Reply::Welcome { last } => Some(made(WELCOME, *last, 0, 0)),
        Reply::Stored { n, id } => Some(made(STORED, *n, *id, 0)),
        Reply::Offer { ticket, id, tuple } => with_row(OFFER, *ticket, *id, tuple),
        Reply::Read { ticket, id, tuple } => with_row(COPY, *ticket, *id, tuple),
        Reply::Taken { n, id, tuple } => with_row(TAKEN, *n, *id, tuple),
        Reply::Gone { n } => Some(made(GONE, *n, 0, 0)),
        Reply::Refused { code, detail } => Some(made(REFUSED, *code as u64, *detail, 0)),
        Reply::Left { n } => Some(made(LEFT, *n, 0, 0)),
    }
}

// The reply that has this tuple.
fn with_row(kind: usize, n: u64, id: u64, tuple: &Tuple) -> Option<Told> {
    let Atom::Text(tag) = tuple.tag() else {
        return None;
    };
    let letter = match tag.as_str() {
        "a" => 0,
        "b" => 4,
        "c" => 8,
        _ => return None,
    };
    let number = match number_in(tuple) {
        Some(0) => 0,
        Some(1) => 1,
        Some(2) => 2,
        Some(3) => 3,
        _ => return None,
    };
    Some(made(kind, n, id, letter + number))
}

/// The message of this client that says so.
pub(super) fn message_of(alloc: Global, client: u32, said: Said) -> Result<Message, AllocError> {
    match said {
        Said::Hello { version, fresh } => Ok(Message::Hello {
            version,
            client,
            fresh,
        }),
        Said::Out { n, row } => put(alloc, n, word_of(row), (row % 4) as i64),
        Said::Ask(asked) => ask_of(alloc, asked),
        Said::Accept { n, ticket, id } => Ok(Message::Accept { n, ticket, id }),
        Said::Cancel { ticket } => Ok(Message::Cancel { ticket }),
        Said::Leave { n } => Ok(Message::Leave { n }),
    }
}

// The message of the ask.
fn ask_of(alloc: Global, asked: Asked) -> Result<Message, AllocError> {
    let pattern = if asked.is_any {
        Pattern::IntFormal
    } else {
        Pattern::Value(Atom::Int((asked.row % 4) as i64))
    };
    let mut message = ask(alloc, asked.ticket, word_of(asked.row), pattern)?;
    if let Message::Ask { remove, .. } = &mut message {
        *remove = asked.remove;
    }
    Ok(message)
}

// The letter of the row.
fn word_of(row: u64) -> &'static str {
    match row / 4 {
        0 => "a",
        1 => "b",
        _ => "c",
    }
}
