//! Connection of a run: what its client sent and what is due to it.

use crate::servers::net::drop_front;
use crate::servers::side::{Loop, Place};
use crate::servers::words::{Bad, Said, Told, len_of_told, push_said, push_told};
use std::alloc::{AllocError, Global};
use std::collections::VecDeque;

/// A connection, from a client to a server.
#[derive(Drop)]
pub struct Conn {
    pub is_used: bool,
    /// Where it is at the server.
    pub place: Place,
    /// Which of the clients it is of.
    pub owner: usize,
    /// The client's number, once it was greeted.
    pub greeted: Option<u32>,
    /// Its client has given it up, and reads what comes or not.
    pub is_lost: bool,
    pub is_read: bool,
    /// It was given its last word.
    pub is_closed: bool,
    /// It broke at the server.
    pub is_failed: bool,
    /// When a message of it was taken last.
    pub spoke: u64,
    /// At how many looks it held a tuple since then, or, if it is lost, nothing was taken of it.
    pub looks: u32,
    /// Bytes that the client sent and that did not come yet.
    pub wire: Vec<u8>,
    /// What it sent and the server did not take yet.
    pub sent: VecDeque<Said>,
    /// Bytes that are to come to the client.
    pub due: Vec<u8>,
    /// Replies that are to come, each with how many of its bytes are due.
    pub coming: VecDeque<(Told, usize)>,
}

impl Conn {
    /// A place for a connection.
    pub fn new(alloc: Global) -> Conn {
        Conn {
            is_used: false,
            place: Place {
                which: Loop::First,
                key: 0,
            },
            owner: 0,
            greeted: None,
            is_lost: false,
            is_read: true,
            is_closed: false,
            is_failed: false,
            spoke: 0,
            looks: 0,
            wire: Vec::new(alloc),
            sent: VecDeque::new(alloc),
            due: Vec::new(alloc),
            coming: VecDeque::new(alloc),
        }
    }

    /// Nothing is here any more.
    pub fn clear(&mut self) {
        self.is_used = false;
        self.greeted = None;
        self.is_lost = false;
        self.is_read = true;
        self.is_closed = false;
        self.is_failed = false;
        self.looks = 0;
        self.wire.clear();
        self.sent.clear();
        self.due.clear();
        self.coming.clear();
    }

    /// A client of this place begins it.
    pub fn begin(&mut self, owner: usize, place: Place, now: u64) {
        self.clear();
        self.is_used = true;
        self.owner = owner;
        self.place = place;
        self.spoke = now;
    }

    /// Whether its client and its server both go on.
    pub fn is_live(&self) -> bool {
        self.is_used && !self.is_lost && !self.is_closed && !self.is_failed
    }

    /// The client sends this.
    pub fn send(&mut self, said: Said) -> Result<(), AllocError> {
        push_said(&mut self.wire, said)?;
        match self.sent.push_back(said) {
            Ok(()) => Ok(()),
            Err(_) => Err(AllocError),
        }
    }

    /// This is due to the client.
    pub fn owe(&mut self, told: Told) -> Result<(), AllocError> {
        if self.is_closed || self.is_failed {
            return Ok(());
        }
        push_told(&mut self.due, told)?;
        match self.coming.push_back((told, len_of_told(told))) {
            Ok(()) => Ok(()),
            Err(_) => Err(AllocError),
        }
    }

    /// Whether these bytes are the next that are due. If so they came.
    pub fn take(&mut self, bytes: &[u8]) -> bool {
        if !self.due.as_slice().starts_with(bytes) {
            return false;
        }
        drop_front(&mut self.due, bytes.len());
        let mut left = bytes.len();
        for (_, due) in self.coming.iter_mut() {
            let some = left.min(*due);
            *due = due.saturating_sub(some);
            left = left.saturating_sub(some);
        }
        true
    }

    /// The next reply that came whole.
    pub fn next_whole(&mut self) -> Option<Told> {
        match self.coming.front() {
            Some((_, 0)) => {}
            _ => return None,
        }
        match self.coming.pop_front() {
            Some((told, _)) => Some(told),
            None => None,
        }
    }

    /// The frame that spells nothing and is next, if one is.
    pub fn next_bad(&self) -> Option<Bad> {
        match self.sent.front() {
            Some(Said::Bad(bad)) => Some(*bad),
            _ => None,
        }
    }
}
