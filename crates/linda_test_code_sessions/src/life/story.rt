//! Story of a connection: what its client said, beside how a plain server answers it.

use super::model::Model;
use super::said::{Said, Told};
use super::{MEMORY, Wrong};
use std::alloc::Global;
use std::collections::VecDeque;

/// What was said on a connection, and the model of the server. The model takes a message when a
/// reply comes that no earlier one leads to, or when the connection ends.
#[derive(Drop)]
pub(super) struct Story {
    pub(super) model: Model,
    // What was said and the model did not take.
    pub(super) said: VecDeque<Said>,
    // How many messages of this connection it took.
    taken: u64,
    /// The last reply that came, and what was due.
    pub(super) heard: Option<(Told, Option<Told>)>,
}

impl Story {
    /// Nothing was said, and a server that keeps nothing.
    pub(super) fn new(alloc: Global) -> Story {
        Story {
            model: Model::new(alloc),
            said: VecDeque::new(alloc),
            taken: 0,
            heard: None,
        }
    }

    // The model takes the next message.
    fn go_on(&mut self) -> Result<(), Wrong> {
        let Some(said) = self.said.pop_front() else {
            return Err("the server took a message that was not said");
        };
        self.taken = self.taken.saturating_add(1);
        match self.model.hear(said) {
            Ok(()) => Ok(()),
            Err(_) => Err(MEMORY),
        }
    }

    /// The client hears this, which has to be what is due.
    pub(super) fn hear(&mut self, told: Told) -> Result<(), Wrong> {
        for _ in 0..self.said.len() {
            if !self.model.told.is_empty() {
                break;
            }
            self.go_on()?;
        }
        let due = self.model.told.pop_front();
        self.heard = Some((told, due));
        match due {
            Some(due) if due == told => Ok(()),
            _ => Err("another reply was due"),
        }
    }

    /// The server took so many messages of this connection: then the model takes as many. Returns
    /// the last number of the client that is kept.
    pub(super) fn catch_up(&mut self, taken: u64) -> Result<u64, Wrong> {
        if self.taken > taken {
            return Err("a message was answered before the server took it");
        }
        for _ in self.taken..taken {
            self.go_on()?;
        }
        Ok(self.model.last)
    }

    /// The connection has ended. The client comes again, or another one that was never here.
    pub(super) fn come_again(&mut self, is_other: bool) {
        self.said.clear();
        self.taken = 0;
        self.model.come_again(is_other);
    }
}
