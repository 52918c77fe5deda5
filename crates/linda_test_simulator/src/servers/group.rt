//! Group of messages that a loop has served: whether the bank had room for all their deeds.

use crate::servers::bank::deed_len;
use crate::servers::conn::Conn;
use crate::servers::model::{Model, SPENT};
use crate::servers::net::{Noted, Shared};
use crate::servers::words::Said;
use crate::servers::world::World;
use std::alloc::{AllocError, Global};

/// The numbered messages of a group.
#[derive(Drop)]
pub struct Group {
    /// Its first one was heard.
    pub is_begun: bool,
    // Each with its client.
    messages: Vec<(u32, Said)>,
    // The clients of its deeds, each with the deed's number, and whether the client leaves.
    deeds: Vec<(u32, u64, bool)>,
}

impl Group {
    /// No message.
    pub fn new(alloc: Global) -> Group {
        Group {
            is_begun: false,
            messages: Vec::new(alloc),
            deeds: Vec::new(alloc),
        }
    }

    // These are the messages of a group of which one was noted, with the others that are.
    fn gather(
        &mut self,
        net: &Shared,
        conns: &[Conn],
        first: (u32, Said),
    ) -> Result<(), AllocError> {
        self.messages.clear();
        self.messages.push(first)?;
        let Ok(net) = net.try_borrow() else {
            return Ok(());
        };
        for (at, noted) in net.notes.iter() {
            if let Some(message) = message_of(conns, *at, *noted) {
                self.messages.push(message)?;
            }
        }
        Ok(())
    }

    // How many bytes their deeds would have if each did one.
    fn most_bytes(&self) -> usize {
        let mut bytes: usize = 0;
        for (_, said) in self.messages.iter() {
            bytes = bytes.saturating_add(deed_len(*said).unwrap_or(0));
        }
        bytes
    }

    // Counts the deeds of the messages. Returns how many bytes they have.
    fn count(&mut self, model: &Model) -> Result<usize, AllocError> {
        self.deeds.clear();
        let mut bytes: usize = 0;
        for at in 0..self.messages.len() {
            let Some((client, said)) = self.messages.get(at).copied() else {
                break;
            };
            let (last, has_left) = self.last_of(model, client);
            let n = number_of(said);
            if n == last.saturating_add(1) && n < SPENT && !has_left {
                let leaves = matches!(said, Said::Leave { .. });
                self.deeds.push((client, n, leaves))?;
                bytes = bytes.saturating_add(deed_len(said).unwrap_or(0));
            }
        }
        Ok(bytes)
    }

    // The last number of the client after these deeds, and whether it has left.
    fn last_of(&self, model: &Model, client: u32) -> (u64, bool) {
        let mut last = (model.last_of(client), model.has_left(client));
        for (other, n, leaves) in self.deeds.iter() {
            if *other == client {
                last = (*n, *leaves);
            }
        }
        last
    }

    // Whether the bank of the model has room for the deeds of all messages.
    fn has_room(&mut self, model: &Model) -> Result<bool, AllocError> {
        if model.bank.has_room(self.messages.len(), self.most_bytes()) {
            return Ok(true);
        }
        let bytes = self.count(model)?;
        Ok(model.bank.has_room(self.deeds.len(), bytes))
    }
}

// The numbered message that was noted, with its client, if one was.
fn message_of(conns: &[Conn], at: usize, noted: Noted) -> Option<(u32, Said)> {
    let Noted::Heard(Some(said), _) = noted else {
        return None;
    };
    let _ = deed_len(said)?;
    match conns.get(at) {
        Some(conn) => Some((conn.greeted?, said)),
        None => None,
    }
}

// The number of a message, 0 if it has none.
fn number_of(said: Said) -> u64 {
    match said {
        Said::Out { n, .. } => n,
        Said::Accept { n, .. } => n,
        Said::Leave { n } => n,
        _ => 0,
    }
}

impl World {
    /// A message of this client was taken. With the first numbered one of a turn a group begins of
    /// all that are served at once, if the bank has room for that; a server that is down serves
    /// none.
    pub fn begin_group(&mut self, client: u32, said: Said) {
        if self.was_down || self.group.is_begun || deed_len(said).is_none() {
            return;
        }
        self.group.is_begun = true;
        let World {
            group,
            net,
            conns,
            model,
            ..
        } = self;
        let done = match group.gather(net, conns, (client, said)) {
            Ok(()) => group.has_room(model),
            Err(fault) => Err(fault),
        };
        match done {
            Ok(has_room) => self.model.bank.begin_group(has_room),
            Err(_) => self.blame("the run has no memory"),
        }
    }
}
