//! Asks of the model: what waits and what is held.

use crate::servers::model::{Item, Model, Sends, Waiting, drop_item, refused, tell};
use crate::servers::words::Told;
use std::alloc::AllocError;

/// How many asks a client may have open.
const MOST_OPEN: usize = 64;

impl Model {
    /// An ask came.
    pub fn ask(&mut self, ask: Waiting, sends: &mut Sends) -> Result<(), AllocError> {
        if let Some(last) = self.find_last(ask.client) {
            if matches!(last.reply, Told::Left { .. }) {
                return tell(sends, ask.client, refused(11, last.n));
            }
        }
        let ticket = ask.ticket;
        if let Some(item) = self.find_held(ask.client, ticket) {
            return tell(sends, ask.client, offer(ticket, item));
        }
        if self.waits_with(ask.client, ticket) {
            return Ok(());
        }
        if self.open_of(ask.client) >= MOST_OPEN {
            return tell(sends, ask.client, refused(10, ticket));
        }
        for item in self.items.iter_mut() {
            if !ask.form.fits(item.value) {
                continue;
            }
            if !ask.remove {
                return tell(sends, ask.client, read(ticket, *item));
            }
            if item.held.is_none() {
                item.held = Some((ask.client, ticket));
                return tell(sends, ask.client, offer(ticket, *item));
            }
        }
        self.waits.push(ask).map_err(|_| AllocError)
    }

    // The tuple that is held for the client and the ticket.
    fn find_held(&self, client: u32, ticket: u64) -> Option<Item> {
        for item in self.items.iter() {
            if item.held == Some((client, ticket)) {
                return Some(*item);
            }
        }
        None
    }

    fn waits_with(&self, client: u32, ticket: u64) -> bool {
        for wait in self.waits.iter() {
            if wait.client == client && wait.ticket == ticket {
                return true;
            }
        }
        false
    }

    // How many asks of the client are open.
    fn open_of(&self, client: u32) -> usize {
        let mut count: usize = 0;
        for wait in self.waits.iter() {
            if wait.client == client {
                count = count.saturating_add(1);
            }
        }
        for item in self.items.iter() {
            if let Some((holder, _)) = item.held {
                if holder == client {
                    count = count.saturating_add(1);
                }
            }
        }
        count
    }

    /// A ticket is cancelled.
    pub fn cancel(
        &mut self,
        client: u32,
        ticket: u64,
        sends: &mut Sends,
    ) -> Result<(), AllocError> {
        for at in 0..self.waits.len() {
            let Some(wait) = self.waits.get(at).copied() else {
                break;
            };
            if wait.client == client && wait.ticket == ticket {
                drop_item(&mut self.waits, at);
                return Ok(());
            }
        }
        match self.find_held(client, ticket) {
            Some(item) => self.release(item.id, sends),
            None => Ok(()),
        }
    }

    /// The connection of the client ended: its waits are gone, and what it held is free.
    pub fn close(&mut self, client: u32, sends: &mut Sends) -> Result<(), AllocError> {
        self.waits.retain(|wait| wait.client != client);
        for at in 0..self.items.len() {
            let Some(item) = self.items.get(at).copied() else {
                break;
            };
            if let Some((holder, _)) = item.held {
                if holder == client {
                    self.release(item.id, sends)?;
                }
            }
        }
        Ok(())
    }

    // The tuple of this id is free again, and is dispatched.
    fn release(&mut self, id: u64, sends: &mut Sends) -> Result<(), AllocError> {
        for item in self.items.iter_mut() {
            if item.id == id {
                item.held = None;
            }
        }
        self.dispatch(id, sends)
    }

    /// The tuple of this id goes to all reads that wait for it, and is offered to one.
    pub fn dispatch(&mut self, id: u64, sends: &mut Sends) -> Result<(), AllocError> {
        for item in self.items.iter_mut() {
            if item.id != id {
                continue;
            }
            for wait in self.waits.iter() {
                if !wait.remove && wait.form.fits(item.value) {
                    tell(sends, wait.client, read(wait.ticket, *item))?;
                }
            }
            let value = item.value;
            self.waits
                .retain(|wait| wait.remove || !wait.form.fits(value));
            for at in 0..self.waits.len() {
                let Some(wait) = self.waits.get(at).copied() else {
                    break;
                };
                if wait.form.fits(value) {
                    item.held = Some((wait.client, wait.ticket));
                    drop_item(&mut self.waits, at);
                    return tell(sends, wait.client, offer(wait.ticket, *item));
                }
            }
            return Ok(());
        }
        Ok(())
    }
}

fn offer(ticket: u64, item: Item) -> Told {
    Told::Offer {
        ticket,
        id: item.id,
        value: item.value,
    }
}

fn read(ticket: u64, item: Item) -> Told {
    Told::Read {
        ticket,
        id: item.id,
        value: item.value,
    }
}
