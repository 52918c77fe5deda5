//! Plain server of one client at a time: what it keeps, and how it answers each message.

use super::said::{
    Asked, COPY, GONE, LEFT, OFFER, REFUSED, STORED, Said, TAKEN, Told, WELCOME, made,
};
use linda_wire::{MAX_ASKS, Refusal, VERSION};
use std::alloc::{AllocError, Global};
use std::collections::VecDeque;

/// The ticket for which a tuple is held that is not held.
const NOBODY: u64 = u64::MAX;

/// A tuple that is kept, and the ticket for which it is held.
#[derive(Clone, Copy)]
struct Entry {
    id: u64,
    row: u64,
    held: u64,
}

/// How much was done and is kept: deeds, ids that were given, tuples, and clients.
#[derive(Clone, Copy, Debug, PartialEq, Eq)]
pub(super) struct Sums {
    pub(super) deeds: u64,
    pub(super) ids: u64,
    pub(super) tuples: usize,
    pub(super) clients: usize,
}

/// What a server keeps, and those of its replies that are not heard yet.
#[derive(Drop)]
pub(super) struct Model {
    alloc: Global,
    // By rising ids.
    entries: Vec<Entry>,
    // In order.
    waiting: Vec<Asked>,
    // The client was greeted on its connection.
    is_greeted: bool,
    // The last number of the client that is kept, and the reply to it.
    pub(super) last: u64,
    kept: Told,
    // What was done by all clients.
    deeds: u64,
    ids: u64,
    clients: usize,
    pub(super) told: VecDeque<Told>,
}

impl Model {
    /// Nothing is kept, and the client is not greeted.
    pub(super) fn new(alloc: Global) -> Model {
        Model {
            alloc,
            entries: Vec::new(alloc),
            waiting: Vec::new(alloc),
            is_greeted: false,
            last: 0,
            kept: made(WELCOME, 0, 0, 0),
            deeds: 0,
            ids: 0,
            clients: 0,
            told: VecDeque::new(alloc),
        }
    }

    /// What was done and is kept.
    pub(super) fn sums(&self) -> Sums {
        Sums {
            deeds: self.deeds,
            ids: self.ids,
            tuples: self.entries.len(),
            clients: self.clients,
        }
    }

    /// Whether the client left for good.
    pub(super) fn has_left(&self) -> bool {
        self.kept.kind == LEFT
    }

    /// The connection ends: replies go nowhere, and all that was asked is given up. The client
    /// comes again, or another one that was never here.
    pub(super) fn come_again(&mut self, is_other: bool) {
        self.told.clear();
        self.is_greeted = false;
        self.give_up_all();
        if is_other {
            self.last = 0;
            self.kept = made(WELCOME, 0, 0, 0);
        }
    }

    /// The client says this.
    pub(super) fn hear(&mut self, said: Said) -> Result<(), AllocError> {
        if self.is_greeted {
            self.serve(said)
        } else {
            self.greet(said)
        }
    }

    // The first message of a connection, or one after a refused Hello.
    fn greet(&mut self, said: Said) -> Result<(), AllocError> {
        let Said::Hello { version, fresh } = said else {
            return self.refuse(Refusal::NoHello);
        };
        if version != VERSION {
            return self.refuse(Refusal::Version);
        }
        if fresh && self.last > 0 {
            return self.refuse(Refusal::Known(self.last));
        }
        self.is_greeted = true;
        self.tell(made(WELCOME, self.last, 0, 0))
    }

    // A message of a client that was greeted.
    fn serve(&mut self, said: Said) -> Result<(), AllocError> {
        match said {
            Said::Hello { .. } => self.refuse(Refusal::Busy),
            Said::Out { n, row } => self.put(n, row),
            Said::Ask(asked) => self.ask(asked),
            Said::Accept { n, ticket, id } => self.accept(n, ticket, id),
            Said::Cancel { ticket } => self.cancel(ticket),
            Said::Leave { n } => self.leave(n),
        }
    }

    fn tell(&mut self, told: Told) -> Result<(), AllocError> {
        Ok(self.told.push_back(told)?)
    }

    fn refuse(&mut self, refusal: Refusal) -> Result<(), AllocError> {
        let code = refusal.code() as u64;
        self.tell(made(REFUSED, code, refusal.detail(), 0))
    }

    // Whether a request of this number is new.
    fn is_next(&self, n: u64) -> bool {
        !self.has_left() && n > 0 && n - 1 == self.last
    }

    // A request that is not new is refused, or gets the reply that it got first.
    fn repeat(&mut self, n: u64) -> Result<(), AllocError> {
        if n == 0 || n < self.last {
            return self.refuse(Refusal::Old(self.last));
        }
        if n == self.last {
            return self.tell(self.kept);
        }
        self.refuse_beyond()
    }

    // A number that is beyond the next one, or that of a client that left.
    fn refuse_beyond(&mut self) -> Result<(), AllocError> {
        if self.has_left() {
            self.refuse(Refusal::Left(self.last))
        } else {
            self.refuse(Refusal::Gap(self.last))
        }
    }

    // The client's next request is done, and gets this reply.
    fn keep(&mut self, n: u64, told: Told) -> Result<(), AllocError> {
        if self.last == 0 {
            self.clients = self.clients.saturating_add(1);
        }
        self.deeds = self.deeds.saturating_add(1);
        self.last = n;
        self.kept = told;
        self.tell(told)
    }

    fn put(&mut self, n: u64, row: u64) -> Result<(), AllocError> {
        if !self.is_next(n) {
            return self.repeat(n);
        }
        self.ids = self.ids.saturating_add(1);
        let id = self.ids;
        self.keep(n, made(STORED, n, id, 0))?;
        let held = self.hand_out(id, row)?;
        Ok(self.entries.push(Entry { id, row, held })?)
    }

    // A tuple is new or free: those that wait for a copy get one, and it is offered to the first
    // that waits to take it. Returns that one's ticket.
    fn hand_out(&mut self, id: u64, row: u64) -> Result<u64, AllocError> {
        let mut held = NOBODY;
        let mut left = Vec::new(self.alloc);
        for asked in &self.waiting {
            let is_for = asked.is_of(row);
            if is_for && !asked.remove {
                self.told.push_back(made(COPY, asked.ticket, id, row))?;
            } else if is_for && held == NOBODY {
                held = asked.ticket;
            } else {
                left.push(*asked)?;
            }
        }
        self.waiting = left;
        if held != NOBODY {
            self.tell(made(OFFER, held, id, row))?;
        }
        Ok(held)
    }

    // The place of the tuple that is held for this ticket, and how many before it are held.
    fn place_held(&self, ticket: u64) -> (Option<usize>, usize) {
        let mut count: usize = 0;
        for (place, entry) in self.entries.iter().enumerate() {
            if entry.held == ticket {
                return (Some(place), count);
            }
            if entry.held != NOBODY {
                count = count.saturating_add(1);
            }
        }
        (None, count)
    }

    // An offer of this ticket is accepted, if it is that of this id.
    fn accept(&mut self, n: u64, ticket: u64, id: u64) -> Result<(), AllocError> {
        if !self.is_next(n) {
            return self.repeat(n);
        }
        if let (Some(place), _) = self.place_held(ticket) {
            if place < self.entries.len() && self.entries[place].id == id {
                let entry = self.entries.remove(place);
                return self.keep(n, made(TAKEN, n, id, entry.row));
            }
        }
        self.keep(n, made(GONE, n, 0, 0))
    }

    fn ask(&mut self, asked: Asked) -> Result<(), AllocError> {
        if self.has_left() {
            return self.refuse(Refusal::Left(self.last));
        }
        let (place, held) = self.place_held(asked.ticket);
        if let Some(place) = place {
            return self.offer(place, asked.ticket);
        }
        if self.waits(asked.ticket) {
            return Ok(());
        }
        if self.waiting.len().saturating_add(held) >= MAX_ASKS {
            return self.refuse(Refusal::TooManyAsks(asked.ticket));
        }
        self.look_for(asked)
    }

    // Whether an ask of this ticket waits.
    fn waits(&self, ticket: u64) -> bool {
        for asked in &self.waiting {
            if asked.ticket == ticket {
                return true;
            }
        }
        false
    }

    // The tuple at this place is offered for this ticket, and held for it.
    fn offer(&mut self, place: usize, ticket: u64) -> Result<(), AllocError> {
        let Some(entry) = self.entries.get_mut(place) else {
            return Ok(());
        };
        entry.held = ticket;
        let offer = made(OFFER, ticket, entry.id, entry.row);
        self.tell(offer)
    }

    // A new ask gets the first tuple that it can have, or it waits.
    fn look_for(&mut self, asked: Asked) -> Result<(), AllocError> {
        for place in 0..self.entries.len() {
            let entry = self.entries[place];
            if asked.is_of(entry.row) && !asked.remove {
                return self.tell(made(COPY, asked.ticket, entry.id, entry.row));
            }
            if asked.is_of(entry.row) && entry.held == NOBODY {
                return self.offer(place, asked.ticket);
            }
        }
        Ok(self.waiting.push(asked)?)
    }

    // What this ticket asked for is given up.
    fn cancel(&mut self, ticket: u64) -> Result<(), AllocError> {
        for place in 0..self.waiting.len() {
            if self.waiting[place].ticket == ticket {
                let _ = self.waiting.remove(place);
                return Ok(());
            }
        }
        match self.place_held(ticket) {
            (Some(place), _) => self.free(place),
            (None, _) => Ok(()),
        }
    }

    // The tuple at this place is held no more, but for another ask that waits.
    fn free(&mut self, place: usize) -> Result<(), AllocError> {
        if place >= self.entries.len() {
            return Ok(());
        }
        let Entry { id, row, .. } = self.entries[place];
        let held = self.hand_out(id, row)?;
        if let Some(entry) = self.entries.get_mut(place) {
            entry.held = held;
        }
        Ok(())
    }

    fn leave(&mut self, n: u64) -> Result<(), AllocError> {
        if !self.is_next(n) {
            return self.repeat(n);
        }
        self.give_up_all();
        self.keep(n, made(LEFT, n, 0, 0))
    }

    // Nothing waits and nothing is held.
    fn give_up_all(&mut self) {
        self.waiting.clear();
        for entry in self.entries.iter_mut() {
            entry.held = NOBODY;
        }
    }
}

impl Asked {
    // Whether it asks for this row.
    fn is_of(&self, row: u64) -> bool {
        self.row == row || self.is_any && self.row / 4 == row / 4
    }
}
