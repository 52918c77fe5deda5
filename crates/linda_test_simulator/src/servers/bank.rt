//! Bank of a server in a run: how many bytes of it are taken, by "Banks" of `docs/PROTOCOL.md`, and
//! what finds no room in it.

use crate::servers::words::{Said, Told};

/// The bytes before a snapshot: a gate, the letters, the generation and the snapshot's length.
const HEAD: usize = 17;

/// The bytes of a snapshot of nothing: the next id and two counts.
const EMPTY: usize = 16;

/// The bytes before the deeds of a record: its gate and its length.
const RECORD: usize = 5;

/// The gate after the last record.
const GATE: usize = 1;

/// The most deeds of a record.
const MOST_DEEDS: usize = 64;

/// The bytes of a client and a number with the kind of a deed, and those of an id, or a tuple.
const DEED: usize = 13;

const ID: usize = 8;

const TUPLE: usize = 14;

/// What is taken of a bank.
#[derive(Clone, Copy, PartialEq, Eq)]
pub struct Taken {
    /// Its bytes, up to the gate that ends the journal.
    pub used: usize,
    pub records: usize,
}

impl Taken {
    // With so many deeds more, of so many bytes, which come at once.
    fn with(self, deeds: usize, bytes: usize) -> Taken {
        let records = deeds.saturating_add(MOST_DEEDS - 1) / MOST_DEEDS;
        Taken {
            used: self
                .used
                .saturating_add(records.saturating_mul(RECORD))
                .saturating_add(bytes),
            records: self.records.saturating_add(records),
        }
    }

    fn fits(self, limit: usize) -> bool {
        self.used.saturating_add(GATE) <= limit
    }
}

/// The bank in use, and the next one while a snapshot is taken in steps.
#[derive(Clone, Copy)]
pub struct Bank {
    /// The most bytes that a bank takes.
    pub limit: usize,
    pub now: Taken,
    pub next: Option<Taken>,
    /// The next bank may be given up, as memory was refused.
    pub may_lack_next: bool,
    /// How many snapshots in steps were given up for room.
    pub given_up: u64,
    /// The server went down in a snapshot, or in a step of one: the next bank may be in use.
    pub may_be_next: bool,
    // The deeds of the group that is served, and what there was before.
    deeds: usize,
    bytes: usize,
    before: Taken,
    before_next: Option<Taken>,
    // The group has no room: each of its messages goes by itself.
    is_tight: bool,
    // A deed found no room since a snapshot was tried, which was at so many records.
    lacks_room: bool,
    tried: usize,
}

impl Bank {
    /// A bank of nothing, which takes so many bytes at most.
    pub fn new(limit: usize) -> Bank {
        let mut bank = Bank {
            limit,
            now: snapshot_of(EMPTY),
            next: None,
            may_lack_next: false,
            given_up: 0,
            may_be_next: false,
            deeds: 0,
            bytes: 0,
            before: snapshot_of(EMPTY),
            before_next: None,
            is_tight: false,
            lacks_room: false,
            tried: 0,
        };
        bank.reopen(limit, snapshot_of(EMPTY));
        bank
    }

    /// The server was opened, with this limit, on a bank of which this is taken.
    pub fn reopen(&mut self, limit: usize, now: Taken) {
        self.limit = limit;
        self.may_be_next = false;
        self.switch(now);
    }

    // A bank is in use of which this is taken.
    fn switch(&mut self, now: Taken) {
        self.now = now;
        self.next = None;
        self.is_tight = false;
        self.lacks_room = false;
        self.tried = 0;
        self.begin();
    }

    fn begin(&mut self) {
        self.deeds = 0;
        self.bytes = 0;
        self.before = self.now;
        self.before_next = self.next;
    }

    /// Whether so many deeds of so many bytes have room, as they come at once.
    pub fn has_room(&self, deeds: usize, bytes: usize) -> bool {
        deeds == 0 || self.now.with(deeds, bytes).fits(self.limit)
    }

    /// A group of messages is served, whose deeds have room, or not.
    pub fn begin_group(&mut self, has_room: bool) {
        self.is_tight = !has_room;
        self.lacks_room = self.lacks_room || !has_room;
        self.begin();
    }

    /// Whether messages go one by one, as there is no room for all.
    pub fn is_tight(&self) -> bool {
        self.is_tight
    }

    /// Whether a deed of so many bytes is refused.
    pub fn refuses(&self, bytes: usize) -> bool {
        self.is_tight && !self.has_room(1, bytes)
    }

    /// A deed of so many bytes is done.
    pub fn add(&mut self, bytes: usize) {
        if self.is_tight {
            self.begin();
        }
        self.deeds = self.deeds.saturating_add(1);
        self.bytes = self.bytes.saturating_add(bytes);
        self.now = self.before.with(self.deeds, self.bytes);
        let next = match self.before_next {
            Some(before) => some_if_fits(before.with(self.deeds, self.bytes), self.limit),
            None => None,
        };
        if self.next.is_some() && next.is_none() {
            self.given_up = self.given_up.saturating_add(1);
        }
        self.next = next;
    }

    /// A snapshot of so many bytes is taken. Says whether there is room for it.
    pub fn renew(&mut self, len: usize) -> bool {
        let new = snapshot_of(len);
        let is_done = new.fits(self.limit);
        if is_done {
            self.switch(new);
        } else {
            self.try_one();
        }
        is_done
    }

    /// A snapshot of so many bytes begins. Says whether there is room for it.
    pub fn begin_next(&mut self, len: usize) -> bool {
        let new = snapshot_of(len);
        self.try_one();
        if new.fits(self.limit) {
            self.next = Some(new);
            self.may_lack_next = false;
            return true;
        }
        false
    }

    /// The next bank is given up, if it may be.
    pub fn give_up_next(&mut self) {
        if self.may_lack_next {
            self.next = None;
        }
    }

    /// The next bank is in use.
    pub fn end_next(&mut self) {
        if let Some(next) = self.next {
            self.switch(next);
        }
    }

    fn try_one(&mut self) {
        self.tried = self.now.records;
        self.lacks_room = false;
    }

    /// Whether a snapshot is due for room.
    pub fn is_due(&self) -> bool {
        self.lacks_room && self.tried < self.now.records
    }

    /// Whether a server may be opened on a bank of which this is taken; a snapshot of what it keeps
    /// has so many bytes.
    pub fn may_be(&self, taken: Taken, len: usize) -> bool {
        let is_next = taken == snapshot_of(len) || Some(taken) == self.next;
        taken == self.now || self.may_be_next && is_next
    }
}

// What a snapshot of so many bytes takes of a bank.
fn snapshot_of(len: usize) -> Taken {
    Taken {
        used: len.saturating_add(HEAD),
        records: 0,
    }
}

fn some_if_fits(it: Taken, limit: usize) -> Option<Taken> {
    if it.fits(limit) { Some(it) } else { None }
}

/// How many bytes the deed of a numbered message has; none if it is not numbered.
pub fn deed_len(said: Said) -> Option<usize> {
    match said {
        Said::Out { .. } => Some(DEED + TUPLE),
        Said::Accept { .. } => Some(DEED + ID),
        Said::Leave { .. } => Some(DEED),
        _ => None,
    }
}

/// How many bytes a tuple and its id have in a snapshot.
pub const ITEM: usize = ID + TUPLE;

/// How many bytes a client with its number and its kept reply has in a snapshot.
pub fn last_len(reply: Told) -> usize {
    let reply = match reply {
        Told::Stored { .. } => ID,
        Told::Taken { .. } => ID + TUPLE,
        _ => 0,
    };
    reply.saturating_add(DEED)
}

/// How many bytes a snapshot has of so many tuples, and of clients that have so many bytes.
pub fn snapshot_len(items: usize, lasts: usize) -> usize {
    EMPTY
        .saturating_add(items.saturating_mul(ITEM))
        .saturating_add(lasts)
}
