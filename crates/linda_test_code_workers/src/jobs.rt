//! A worker that puts jobs and takes as many, and the list of all that were put and taken.

use linda_shared::{Next, Worker};
use linda_test_server::{ask, number_in, put};
use linda_tuple::Pattern;
use linda_wire::{Message, Reply};
use std::alloc::{AllocError, Global};
use std::sync::Wait;
use std::sync::atomic::{AtomicU64, Ordering};
use std::time::Clock;

/// By id, what was put and what was taken: the job's number and one; 0 if nothing was. And how
/// often an id came twice, or a tuple that is no job.
#[derive(Drop)]
pub(super) struct CounterValues {
    put: Vec<AtomicU64>,
    taken: Vec<AtomicU64>,
    wrong: AtomicU64,
}

impl CounterValues {
    /// For ids below this one.
    pub(super) fn new(alloc: Global, end: usize) -> Result<CounterValues, AllocError> {
        let mut all = Vec::new(alloc);
        let mut taken = Vec::new(alloc);
        for _ in 0..end {
            all.push(AtomicU64::new(0))?;
            taken.push(AtomicU64::new(0))?;
        }
        Ok(CounterValues {
            put: all,
            taken,
            wrong: AtomicU64::new(0),
        })
    }

    /// Whether each id from 1 on was put once and taken once, and what was taken is what was put.
    pub(super) fn is_even(&self) -> bool {
        for (put, taken) in self.put.iter().zip(&self.taken).skip(1) {
            let put = put.load(Ordering::SeqCst);
            if put == 0 || put != taken.load(Ordering::SeqCst) {
                return false;
            }
        }
        self.wrong.load(Ordering::SeqCst) == 0
    }

    fn note_put(&self, id: u64, job: u64) {
        self.note(&self.put, id, Some(job));
    }

    fn note_taken(&self, id: u64, job: Option<i64>) {
        let job = match job {
            Some(job) => u64::try_from(job).ok(),
            None => None,
        };
        self.note(&self.taken, id, job);
    }

    fn note(&self, all: &[AtomicU64], id: u64, job: Option<u64>) {
        let place = match usize::try_from(id) {
            Ok(id) => all.get(id),
            Err(_) => None,
        };
        let is_new = match (place, job) {
            (Some(place), Some(job)) => { place.swap(job.saturating_add(1), Ordering::SeqCst) == 0 }
            _ => false,
        };
        if !is_new {
            self.wrong.fetch_add(1, Ordering::SeqCst);
        }
    }
}

/// Puts so many jobs, numbered from 0 on, and then takes as many. If a request of it came to
/// nothing, neither a `Stored` nor a `Taken`, it ends and waits for nothing more.
#[derive(Drop)]
pub(super) struct Jobs<'t> {
    alloc: Global,
    tally: &'t CounterValues,
    all: u64,
    number: u64,
    stored: u64,
    ticket: u64,
    taken: u64,
    offered: Option<u64>,
}

impl<'t> Jobs<'t> {
    /// Nothing is put yet.
    pub(super) fn new(alloc: Global, tally: &'t CounterValues, all: u64) -> Jobs<'t> {
        Jobs {
            alloc,
            tally,
            all,
            number: 0,
            stored: 0,
            ticket: 0,
            taken: 0,
            offered: None,
        }
    }

    fn hear(&mut self, reply: &Reply) {
        match reply {
            Reply::Stored { id, .. } => {
                self.tally.note_put(*id, self.stored);
                self.stored = self.stored.saturating_add(1);
            }
            Reply::Offer { id, .. } => self.offered = Some(*id),
            Reply::Taken { id, tuple, .. } => {
                self.tally.note_taken(*id, number_in(tuple));
                self.taken = self.taken.saturating_add(1);
            }
            _ => {}
        }
    }

    // What it sends next; none if it waits for an offer.
    fn message(&mut self) -> Result<Option<Message>, AllocError> {
        if self.number < self.all {
            let job = i64::try_from(self.number).unwrap_or(0);
            self.number = self.number.saturating_add(1);
            return Ok(Some(put(self.alloc, self.number, "job", job)?));
        }
        if let Some(id) = self.offered.take() {
            self.number = self.number.saturating_add(1);
            return Ok(Some(Message::Accept {
                n: self.number,
                ticket: self.ticket,
                id,
            }));
        }
        if self.ticket == self.taken {
            self.ticket = self.ticket.saturating_add(1);
            return Ok(Some(ask(self.alloc, self.ticket, "job", Pattern::IntFormal)?));
        }
        Ok(None)
    }
}

impl<'t> Worker for Jobs<'t> {
    fn next<R: Wait + Clock>(&mut self, rt: &R, replies: &[Reply]) -> Next {
        let _ = rt;
        for reply in replies {
            self.hear(reply);
        }
        if self.taken >= self.all {
            return Next::Done;
        }
        match self.message() {
            Ok(Some(message)) => Next::Send(message),
            Ok(None) => {
                if self.number == self.stored.saturating_add(self.taken) {
                    Next::Wait
                } else {
                    Next::Done
                }
            }
            Err(_) => Next::Done,
        }
    }
}
