//! Counters of the threads of connections, for the thread that watches.

ghost use Rattle.std.specs.Prelude.{◌≡◌, ◌↔◌, IsTrue};
ghost use Rattle.linda_net_marks.specs.Counting.{no_tally};
ghost use Rattle.linda_wire.specs.declared.refusal.Refusal.TheVariants as refusals;
ghost use Rattle.linda_wire.specs.Refusal.{refused};

use crate::busy::BusyRuns;
use crate::elapsed::millis_of;
use crate::notice::Notice;
use crate::refusals::{RefusalCounters, RefusalReason, RefusalValues, why_of};
use linda_wire::{Message, Refusal, Reply};
use std::alloc::Global;
use std::sync::atomic::{AtomicU64, Ordering};
use std::sync::{Mutex, Wait};
use std::time::{Clock, Instant};

/// How often something happened since the connections began to be served.
#[derive(Clone, Copy, Debug, PartialEq, Eq)]
pub struct CounterValues {
    /// How many connections came.
    pub came: u64,
    /// How many of them are over.
    pub over: u64,
    /// How many puts and takes were refused since the bank is full.
    pub refused: u64,
    /// How many connections were closed since no thread could be had.
    pub closed: u64,
    /// How often a connection could not be had.
    pub missed: u64,
    /// How often clients were refused for what an operator may mend.
    pub turned: RefusalValues,
    /// How many connections were ended since their clients held a tuple and said nothing.
    pub late: u64,
    /// How many groups the loops served.
    pub groups: u64,
    /// How many messages those had.
    pub messages: u64,
    /// For how many microseconds the loops waited for the server and served those groups.
    pub took: u64,
}

impl CounterValues {
    /// Nothing happened yet.
    pub fn none() -> CounterValues
        ensures { result ≡ no_tally }
    {
        CounterValues {
            came: 0,
            over: 0,
            refused: 0,
            closed: 0,
            missed: 0,
            turned: RefusalValues::none(),
            late: 0,
            groups: 0,
            messages: 0,
            took: 0,
        }
    }
}

/// The counts, which threads share. Nobody waits for them.
#[derive(Drop)]
pub struct Counters {
    came: AtomicU64,
    over: AtomicU64,
    refused: AtomicU64,
    closed: AtomicU64,
    missed: AtomicU64,
    turned: RefusalCounters,
    late: AtomicU64,
    groups: AtomicU64,
    messages: AtomicU64,
    took: AtomicU64,
    // What came of the last snapshot, until it is reported.
    snapshot: Mutex<Option<Notice>>,
    busy: Mutex<Busy>,
}

/// The clients that are refused Busy again and again.
#[derive(Drop)]
struct Busy {
    // When the first one was refused.
    since: Option<Instant>,
    runs: BusyRuns,
}

impl Counters {
    /// Nothing happened yet.
    pub fn new(alloc: Global) -> Counters {
        Counters {
            came: AtomicU64::new(0),
            over: AtomicU64::new(0),
            refused: AtomicU64::new(0),
            closed: AtomicU64::new(0),
            missed: AtomicU64::new(0),
            turned: RefusalCounters::new(),
            late: AtomicU64::new(0),
            groups: AtomicU64::new(0),
            messages: AtomicU64::new(0),
            took: AtomicU64::new(0),
            snapshot: Mutex::new(None),
            busy: Mutex::new(Busy {
                since: None,
                runs: BusyRuns::new(alloc),
            }),
        }
    }

    /// A connection came.
    pub fn count_connection(&self) {
        let _ = self.came.fetch_add(1, Ordering::SeqCst);
    }

    /// A connection is over.
    pub fn count_end(&self) {
        let _ = self.over.fetch_add(1, Ordering::SeqCst);
    }

    /// A connection is ended since its client holds a tuple and said nothing for too long.
    pub fn count_lapse(&self) {
        let _ = self.late.fetch_add(1, Ordering::SeqCst);
    }

    /// A connection is closed since no thread can be had.
    pub fn count_unserved(&self) {
        let _ = self.closed.fetch_add(1, Ordering::SeqCst);
    }

    /// A connection cannot be had.
    pub fn count_missed(&self) {
        let _ = self.missed.fetch_add(1, Ordering::SeqCst);
    }

    /// A group of so many messages is served.
    pub fn count_group(&self, count: usize) {
        let _ = self.groups.fetch_add(1, Ordering::SeqCst);
        let _ = self.messages.fetch_add(count as u64, Ordering::SeqCst);
    }

    /// A group took so many microseconds.
    pub fn add_serving_micros(&self, micros: u64) {
        let _ = self.took.fetch_add(micros, Ordering::SeqCst);
    }

    /// This reply goes out: if it says that the bank is full, or refuses its client for what an
    /// operator may mend, that is counted; but that a number is in use is counted by
    /// `count_refused_greeting`.
    pub fn count_reply(&self, reply: &Reply) {
        if tells_full(reply) {
            let _ = self.refused.fetch_add(1, Ordering::SeqCst);
        }
        if let Some(why) = why_of(reply) {
            if why != RefusalReason::Busy {
                self.turned.add(why);
            }
        }
    }

    /// A greeting is refused with this code. If the number is in use, and was asked for again and
    /// again for a second, that is counted.
    pub fn count_refused_greeting<R: Wait + Clock>(&self, rt: &R, greeting: &Message, code: u8) {
        let Message::Hello { client, .. } = greeting else {
            return;
        };
        if code == Refusal::Busy.code() && self.busy.lock(rt).refuse(rt, *client) {
            self.turned.add(RefusalReason::Busy);
        }
    }

    /// This came of a snapshot.
    pub fn keep_snapshot<R: Wait>(&self, rt: &R, notice: Notice) {
        *self.snapshot.lock(rt) = Some(notice);
    }

    /// What came of the last snapshot, if it was not reported yet.
    pub fn take_snapshot<R: Wait>(&self, rt: &R) -> Option<Notice> {
        self.snapshot.lock(rt).take()
    }

    /// The counts now.
    pub fn tally(&self) -> CounterValues {
        CounterValues {
            came: self.came.load(Ordering::SeqCst),
            over: self.over.load(Ordering::SeqCst),
            refused: self.refused.load(Ordering::SeqCst),
            closed: self.closed.load(Ordering::SeqCst),
            missed: self.missed.load(Ordering::SeqCst),
            turned: self.turned.now(),
            late: self.late.load(Ordering::SeqCst),
            groups: self.groups.load(Ordering::SeqCst),
            messages: self.messages.load(Ordering::SeqCst),
            took: self.took.load(Ordering::SeqCst),
        }
    }
}

impl Busy {
    // A client is refused now. Says whether that counts.
    fn refuse<R: Clock>(&mut self, rt: &R, client: u32) -> bool {
        let Ok(now) = Instant::now(rt) else {
            return false;
        };
        let since = *self.since.get_or_insert(now);
        let millis = millis_of(now.duration_since(since));
        match self.runs.refuse(client, millis) {
            Ok(counts) => counts,
            Err(_) => false,
        }
    }
}

// Whether the reply says that the bank is full.
fn tells_full(reply: &Reply) -> bool
    ensures { IsTrue result ↔ (reply.now ≡ refused refusals.Full) }
{
    match reply {
        Reply::Refused { code, detail } => {
            *code == Refusal::Full.code() && *detail == Refusal::Full.detail()
        }
        Reply::Welcome { .. } => false,
        Reply::Stored { .. } => false,
        Reply::Offer { .. } => false,
        Reply::Read { .. } => false,
        Reply::Taken { .. } => false,
        Reply::Gone { .. } => false,
        Reply::Left { .. } => false,
    }
}
