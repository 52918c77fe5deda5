//! Refusals that are reported to an operator, and how often each went out.

ghost use Rattle.std.specs.Prelude.{◌≡◌};
ghost use Rattle.linda_net_marks.specs.Counting.{more_than, none_refused, why_of, why_of_code};

use linda_wire::{Refusal, Reply};
use std::sync::atomic::{AtomicU64, Ordering};

/// Why a client was refused.
#[derive(Clone, Copy, Debug, PartialEq, Eq)]
pub enum RefusalReason {
    /// Another connection has its number.
    Busy,
    /// The server keeps as many clients as it can.
    Clients,
    /// It greeted in another version, as a client that was never used and was, or not at all.
    Greeting,
    /// What it sent is no message: its connection ends.
    Malformed,
}

/// How often clients were refused, by the reason.
#[derive(Clone, Copy, Debug, PartialEq, Eq)]
pub struct RefusalValues {
    pub busy: u64,
    pub clients: u64,
    pub greetings: u64,
    pub malformed: u64,
}

impl RefusalValues {
    /// Nobody was refused.
    pub fn none() -> RefusalValues
        ensures { result ≡ none_refused }
    {
        RefusalValues {
            busy: 0,
            clients: 0,
            greetings: 0,
            malformed: 0,
        }
    }

    /// How many more there are than before.
    pub fn since(&self, before: &RefusalValues) -> RefusalValues
        ensures { result ≡ more_than self.now before.now }
    {
        RefusalValues {
            busy: self.busy.saturating_sub(before.busy),
            clients: self.clients.saturating_sub(before.clients),
            greetings: self.greetings.saturating_sub(before.greetings),
            malformed: self.malformed.saturating_sub(before.malformed),
        }
    }
}

/// The counts, which threads share. Nobody waits for them.
#[derive(Drop)]
pub(crate) struct RefusalCounters {
    busy: AtomicU64,
    clients: AtomicU64,
    greetings: AtomicU64,
    malformed: AtomicU64,
}

impl RefusalCounters {
    /// Nobody was refused.
    pub(crate) fn new() -> RefusalCounters {
        RefusalCounters {
            busy: AtomicU64::new(0),
            clients: AtomicU64::new(0),
            greetings: AtomicU64::new(0),
            malformed: AtomicU64::new(0),
        }
    }

    /// A client was refused so.
    pub(crate) fn add(&self, why: RefusalReason) {
        let count = match why {
            RefusalReason::Busy => &self.busy,
            RefusalReason::Clients => &self.clients,
            RefusalReason::Greeting => &self.greetings,
            RefusalReason::Malformed => &self.malformed,
        };
        let _ = count.fetch_add(1, Ordering::SeqCst);
    }

    /// The counts now.
    pub(crate) fn now(&self) -> RefusalValues {
        RefusalValues {
            busy: self.busy.load(Ordering::SeqCst),
            clients: self.clients.load(Ordering::SeqCst),
            greetings: self.greetings.load(Ordering::SeqCst),
            malformed: self.malformed.load(Ordering::SeqCst),
        }
    }
}

/// Why the reply refuses its client, if that is for an operator to know.
pub(crate) fn why_of(reply: &Reply) -> Option<RefusalReason>
    ensures { result ≡ why_of reply.now }
{
    match reply {
        Reply::Welcome { .. } => None,
        Reply::Stored { .. } => None,
        Reply::Offer { .. } => None,
        Reply::Read { .. } => None,
        Reply::Taken { .. } => None,
        Reply::Gone { .. } => None,
        Reply::Refused { code, .. } => why_of_code(*code),
        Reply::Left { .. } => None,
    }
}

// Why a refusal of this code is sent, if that is for an operator to know.
fn why_of_code(code: u8) -> Option<RefusalReason>
    ensures { result ≡ why_of_code code }
{
    if code == Refusal::Busy.code() {
        Some(RefusalReason::Busy)
    } else if code == Refusal::TooManyClients.code() {
        Some(RefusalReason::Clients)
    } else if code == Refusal::Malformed(0).code() {
        Some(RefusalReason::Malformed)
    } else if code == Refusal::Version.code() {
        Some(RefusalReason::Greeting)
    } else if code == Refusal::Known(0).code() {
        Some(RefusalReason::Greeting)
    } else if code == Refusal::NoHello.code() {
        Some(RefusalReason::Greeting)
    } else {
        None
    }
}
