//! Standings of a client, one at each of its servers.

ghost use Rattle.std.specs.Prelude.{◌≡◌, IfOk, map, max, true};
ghost use Rattle.linda_call.specs.Standings as spec;

use super::numbers::number_of;
use linda_wire::{Message, Reply};
use std::alloc::{AllocError, Global};

/// What answers the last numbered message that a server was sent.
#[derive(Clone, Copy, Debug, PartialEq, Eq)]
pub(super) enum AwaitedReply {
    /// Nothing is unanswered.
    Nothing,
    /// A tuple is stored.
    Stored,
    /// The tuple of this id is taken, or gone.
    Taken(u64),
    /// The client has left.
    Left,
}

/// What it comes to that a server welcomes the client.
#[derive(Clone, Copy, Debug, PartialEq, Eq)]
pub(super) enum Meeting {
    /// It keeps what it answered, and no more than it was sent.
    Known,
    /// It has lost what it answered.
    Restored,
    /// Another program uses the client's number there.
    InUse,
}

/// The client's standing with one server.
#[derive(Clone, Copy, Debug)]
pub(super) struct ServerStanding {
    /// It was welcomed.
    pub(super) is_met: bool,
    /// The last number that the server kept before the client began.
    pub(super) base: u64,
    /// The last number that the server is known to keep a reply for.
    pub(super) kept: u64,
    /// The last number that the server was sent; 0 if none was.
    pub(super) sent: u64,
    /// What answers that, if it is unanswered.
    pub(super) wants: AwaitedReply,
    /// Asks were sent there again during this synchronization.
    pub(super) asked_again: bool,
}

/// A server that was not met yet.
const UNMET: ServerStanding = ServerStanding {
    is_met: false,
    base: 0,
    kept: 0,
    sent: 0,
    wants: AwaitedReply::Nothing,
    asked_again: false,
};

/// One for each of so many servers, of which none was met yet.
///
/// # Errors
///
/// `AllocError` if memory runs out.
pub(super) fn unmet(alloc: Global, servers: usize) -> Result<Vec<ServerStanding>, AllocError>
    ensures { IfOk result (λ all. all.items ≡ spec.all_unmet servers) }
{
    vec![in alloc; UNMET; servers]
}

/// The number of the first that was not met.
pub(super) fn first_unmet(standings: &[ServerStanding]) -> Option<u32>
    ensures { result ≡ spec.first_unmet 0 standings.now }
{
    let mut server: u32 = 0;
    for standing in standings {
        if !standing.is_met {
            return Some(server);
        }
        server = server.saturating_add(1);
    }
    None
}

/// The client's standing with the server of this number, or that with one that was not met if there
/// is none.
pub(super) fn standing_at(standings: &[ServerStanding], server: u32) -> ServerStanding
    ensures { result ≡ spec.standing_at standings.now server }
{
    let place = server as usize;
    if place < standings.len() {
        standings[place]
    } else {
        UNMET
    }
}

/// The server of this number gets this standing, if there is one.
pub(super) fn put(standings: &mut Vec<ServerStanding>, server: u32, standing: ServerStanding)
    ensures { standings.new.items ≡ spec.with_standing standings.old.items server standing }
{
    let place = server as usize;
    if place < standings.len() {
        standings[place] = standing;
    }
}

/// What was pending has ended: nothing was asked for again since.
pub(super) fn settle(standings: &mut Vec<ServerStanding>)
    ensures { standings.new.items ≡ map spec.settled standings.old.items }
{
    for standing in standings.iter_mut() {
        standing.asked_again = false;
    }
}

impl ServerStanding {
    /// The server welcomes the client with this number, for the first time or again. What that
    /// comes to.
    pub(super) fn welcomes(&mut self, last: u64, goes_on: bool) -> Meeting
        ensures after { self.new ≡ spec.welcomed goes_on last self.old }
        ensures meeting { result ≡ spec.meeting last self.old }
    {
        if self.is_met {
            return self.meets_again(last);
        }
        self.is_met = true;
        self.kept = last;
        if goes_on {
            self.base = last;
        }
        Meeting::Known
    }

    // What it comes to that the server, which was met before, welcomes the client with this number.
    fn meets_again(&self, last: u64) -> Meeting
        ensures { self.now.is_met ≡ true → result ≡ spec.meeting last self.now }
    {
        if last < self.kept {
            return Meeting::Restored;
        }
        if last > self.kept.max(self.sent) {
            return Meeting::InUse;
        }
        Meeting::Known
    }

    /// The server is sent this message, which has its own numbers.
    pub(super) fn sends(&mut self, message: &Message)
        ensures { self.new ≡ spec.sent_on message.now self.old }
    {
        match message {
            Message::Out { n, .. } => self.waits_for(*n, AwaitedReply::Stored),
            Message::Accept { n, id, .. } => self.waits_for(*n, AwaitedReply::Taken(*id)),
            Message::Leave { n } => self.waits_for(*n, AwaitedReply::Left),
            _ => {}
        }
    }

    /// The server is sent a tuple beside the client, which counts on after it. The number of the
    /// message.
    pub(super) fn puts(&mut self) -> u64
        ensures number { result ≡ spec.next_number self.old }
        ensures after { self.new ≡ spec.put_beside self.old }
    {
        self.sent = self.kept.max(self.sent).saturating_add(1);
        self.wants = AwaitedReply::Stored;
        self.base = self.base.saturating_add(1);
        self.sent
    }

    // The server is sent a message of this number, which is to be answered so.
    fn waits_for(&mut self, n: u64, wants: AwaitedReply)
        ensures { self.new ≡ record self.old { sent = max self.old.sent n; wants = wants } }
    {
        self.sent = self.sent.max(n);
        self.wants = wants;
    }

    /// Whether the reply answers the number of an unanswered message, and cannot answer that: then
    /// another program sent the server a message of this number.
    pub(super) fn is_foreign(&self, reply: &Reply) -> bool
        ensures { result ≡ spec.is_foreign self.now reply.now }
    {
        self.is_unanswered(number_of(reply)) && !fits(self.wants, reply)
    }

    // Whether the number is that of a message that is unanswered.
    fn is_unanswered(&self, number: Option<u64>) -> bool
        ensures { result ≡ spec.is_unanswered self.now number }
    {
        match number {
            Some(n) => n > self.kept && n <= self.sent,
            None => false,
        }
    }

    /// The server answered this number, if it answered one.
    pub(super) fn answers(&mut self, number: Option<u64>)
        ensures { self.new ≡ spec.answered self.old number }
    {
        if let Some(number) = number {
            self.kept = self.kept.max(number);
            if number >= self.sent {
                self.wants = AwaitedReply::Nothing;
            }
        }
    }
}

// Whether the reply can answer what is wanted.
fn fits(wants: AwaitedReply, reply: &Reply) -> bool
    ensures { result ≡ spec.fits wants reply.now }
{
    match wants {
        AwaitedReply::Nothing => true,
        AwaitedReply::Stored => matches!(reply, Reply::Stored { .. }),
        AwaitedReply::Taken(wanted) => match reply {
            Reply::Taken { id, .. } => *id == wanted,
            Reply::Gone { .. } => true,
            _ => false,
        },
        AwaitedReply::Left => matches!(reply, Reply::Left { .. }),
    }
}
