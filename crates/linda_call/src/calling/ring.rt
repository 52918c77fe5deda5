//! Puts under way of a call that puts together, in the order of its lines.

ghost use Rattle.std.specs.Prelude.{◌≡◌, ◌≤◌, ◌+◌, ◌%◌, ◌++◌, ◌∷◌, [], map, nat_le, OnOk, OnErr};
ghost use Rattle.std.specs.Prelude.{option_copied, vec_len};
ghost use Rattle.std.specs.List.{list_any};
ghost use Rattle.linda_call.specs.Ring as spec;

use linda_tuple::Tuple;
use linda_wire::Message;
use std::alloc::{AllocError, Global};

/// The most puts that are under way.
pub(super) const MOST: usize = 64;

/// What is known of a put.
#[derive(Clone, Copy, Debug, PartialEq, Eq)]
pub(super) enum PutStatus {
    /// Its server has not answered it.
    Open,
    /// Its tuple is stored under this id.
    Stored(u64),
    /// Its tuple is stored, and the id was lost with a connection.
    Lost,
    /// Its server refused it, or one before it, with this code and this detail.
    Refused(u8, u64),
}

/// What comes of puts.
#[derive(Clone, Copy, Debug, PartialEq, Eq)]
pub(super) enum PutEvent {
    /// A server stored a tuple for its message of this number, under this id.
    Stored { server: u32, number: u64, id: u64 },
    /// A server welcomed the client again, with this number.
    Welcomed { server: u32, last: u64 },
    /// A server refused a message.
    Refused { server: u32, code: u8, detail: u64 },
}

/// A tuple that was put: its server, its number and its message there, and what is known of it.
#[derive(Drop)]
pub(super) struct Put {
    server: u32,
    number: u64,
    message: Message,
    fate: PutStatus,
}

/// The puts under way, in the order of their lines, and the server of the next one.
#[derive(Drop)]
pub(super) struct PutRing {
    puts: Vec<Put>,
    next: u32,
}

impl Put {
    // Whether the put waits for an answer of the server.
    fn is_open_at(&self, server: u32) -> bool
        ensures { result ≡ spec.is_open_at server self.now }
    {
        self.fate == PutStatus::Open && self.server == server
    }

    // Whether the put waits at the server, for an answer or to be reported as refused.
    fn waits_at(&self, server: u32) -> bool
        ensures { result ≡ spec.waits_at server self.now }
    {
        let waits = match self.fate {
            PutStatus::Open => true,
            PutStatus::Refused(_, _) => true,
            PutStatus::Stored(_) => false,
            PutStatus::Lost => false,
        };
        waits && self.server == server
    }

    // What is known of the put after these news.
    fn fate_after(&self, news: PutEvent) -> PutStatus
        ensures { result ≡ spec.fate_after news self.now }
    {
        match news {
            PutEvent::Stored { server, number, id } => {
                if self.is_open_at(server) && self.number == number {
                    return PutStatus::Stored(id);
                }
            }
            PutEvent::Welcomed { server, last } => {
                if self.is_open_at(server) && self.number < last {
                    return PutStatus::Lost;
                }
            }
            PutEvent::Refused {
                server,
                code,
                detail,
            } => {
                if self.is_open_at(server) {
                    return PutStatus::Refused(code, detail);
                }
            }
        }
        self.fate
    }
}

impl PutRing {
    /// Nothing is under way; the first put of this client goes to the server that its number leaves
    /// by the count of servers.
    pub(super) fn new(alloc: Global, client: u32, servers: u32) -> PutRing
        requires { 1 ≤ servers }
        ensures puts { result.puts.items ≡ [] }
        ensures next { result.next ≡ client % servers }
    {
        PutRing {
            puts: Vec::new(alloc),
            next: client % servers,
        }
    }

    /// The server of the next put.
    pub(super) fn turn(&self) -> u32
        ensures { result ≡ self.now.next }
    {
        self.next
    }

    /// Whether nothing is under way.
    pub(super) fn is_empty(&self) -> bool
        ensures { result ≡ nat_le (vec_len self.now.puts) 0 }
    {
        self.puts.len() == 0
    }

    /// Whether as many puts are under way as may be.
    pub(super) fn is_full(&self) -> bool
        ensures { result ≡ nat_le 64 (vec_len self.now.puts) }
    {
        self.puts.len() >= MOST
    }

    /// A tuple is put, under this number, at the server whose turn it is. The turn passes on.
    ///
    /// # Errors
    ///
    /// `AllocError`: nothing has changed.
    pub(super) fn push(&mut self, servers: u32, number: u64, tuple: Tuple) -> Result<(), AllocError>
        ensures puts { OnOk result (self.new.puts.items
            ≡ self.old.puts.items ++ spec.new_put self.old.next number tuple ∷ []) }
        ensures next { OnOk result (self.new.next ≡ spec.turn_after servers self.old.next) }
        ensures same { OnErr result ((self.new.puts.items ≡ self.old.puts.items)
            × (self.new.next ≡ self.old.next)) }
    {
        let put = Put {
            server: self.next,
            number,
            message: Message::Out { n: number, tuple },
            fate: PutStatus::Open,
        };
        if self.puts.push(put).is_err() {
            return Err(AllocError);
        }
        self.next = turn_after(servers, self.next);
        Ok(())
    }

    /// The message of the last put.
    pub(super) fn last(&self) -> Option<&Message>
        ensures { option_copied result ≡ spec.last_message self.now.puts.items }
    {
        match self.puts.last() {
            Some(put) => Some(&put.message),
            None => None,
        }
    }

    /// Hears what comes of puts.
    pub(super) fn hears(&mut self, news: PutEvent)
        ensures puts { self.new.puts.items ≡ map (spec.after news) self.old.puts.items }
        ensures next { self.new.next ≡ self.old.next }
    {
        mark(&mut self.puts, news);
    }

    /// Whether a put waits at the server, for an answer or to be reported as refused.
    pub(super) fn waits_at(&self, server: u32) -> bool
        ensures { result ≡ list_any (spec.waits_at server) self.now.puts.items }
    {
        self.puts.iter().any(|put| put.waits_at(server))
    }

    /// The message of the put at this place of the ring, if it is to be sent again to the server:
    /// that has not answered it.
    pub(super) fn again(&self, server: u32, place: usize) -> Option<&Message>
        ensures { option_copied result ≡ spec.again server place self.now.puts.items }
    {
        match self.puts.get(place) {
            Some(put) => {
                if put.is_open_at(server) {
                    return Some(&put.message);
                }
                None
            }
            None => None,
        }
    }

    /// Takes the first put, if it is not open any more: its server, and what is known of it.
    pub(super) fn take(&mut self) -> Option<(u32, PutStatus)>
        ensures first { result ≡ spec.first_done self.old.puts.items }
        ensures rest { self.new.puts.items ≡ spec.left_after self.old.puts.items }
        ensures next { self.new.next ≡ self.old.next }
    {
        let done = first_done(&self.puts);
        if done.is_some() {
            let _put = self.puts.remove(0);
        }
        done
    }
}

// The server whose turn it is after this one.
fn turn_after(servers: u32, server: u32) -> u32
    ensures { result ≡ spec.turn_after servers server }
{
    if server >= servers.saturating_sub(1) {
        return 0;
    }
    server + 1
}

// Each put hears the news.
fn mark(puts: &mut Vec<Put>, news: PutEvent)
    ensures { puts.new.items ≡ map (spec.after news) puts.old.items }
{
    for put in puts.iter_mut() {
        put.fate = put.fate_after(news);
    }
}

// The server of the first put, and what is known of it, if it is not open.
fn first_done(puts: &[Put]) -> Option<(u32, PutStatus)>
    ensures { result ≡ spec.first_done puts.now }
{
    match puts {
        [] => None,
        [first, ..] => {
            if first.fate == PutStatus::Open {
                return None;
            }
            Some((first.server, first.fate))
        }
    }
}
