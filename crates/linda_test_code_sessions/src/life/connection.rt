//! Connection of a life: its line, its bytes on their way, and the two groups in which its messages
//! go to the server.

use super::line::{Line, greeted, joined};
use super::said::{Said, Told, message_of, told_of};
use super::{MEMORY, Wrong};
use linda_disk::Disk;
use linda_net_session::{OpenWays, Route, Session, Way};
use linda_shared::{MOST_ASKED, MessageGroup, Shared};
use linda_wire::{Message, ReplyFeed, encode_message};
use std::alloc::{AllocError, Global};
use std::sync::Wait;
use std::sync::ledger::Ledger;

/// For how many messages each group has room: few, so some have to wait.
const ROOM: usize = 6;

/// How many bytes a step of a snapshot writes, about.
const STEP: usize = 2_048;

/// What happens to a connection, or to its server.
#[derive(Clone, Copy)]
pub(super) enum Event {
    /// The client of this number says this.
    Say(u32, Said),
    /// So many bytes come at most, if they are wanted.
    Bring(usize),
    /// What its session has is taken, as far as there is room.
    Take,
    /// What makes no deed is served.
    ServeAsks,
    /// What makes no deed is served, and then the rest.
    Serve,
    /// So many bytes go out at most, and what is whole is read.
    Fetch(usize),
    /// It fails.
    Fail,
    /// No more bytes come.
    Shut,
    /// Its client departs, whose last request has this number. The next connection begins.
    Depart(u64),
    /// A snapshot is taken, or is begun, or takes a step, by a draw.
    Save(u64),
}

/// The state of a connection: how many messages were taken from its session, and whether all is
/// over.
#[derive(Clone, Copy)]
pub(super) struct Stand {
    pub(super) taken: u64,
    pub(super) is_over: bool,
}

/// The far end of a client.
pub(super) trait Far {
    /// This happens. The replies that it leads to join the rest.
    fn happens(&mut self, event: Event, told: &mut Vec<Told>) -> Result<Stand, Wrong>;
}

/// A connection, one after another of the same server.
#[derive(Drop)]
pub(super) struct Connection<'s, D: Disk, L: Ledger, R: Wait> {
    rt: &'s R,
    shared: &'s Shared<D, L>,
    alloc: Global,
    // What the client said and did not come yet, and the replies to it.
    wire: Vec<u8>,
    replies: ReplyFeed,
    line: Line<L>,
    asks: MessageGroup<usize, L>,
    deeds: MessageGroup<usize, L>,
    // How many messages were taken from its session.
    taken: u64,
}

impl<D: Disk, L: Ledger, R: Wait> Far for Connection<'_, D, L, R> {
    fn happens(&mut self, event: Event, told: &mut Vec<Told>) -> Result<Stand, Wrong> {
        self.act(event, told)?;
        Ok(Stand {
            taken: self.taken,
            is_over: self.line.session.is_over(),
        })
    }
}

impl<'s, D: Disk, L: Ledger, R: Wait> Connection<'s, D, L, R> {
    /// The first connection, of which nothing came.
    pub(super) fn new(
        rt: &'s R,
        alloc: Global,
        shared: &'s Shared<D, L>,
    ) -> Result<Connection<'s, D, L, R>, AllocError> {
        let asks = MessageGroup::new(alloc, ROOM)?;
        let deeds = MessageGroup::new(alloc, ROOM)?;
        Ok(Connection {
            rt,
            shared,
            alloc,
            wire: Vec::new(alloc),
            replies: ReplyFeed::new(alloc),
            line: Line::new(alloc),
            asks,
            deeds,
            taken: 0,
        })
    }

    // This happens.
    fn act(&mut self, event: Event, told: &mut Vec<Told>) -> Result<(), Wrong> {
        match event {
            Event::Say(client, said) => say(self.alloc, &mut self.wire, client, said),
            Event::Bring(most) => bring(&mut self.wire, &mut self.line.session, most),
            Event::Take => self.take(),
            Event::ServeAsks => self.serve_asks(),
            Event::Serve => self.serve(),
            Event::Fetch(most) => {
                fetch(&mut self.line.session, &mut self.replies, most)?;
                read(self.alloc, &mut self.replies, told)
            }
            Event::Fail => {
                self.line.session.fail();
                Ok(())
            }
            Event::Shut => {
                self.line.session.at_end();
                Ok(())
            }
            Event::Depart(last) => self.depart(last),
            Event::Save(draw) => save(self.rt, self.shared, draw),
        }
    }

    fn take(&mut self) -> Result<(), Wrong> {
        for _ in 0..=MOST_ASKED {
            let room = OpenWays {
                asks: self.asks.has_room(),
                deeds: self.deeds.has_room(),
            };
            let Some((message, route)) = self.line.session.next(room) else {
                return Ok(());
            };
            self.taken = self.taken.saturating_add(1);
            if !self.place(message, route) {
                return Err("a message has no place");
            }
        }
        Ok(())
    }

    // Puts a message where the session says that it goes. Returns whether it could.
    fn place(&mut self, message: Message, route: Route) -> bool {
        let Line {
            session,
            account,
            key,
            ..
        } = &mut self.line;
        match route {
            Route::Greet => match self.shared.admit(self.rt, &message) {
                Ok(answer) => {
                    *account = greeted(session, answer);
                    true
                }
                Err(_) => false,
            },
            Route::Busy => true,
            Route::Goes(Way::Asks) => joined(&mut self.asks, account, *key, message),
            Route::Goes(Way::Deeds) => joined(&mut self.deeds, account, *key, message),
            Route::Keep => false,
        }
    }

    fn serve_asks(&mut self) -> Result<(), Wrong> {
        self.line
            .serve(self.rt, self.shared, &mut self.asks, Way::Asks)
    }

    fn serve(&mut self) -> Result<(), Wrong> {
        self.serve_asks()?;
        self.line
            .serve(self.rt, self.shared, &mut self.deeds, Way::Deeds)
    }

    fn depart(&mut self, last: u64) -> Result<(), Wrong> {
        self.taken = 0;
        self.wire.clear();
        self.replies = ReplyFeed::new(self.alloc);
        self.line.depart(self.rt, self.shared, last)
    }
}

// The client of this number says this.
fn say(alloc: Global, wire: &mut Vec<u8>, client: u32, said: Said) -> Result<(), Wrong> {
    let Ok(message) = message_of(alloc, client, said) else {
        return Err(MEMORY);
    };
    match encode_message(wire, &message) {
        Ok(()) => Ok(()),
        Err(_) => Err(MEMORY),
    }
}

// So many bytes come at most, if they are wanted.
fn bring(wire: &mut Vec<u8>, session: &mut Session, most: usize) -> Result<(), Wrong> {
    if !session.wants_read() {
        return Ok(());
    }
    let count = wire.len().min(most);
    let left = wire.len() - count;
    let came = session.received(&wire[..count]);
    wire.rotate_left(count);
    wire.truncate(left);
    match came {
        Ok(()) => Ok(()),
        Err(_) => Err(MEMORY),
    }
}

// So many bytes go out at most, to this feed.
fn fetch(session: &mut Session, replies: &mut ReplyFeed, most: usize) -> Result<(), Wrong> {
    session.finish();
    let unsent = session.unsent();
    let count = unsent.len().min(most);
    let fed = replies.feed(&unsent[..count]);
    session.sent(count);
    session.shrink();
    match fed {
        Ok(()) => Ok(()),
        Err(_) => Err(MEMORY),
    }
}

// Reads all replies that are whole.
fn read(alloc: Global, replies: &mut ReplyFeed, told: &mut Vec<Told>) -> Result<(), Wrong> {
    for _ in 0..=replies.rest() {
        let reply = match replies.next(alloc) {
            Ok(Some(reply)) => told_of(&reply),
            Ok(None) => return Ok(()),
            Err(_) => None,
        };
        let Some(reply) = reply else {
            return Err("what went out is no frame, or has a tuple that nobody put");
        };
        if told.push(reply).is_err() {
            return Err(MEMORY);
        }
    }
    Ok(())
}

// A snapshot is taken, or is begun, or takes a step.
fn save<D: Disk, L: Ledger, R: Wait>(
    rt: &R,
    shared: &Shared<D, L>,
    draw: u64,
) -> Result<(), Wrong> {
    let is_done = match draw {
        0 => shared.snapshot(rt).is_ok(),
        1 => shared.begin_snapshot(rt).is_ok(),
        _ => shared.continue_snapshot(rt, STEP).is_ok(),
    };
    if is_done {
        Ok(())
    } else {
        Err("the server takes no snapshot")
    }
}
