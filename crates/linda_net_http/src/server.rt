//! A listener at which pages are asked for, and the connections that ask.

use crate::connection::HttpConnection;
use crate::listener::{Listener, PollListener};
use crate::pages::PageSource;
use crate::stream::Stream;
use mio::{Events, Poll, Registry, Token};
use std::alloc::Global;
use std::io;
use std::io::ErrorKind;
use std::net::Net;
use std::os::fd::OwnedFd;
use std::sync::{Mutex, Wait};
use std::time::{Clock, Duration, Instant};

/// The token of the listener. That of a connection is the number of its place and one more.
const LISTENER: usize = 0;

/// How many connections are there at most: more are closed at once.
const PLACES: usize = 64;

/// How many events are taken at once.
const EVENTS: usize = 128;

/// How many connections are let in before others are looked at.
const MOST_NEW: u32 = 64;

/// How often one connection is read before others are looked at.
const MOST_READS: u32 = 16;

/// How many bytes are read at once.
const PIECE: usize = 8_192;

/// How many bytes a page has at first.
const PAGE: usize = 8_192;

/// How many milliseconds the server waits if nothing happens: then it looks whether it is over.
const QUIET: u64 = 100;

/// A listener at which pages are asked for, and the connections that ask. At most 64 connections
/// are there, each for ten seconds and a tenth of one at most if the clock does not fail; none is
/// waited for. One descriptor is kept back: so somebody is answered if the process may have no
/// more.
#[derive(Drop)]
pub struct HttpServer {
    alloc: Global,
    poll: Poll,
    events: Events,
    listener: PollListener,
    // More may wait at the listener.
    may_accept: bool,
    // The last one could not be had.
    has_missed: bool,
    spare: Option<OwnedFd>,
    places: Vec<Option<HttpConnection>>,
    room: PageBuffer,
}

/// The texts in which a page is spelled, and then the whole answer; and the bytes that are read.
#[derive(Drop)]
struct PageBuffer {
    page: String,
    text: String,
    buffer: Vec<u8>,
}

impl HttpServer {
    /// Nobody asked yet.
    ///
    /// # Errors
    ///
    /// The system has no room for it, or there is no memory.
    pub fn open<R: Net>(rt: &R, alloc: Global, listener: Listener) -> io::Result<HttpServer> {
        let mut listener = PollListener::of(listener)?;
        let poll = Poll::new(rt)?;
        listener.register(poll.registry(), Token(LISTENER))?;
        let spare = listener.spare();
        let mut places = Vec::new(alloc);
        for _ in 0..PLACES {
            places.push(None)?;
        }
        Ok(HttpServer {
            alloc,
            poll,
            events: Events::with_capacity(alloc, EVENTS)?,
            listener,
            may_accept: true,
            has_missed: false,
            spare,
            places,
            room: PageBuffer {
                page: String::with_capacity(alloc, PAGE)?,
                text: String::new(alloc),
                buffer: Vec::from_elem(alloc, 0u8, PIECE)?,
            },
        })
    }

    /// Answers by these pages until it is over.
    pub fn run<R: Wait + Clock, P: PageSource>(self, rt: &R, pages: &P, is_over: &Mutex<bool>) {
        let mut server = self;
        for _ in rt.forever() {
            if *is_over.lock(rt) {
                return;
            }
            server.look();
            let now = Instant::now(rt).ok();
            server.accept(now);
            for place in server.places.iter_mut() {
                serve_place(rt, pages, &mut server.room, place);
                end_if_late(place, now);
            }
            server.keep_spare();
        }
    }

    // Waits until something happens, and notes what.
    fn look(&mut self) {
        let millis = if self.may_accept && !self.has_missed {
            0
        } else {
            QUIET
        };
        let timeout = Some(Duration::from_millis(millis));
        if self.poll.poll(&mut self.events, timeout).is_err() {
            return;
        }
        for event in self.events.iter() {
            let token = event.token().0;
            if token == LISTENER {
                self.may_accept = true;
            } else if let Some(Some(caller)) = self.places.get_mut(token - 1) {
                caller.is_awake = true;
            }
        }
    }

    // Lets in connections that wait at the listener.
    fn accept(&mut self, now: Option<Instant>) {
        self.has_missed = false;
        if !self.may_accept {
            return;
        }
        for _ in 0..MOST_NEW {
            match self.listener.accept() {
                Ok(stream) => {
                    let registry = self.poll.registry();
                    let_in(self.alloc, registry, &mut self.places, stream, now);
                }
                Err(error) => {
                    if error.kind() == ErrorKind::WouldBlock {
                        self.may_accept = false;
                        return;
                    }
                    if self.spare.take().is_none() {
                        self.has_missed = true;
                        return;
                    }
                }
            }
        }
    }

    // Keeps a descriptor back, if none is.
    fn keep_spare(&mut self) {
        if self.spare.is_none() {
            self.spare = self.listener.spare();
        }
    }
}

// Lets a connection in, if there is a place for it; else it is closed.
fn let_in(
    alloc: Global,
    registry: &Registry,
    places: &mut [Option<HttpConnection>],
    stream: Stream,
    now: Option<Instant>,
) {
    for (index, place) in places.iter_mut().enumerate() {
        if place.is_none() {
            let mut caller = HttpConnection::new(alloc, stream, now);
            let token = Token(index.saturating_add(1));
            if caller.stream().register(registry, token).is_ok() {
                *place = Some(caller);
            }
            return;
        }
    }
}

// A connection that is there for too long ends.
fn end_if_late(place: &mut Option<HttpConnection>, now: Option<Instant>) {
    let Some(caller) = place else {
        return;
    };
    let Some(now) = now else {
        return;
    };
    if caller.is_late(now) {
        *place = None;
    }
}

// Serves the connection in this place, if something happened at it.
fn serve_place<R: Wait + Clock, P: PageSource>(
    rt: &R,
    pages: &P,
    room: &mut PageBuffer,
    place: &mut Option<HttpConnection>,
) {
    let Some(caller) = place else {
        return;
    };
    if !caller.is_awake {
        return;
    }
    caller.is_awake = false;
    serve(rt, pages, room, caller);
    if caller.is_over() {
        *place = None;
    }
}

// Reads what the connection sent, answers it, and writes what it can take.
fn serve<R: Wait + Clock, P: PageSource>(
    rt: &R,
    pages: &P,
    room: &mut PageBuffer,
    caller: &mut HttpConnection,
) {
    caller.is_awake = true;
    for _ in 0..MOST_READS {
        if !caller.read(&mut room.buffer) {
            caller.is_awake = false;
            break;
        }
        caller.answer(rt, pages, &mut room.page, &mut room.text);
    }
    caller.flush();
}
