//! One connection that asks, and its answer.

use crate::http_exchange::HttpExchange;
use crate::pages::PageSource;
use crate::stream::Stream;
use std::alloc::Global;
use std::io::ErrorKind;
use std::sync::Wait;
use std::time::{Clock, Duration, Instant};

/// How many bytes are read of one connection at most: those after its head are not looked at.
const MOST_TAKEN: usize = 65_536;

/// For how many seconds a connection is there at most.
const MOST_SECONDS: u64 = 10;

/// One connection: it asks once, is answered, and ends.
#[derive(Drop)]
pub(crate) struct HttpConnection {
    stream: Stream,
    exchange: HttpExchange,
    // How many bytes it sent.
    taken: usize,
    // Since when it is there, if the clock said so.
    came: Option<Instant>,
    /// Something happened at it.
    pub(crate) is_awake: bool,
    // It sends no more.
    is_shut: bool,
    // It can be neither read nor written.
    is_broken: bool,
}

impl HttpConnection {
    /// A connection that was not looked at.
    pub(crate) fn new(alloc: Global, stream: Stream, came: Option<Instant>) -> HttpConnection {
        HttpConnection {
            stream,
            exchange: HttpExchange::new(alloc),
            taken: 0,
            came,
            is_awake: true,
            is_shut: false,
            is_broken: false,
        }
    }

    /// The socket.
    pub(crate) fn stream(&mut self) -> &mut Stream {
        &mut self.stream
    }

    /// Whether it is over: it can be neither read nor written, sent too much, or sends no more and
    /// has its answer, if there is one.
    pub(crate) fn is_over(&self) -> bool {
        self.is_broken || self.taken > MOST_TAKEN || (self.is_shut && !self.exchange.has_unsent())
    }

    /// Whether it is there for too long.
    pub(crate) fn is_late(&self, now: Instant) -> bool {
        match self.came {
            Some(came) => now.duration_since(came) >= Duration::from_secs(MOST_SECONDS),
            None => false,
        }
    }

    /// Reads some of what is there. Says whether there may be more.
    pub(crate) fn read(&mut self, buffer: &mut [u8]) -> bool {
        match self.stream.read(buffer) {
            Ok(0) => self.is_shut = true,
            Ok(len) => {
                self.taken = self.taken.saturating_add(len);
                if self.exchange.heard(&buffer[..len]).is_err() {
                    self.is_broken = true;
                }
                return !self.is_over();
            }
            Err(error) => match error.kind() {
                ErrorKind::WouldBlock => {}
                ErrorKind::Interrupted => return true,
                _ => self.is_broken = true,
            },
        }
        false
    }

    /// Answers it by these pages, once its head is there and if it can be answered.
    pub(crate) fn answer<R: Wait + Clock, P: PageSource>(
        &mut self,
        rt: &R,
        pages: &P,
        page: &mut String,
        text: &mut String,
    ) {
        if self.is_broken {
            return;
        }
        if self.exchange.answer(rt, pages, page, text).is_err() {
            self.is_broken = true;
        }
    }

    /// Writes what it can take. Once all is written it is said that no more comes.
    pub(crate) fn flush(&mut self) {
        if self.is_broken || !self.exchange.has_unsent() {
            return;
        }
        for _ in 0..self.exchange.unsent().len() {
            if !self.exchange.has_unsent() || !self.write() {
                break;
            }
        }
        if !self.exchange.has_unsent() {
            self.stream.end_writing();
        }
    }

    // Writes some of what is to be written. Whether more can be written now.
    fn write(&mut self) -> bool {
        match self.stream.write(self.exchange.unsent()) {
            Ok(0) => self.is_broken = true,
            Ok(len) => {
                self.exchange.sent(len);
                return true;
            }
            Err(error) => match error.kind() {
                ErrorKind::WouldBlock => {}
                ErrorKind::Interrupted => return true,
                _ => self.is_broken = true,
            },
        }
        false
    }
}
