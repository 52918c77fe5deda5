//! Loop of events, turn by turn.

ghost use Rattle.std.specs.Prelude.{◌≡◌, true};
ghost use Rattle.slab.specs.Slab.{slab_len};

use crate::groups::Groups;
use crate::service::{serve_asks, serve_deeds};
use crate::sessions::Sessions;
use linda_disk::Disk;
use linda_net_http::Stream;
use linda_net_marks::ACCEPT_PAUSE;
use linda_net_relays::{ACCEPTOR, Acceptor, LoopDirectory, LoopInbox, Time};
use linda_shared::Shared;
use mio::{Events, Poll, Token, Waker};
use std::alloc::Global;
use std::io;
use std::net::Net;
use std::sync::Wait;
use std::sync::ledger::Ledger;
use std::time::{Clock, Duration};

/// The token of the waker.
const WAKER: usize = 1;

/// How many events are taken at once.
const EVENTS: usize = 1_024;

/// How many milliseconds a loop waits at most if nothing happens: then it looks whether the server
/// is down.
const QUIET: u64 = 1_000;

/// How often a loop goes round at most once the server is down, before connections are closed that
/// take nothing.
const MOST_ENDING: u32 = 1_024;

/// How often a loop looks at most for more that is ready before it writes a group to the disks.
const MOST_LOOKS: u32 = 8;

/// A loop: some of the connections, and what of theirs goes to the server next.
#[derive(Drop)]
pub(crate) struct Loop<L: Ledger> {
    poll: Poll,
    events: Events,
    sessions: Sessions<Stream, L>,
    batch: Groups<L>,
    // Room for connections that were handed to it.
    streams: Vec<Stream>,
    // What lets connections in, if this loop does that.
    acceptor: Option<Acceptor>,
    // No connection is handed to it any more.
    is_closed: bool,
    // The server is down.
    is_ending: bool,
    // How often it goes round before connections are closed that take nothing.
    patience: u32,
    time: Time,
    // For how many seconds clients may hold a tuple and say nothing, if that is limited.
    lease: Option<u32>,
}

/// The loop of this number, and its inbox.
///
/// # Errors
///
/// The system has no more room for it, or there is no memory.
pub(crate) fn begin_loop<L: Ledger, R: Net>(
    rt: &R,
    alloc: Global,
    index: usize,
) -> io::Result<(Loop<L>, LoopInbox)> {
    let poll = Poll::new(rt)?;
    let waker = Waker::new(poll.registry(), Token(WAKER))?;
    let events = Events::with_capacity(alloc, EVENTS)?;
    let sessions = Sessions::new(alloc, index)?;
    let batch = Groups::new(alloc)?;
    let made = Loop {
        poll,
        events,
        sessions,
        batch,
        streams: Vec::new(alloc),
        acceptor: None,
        is_closed: false,
        is_ending: false,
        patience: MOST_ENDING,
        time: Time::new(),
        lease: None,
    };
    Ok((made, LoopInbox::new(alloc, waker)))
}

impl<L: Ledger> Loop<L> {
    /// Connections come in here.
    ///
    /// # Errors
    ///
    /// The system does not look at the listener.
    pub(crate) fn open(&mut self, acceptor: Acceptor) -> io::Result<()> {
        let mut acceptor = acceptor;
        acceptor.register(self.poll.registry())?;
        self.acceptor = Some(acceptor);
        Ok(())
    }

    /// For so many seconds clients may hold a tuple and say nothing.
    pub(crate) fn limit(&mut self, seconds: u32) {
        self.lease = Some(seconds);
    }

    // A turn begins: nothing was taken in it.
    fn begin_turn<R: Clock>(&mut self, rt: &R) {
        self.time.begin_turn(rt);
        self.batch.share.begin_turn();
    }

    // Once a second: ends connections whose clients hold a tuple and are late, and gives up what
    // ended ones do not take.
    fn end_late<D: Disk, R: Wait + Clock>(
        &mut self,
        rt: &R,
        shared: &Shared<D, L>,
        directory: &LoopDirectory,
    ) {
        let Some(look) = self.time.look(rt) else {
            return;
        };
        self.sessions.give_up(look);
        if let Some(seconds) = self.lease {
            self.sessions
                .end_late(rt, shared, &directory.counters, look, seconds);
        }
    }

    // Whether it is over: it has no connection, and none comes any more.
    fn is_over(&self) -> bool
        ensures { result ≡ true → slab_len self.now.sessions.connections ≡ 0 }
    {
        self.is_closed && self.sessions.len() == 0 && self.sessions.calls.is_empty()
    }

    // How many milliseconds it may wait for something.
    fn poll_timeout(&self) -> u64 {
        if self.sessions.has_ready() || !self.batch.is_empty() || !self.sessions.calls.is_empty() {
            return 0;
        }
        let quiet = if self.is_ending {
            QUIET
        } else {
            self.time.left()
        };
        match &self.acceptor {
            Some(acceptor) => {
                if acceptor.has_more() {
                    0
                } else if acceptor.has_missed() {
                    ACCEPT_PAUSE
                } else {
                    quiet
                }
            }
            None => quiet,
        }
    }

    // Waits until something happens, and notes what. Says whether nothing did.
    fn wait<R: Wait>(&mut self, rt: &R, inbox: &LoopInbox, millis: u64) -> bool {
        let millis = if millis > 0 && !inbox.may_sleep(rt) {
            0
        } else {
            millis
        };
        !self.look(millis) && millis > 0
    }

    // Waits so many milliseconds at most, and notes what happened. Says whether something did.
    fn look(&mut self, millis: u64) -> bool {
        let timeout = Some(Duration::from_millis(millis));
        if self.poll.poll(&mut self.events, timeout).is_err() {
            return true;
        }
        for event in self.events.iter() {
            if event.token().0 == ACCEPTOR {
                if let Some(acceptor) = &mut self.acceptor {
                    acceptor.wake();
                }
            } else {
                self.sessions.wake(event);
            }
        }
        !self.events.is_empty()
    }

    // Takes what was handed to it, and lets connections in.
    fn take<R: Wait>(&mut self, rt: &R, inbox: &LoopInbox, directory: &LoopDirectory) {
        if let Some(acceptor) = &mut self.acceptor {
            acceptor.accept(rt, directory, self.is_ending);
        }
        let news = inbox.take_streams(rt, &mut self.streams);
        self.is_closed = news.is_closed;
        for stream in self.streams.drain(..) {
            if self.is_ending || !self.sessions.let_in(self.poll.registry(), stream) {
                directory.counters.count_end();
                inbox.loses();
            }
        }
        self.sessions.take_sent(rt, directory);
        if news.is_lost {
            self.sessions.end_all();
        }
        if news.is_down {
            self.end_all();
        }
    }

    // The server is down: all its connections end.
    fn end_all(&mut self) {
        if !self.is_ending {
            self.is_ending = true;
            self.sessions.end_all();
        }
    }

    // Once the server is down: nobody waits longer for connections that take nothing, after a while
    // in which nothing happened, or after many turns.
    fn end_soon(&mut self, is_quiet: bool) {
        if !self.is_ending {
            return;
        }
        self.patience = self.patience.saturating_sub(1);
        if is_quiet || self.patience == 0 {
            self.sessions.fail_all();
        }
    }

    // Takes what is ready and serves it: first what makes no deed, and then the rest, as one group
    // with what is ready by then. Says whether the server is up.
    fn pass<D: Disk, R: Wait + Clock>(
        &mut self,
        rt: &R,
        shared: &Shared<D, L>,
        directory: &LoopDirectory,
    ) -> bool {
        let mut is_up = self.ask(rt, shared, directory);
        for _ in 0..MOST_LOOKS {
            let count = self.batch.doing.len();
            let is_all = count == 0 || count >= self.sessions.len();
            if is_all || !self.batch.takes_more() || !self.look(0) {
                break;
            }
            is_up = self.ask(rt, shared, directory) && is_up;
            if self.batch.doing.len() == count {
                break;
            }
        }
        serve_deeds(rt, shared, directory, &mut self.sessions, &mut self.batch) && is_up
    }

    // Serves what is ready and makes no deed. Says whether the server is up.
    fn ask<D: Disk, R: Wait + Clock>(
        &mut self,
        rt: &R,
        shared: &Shared<D, L>,
        directory: &LoopDirectory,
    ) -> bool {
        serve_asks(rt, shared, directory, &mut self.sessions, &mut self.batch)
    }
}

/// Goes round until all connections are over.
pub(crate) fn run_loop<D: Disk, L: Ledger, R: Wait + Clock>(
    rt: &R,
    shared: &Shared<D, L>,
    directory: &LoopDirectory,
    it: &mut Loop<L>,
) {
    let Some(inbox) = directory.get(it.sessions.index()) else {
        return;
    };
    for _ in rt.forever() {
        it.begin_turn(rt);
        let timeout = it.poll_timeout();
        let is_quiet = it.wait(rt, inbox, timeout);
        it.end_soon(is_quiet);
        it.take(rt, inbox, directory);
        let is_up = it.pass(rt, shared, directory) && !(is_quiet && shared.is_down(rt));
        if !is_up && !it.is_ending {
            it.end_all();
            directory.end_all(rt);
        }
        it.end_late(rt, shared, directory);
        it.sessions.flush(rt, directory);
        if it.is_over() {
            return;
        }
    }
}
