//! Inbox of a loop, for what others hand to it.

use linda_net_http::Stream;
use linda_shared_outbox::Sent;
use mio::Waker;
use std::alloc::Global;
use std::sync::atomic::{AtomicU64, Ordering};
use std::sync::{Mutex, Wait};

/// Connections that came and replies to clients of the loop, and the state of the loop.
#[derive(Drop)]
struct InboxContents {
    streams: Vec<Stream>,
    sent: Vec<Sent>,
    // The loop waits, or is about to: it has to be woken.
    is_asleep: bool,
    // A reply could not be kept.
    is_lost: bool,
    // No connection comes any more.
    is_closed: bool,
    // The server is down.
    is_down: bool,
}

/// The state of a loop.
#[derive(Clone, Copy)]
pub struct InboxFlags {
    /// A reply to one of its clients was lost: no session of it can go on.
    pub is_lost: bool,
    /// No connection comes any more.
    pub is_closed: bool,
    /// The server is down.
    pub is_down: bool,
}

/// What others hand to one loop. A thread that has its lock asks for no other.
#[derive(Drop)]
pub struct LoopInbox {
    inbox: Mutex<InboxContents>,
    waker: Waker,
    // How many connections the loop has; u64::MAX if it does not run.
    load: AtomicU64,
}

impl LoopInbox {
    /// Nothing is here. The waker wakes the loop.
    pub fn new(alloc: Global, waker: Waker) -> LoopInbox {
        LoopInbox {
            inbox: Mutex::new(InboxContents {
                streams: Vec::new(alloc),
                sent: Vec::new(alloc),
                is_asleep: false,
                is_lost: false,
                is_closed: false,
                is_down: false,
            }),
            waker,
            load: AtomicU64::new(0),
        }
    }

    /// How many connections the loop has; u64::MAX if it does not run.
    pub fn load(&self) -> u64 {
        self.load.load(Ordering::SeqCst)
    }

    /// The loop does not run.
    pub fn set_off(&self) {
        self.load.store(u64::MAX, Ordering::SeqCst);
    }

    /// The loop has one connection more.
    pub fn gains(&self) {
        let _ = self.load.fetch_add(1, Ordering::SeqCst);
    }

    /// The loop has one connection fewer.
    pub fn loses(&self) {
        let _ = self.load.fetch_sub(1, Ordering::SeqCst);
    }

    /// Hands over a connection. Says whether that was possible; else it is dropped.
    pub fn hand<R: Wait>(&self, rt: &R, stream: Stream) -> bool {
        let mut inbox = self.inbox.lock(rt);
        let is_kept = inbox.streams.push(stream).is_ok();
        let wakes = inbox.is_asleep;
        inbox.is_asleep = false;
        drop(inbox);
        if wakes {
            let _ = self.waker.wake();
        }
        is_kept
    }

    /// Puts replies after the others. The loop is not woken: `wake` does that.
    pub fn post<R: Wait>(&self, rt: &R, sent: Sent) {
        let mut inbox = self.inbox.lock(rt);
        if inbox.sent.push(sent).is_err() {
            inbox.is_lost = true;
        }
    }

    /// Wakes the loop, if it waits and something is here.
    pub fn wake<R: Wait>(&self, rt: &R) {
        let mut inbox = self.inbox.lock(rt);
        let wakes = inbox.is_asleep && (!inbox.sent.is_empty() || inbox.is_lost);
        if wakes {
            inbox.is_asleep = false;
        }
        drop(inbox);
        if wakes {
            let _ = self.waker.wake();
        }
    }

    /// No connection comes any more. Wakes the loop.
    pub fn close<R: Wait>(&self, rt: &R) {
        self.inbox.lock(rt).is_closed = true;
        let _ = self.waker.wake();
    }

    /// The server is down. Wakes the loop.
    pub fn set_down<R: Wait>(&self, rt: &R) {
        self.inbox.lock(rt).is_down = true;
        let _ = self.waker.wake();
    }

    /// Whether the loop may wait: nothing is here. It is woken from now on if something comes.
    pub fn may_sleep<R: Wait>(&self, rt: &R) -> bool {
        let mut inbox = self.inbox.lock(rt);
        inbox.is_asleep = inbox.streams.is_empty() && inbox.sent.is_empty() && !inbox.is_lost;
        inbox.is_asleep
    }

    /// Takes the connections that came, for room for as many. The loop waits no more.
    pub fn take_streams<R: Wait>(&self, rt: &R, streams: &mut Vec<Stream>) -> InboxFlags {
        let mut inbox = self.inbox.lock(rt);
        inbox.is_asleep = false;
        if !inbox.streams.is_empty() {
            std::mem::swap(&mut inbox.streams, streams);
        }
        let news = InboxFlags {
            is_lost: inbox.is_lost,
            is_closed: inbox.is_closed,
            is_down: inbox.is_down,
        };
        inbox.is_lost = false;
        news
    }

    /// Takes the replies, in order, for room for as many.
    pub fn take_sent<R: Wait>(&self, rt: &R, sent: &mut Vec<Sent>) {
        let mut inbox = self.inbox.lock(rt);
        if !inbox.sent.is_empty() {
            std::mem::swap(&mut inbox.sent, sent);
        }
    }
}
