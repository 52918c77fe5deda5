//! One connection of a loop: its socket, its session, and the account of its client.

mod wire;

ghost use Rattle.std.specs.Prelude.{◌≡◌, true, Some, None, IfSome};
ghost use Rattle.linda_net_session.specs.Session.{begun, broken, ended, heard, in_phase};
ghost use Rattle.linda_net_session.specs.Turns.{Tells};
ghost use Rattle.linda_net_loops.specs.Connected.{IfGreeting};
ghost use Rattle.linda_net_loops.specs.Wire.{Carries};

use crate::socket::{ConnectionNotice, Socket};
use linda_disk::Disk;
use linda_net_marks::Counters;
use linda_net_relays::{Look, Span, weight_after};
use linda_net_session::{OpenWays, Phase, Route, Session, SessionEnd, Way};
use linda_shared::{Account, Shared};
use linda_wire::{Message, Refusal, Reply};
use std::alloc::Global;
use std::sync::Wait;
use std::sync::ledger::Ledger;

/// For how many seconds a connection that is over may take nothing of what is written to it.
const MOST_REFUSAL: u32 = 5;

/// What a connection has next.
pub(crate) enum ConnectionEvent {
    /// A message, and its route.
    Message(Message, Route),
    /// A message that cannot go yet: it is given again.
    Kept,
    /// Nothing for now.
    None,
    /// It was read often enough: others are looked at first.
    Later,
}

/// One connection.
#[derive(Drop)]
pub(crate) struct Connection<S: Socket, L: Ledger> {
    stream: S,
    session: Session,
    /// Once its client was greeted.
    pub(crate) account: Option<Account<L>>,
    /// Its client leaves: that is among the calls.
    pub(crate) is_leaving: bool,
    /// It is in the list of those that may have something, and of those that are written to.
    pub(crate) is_ready: bool,
    pub(crate) is_touched: bool,
    // The socket may have more to read.
    may_read: bool,
    // The peer sends no more: what is there is read to its end.
    is_shut: bool,
    // How many bytes were read since this was asked last, and how many a reply has by estimate.
    read: u64,
    weight: u64,
    // Since when its client holds a tuple and says nothing.
    silence: Span,
    // Since when it is over and takes nothing of what is to be written.
    refusal: Span,
}

impl<S: Socket, L: Ledger> Connection<S, L> {
    /// A connection that sent nothing yet, or that was not looked at.
    pub(crate) fn new(alloc: Global, stream: S) -> Connection<S, L>
        ensures { (result.session ≡ begun) × (result.account ≡ None) }
    {
        Connection {
            stream,
            session: Session::new(alloc),
            account: None,
            is_leaving: false,
            is_ready: false,
            is_touched: false,
            may_read: true,
            is_shut: false,
            read: 0,
            weight: 0,
            silence: Span::new(),
            refusal: Span::new(),
        }
    }

    /// The socket.
    pub(crate) fn stream(&mut self) -> &mut S {
        &mut self.stream
    }

    /// Its socket takes note of this.
    #[tactic(auto, using(crate::proofs::Wires::by_kept))]
    pub(crate) fn note(&mut self, note: ConnectionNotice<'_>)
        ensures session { self.new.session ≡ self.old.session }
        ensures account { self.new.account ≡ self.old.account }
        ensures wire { Carries (S.wire self.old.stream) (S.wire self.new.stream) self.old.session
            self.new.session }
    {
        self.stream.note(note);
    }

    /// How many bytes are still to be written.
    pub(crate) fn unsent(&self) -> usize {
        self.session.unsent().len()
    }

    /// The socket may have more to read; or no more than what is there, and then its end.
    #[tactic(auto, using(crate::proofs::Wires::by_nothing))]
    pub(crate) fn wake(&mut self, is_shut: bool)
        ensures wire { Carries (S.wire self.old.stream) (S.wire self.new.stream) self.old.session
            self.new.session }
    {
        self.may_read = true;
        self.is_shut = self.is_shut || is_shut;
    }

    /// Whether something of it is on its way. Until that came back the connection keeps its place.
    pub(crate) fn is_waiting(&self) -> bool {
        self.session.is_waiting()
    }

    /// Whether its client holds a tuple.
    pub(crate) fn holds_any<D: Disk, R: Wait>(&self, rt: &R, shared: &Shared<D, L>) -> bool {
        match &self.account {
            Some(account) => shared.holds_of(rt, account.client()) > 0,
            None => false,
        }
    }

    /// Whether something is still to be written.
    pub(crate) fn has_unsent(&self) -> bool {
        self.session.has_unsent()
    }

    /// Whether there may be something to take from it now. Of a frame whose end is still to come
    /// there is nothing.
    pub(crate) fn has_more(&self) -> bool {
        self.session.has_more() || self.may_read && self.session.wants_read()
    }

    // Whether nothing more is read from it.
    fn is_ending(&self) -> bool {
        !matches!(self.session.end_state(), SessionEnd::Never)
    }

    /// Its client is seen to hold a tuple, or none. Returns whether it is late: it holds one, and
    /// for so many seconds it said nothing, and nothing of it was on its way.
    #[tactic(auto, using(crate::proofs::Wires::by_nothing))]
    pub(crate) fn is_late(&mut self, look: Look, seconds: u32, holds_any: bool) -> bool
        ensures wire { Carries (S.wire self.old.stream) (S.wire self.new.stream) self.old.session
            self.new.session }
    {
        if !holds_any || self.is_waiting() {
            self.silence.end();
            return false;
        }
        !self.is_ending() && !self.has_more() && self.silence.grow(look, seconds)
    }

    /// What is to be written is given up if its peer sends no more, or nothing more is taken from
    /// it, and it took nothing for some seconds. Returns whether that is so.
    #[tactic(auto, using(crate::proofs::Wires::by_nothing))]
    pub(crate) fn gives_up(&mut self, look: Look) -> bool
        ensures wire { Carries (S.wire self.old.stream) (S.wire self.new.stream) self.old.session
            self.new.session }
    {
        let is_over = self.is_ending() || self.is_shut;
        if !is_over || !self.has_unsent() {
            self.refusal.end();
            return false;
        }
        if !self.refusal.grow(look, MOST_REFUSAL) {
            return false;
        }
        self.fail();
        true
    }

    /// How many bytes were read since this was asked last.
    #[tactic(auto, using(crate::proofs::Wires::by_nothing))]
    pub(crate) fn take_read(&mut self) -> u64
        ensures wire { Carries (S.wire self.old.stream) (S.wire self.new.stream) self.old.session
            self.new.session }
    {
        std::mem::replace(&mut self.read, 0)
    }

    /// How many bytes its next message is answered with, by estimate.
    pub(crate) fn weight(&self) -> u64 {
        self.weight
    }

    /// Its client is welcome, and has this account.
    #[tactic(auto, using(crate::proofs::Wires::by_nothing, crate::proofs::Wires::by_greeted))]
    pub(crate) fn welcome(&mut self, counters: &Counters, account: Account<L>, last: u64)
        ensures account { self.new.account ≡ Some account }
        ensures told { IfGreeting self.old.session.phase self.old.session self.new.session
            (Tells (Reply.Welcome last) (in_phase (Phase.Open 0 0) self.old.session)
            self.new.session) }
        ensures wire { Carries (S.wire self.old.stream) (S.wire self.new.stream) self.old.session
            self.new.session }
    {
        self.account = Some(account);
        self.count(counters, &Reply::Welcome { last });
        let before = self.session.unsent().len();
        if let Phase::Greeting = self.session.phase() {
            self.session.welcome(last);
        }
        let _ = self.weigh(before);
    }

    /// Its client is refused. It may greet again.
    #[tactic(auto, using(crate::proofs::Wires::by_nothing, crate::proofs::Wires::by_greeted))]
    pub(crate) fn refuse(&mut self, counters: &Counters, code: u8, detail: u64)
        ensures account { self.new.account ≡ self.old.account }
        ensures told { IfGreeting self.old.session.phase self.old.session self.new.session
            (Tells (Reply.Refused code detail) (in_phase Phase.Fresh self.old.session)
            self.new.session) }
        ensures wire { Carries (S.wire self.old.stream) (S.wire self.new.stream) self.old.session
            self.new.session }
    {
        self.count(counters, &Reply::Refused { code, detail });
        let before = self.session.unsent().len();
        if let Phase::Greeting = self.session.phase() {
            self.session.refuse(code, detail);
        }
        let _ = self.weigh(before);
    }

    /// Its client could not be greeted: it ends with this word, if there is one.
    #[tactic(auto, using(crate::proofs::Wires::by_nothing, crate::proofs::Wires::by_dropped))]
    pub(crate) fn drop_greeting(&mut self, word: Option<Refusal>)
        ensures account { self.new.account ≡ self.old.account }
        ensures ends { IfGreeting self.old.session.phase self.old.session self.new.session
            (self.new.session ≡ ended word (in_phase Phase.Fresh self.old.session)) }
        ensures wire { Carries (S.wire self.old.stream) (S.wire self.new.stream) self.old.session
            self.new.session }
    {
        if let Phase::Greeting = self.session.phase() {
            self.session.drop_greeting(word);
        }
    }

    /// Its second Hello was answered, which is counted.
    #[tactic(auto, using(crate::proofs::Wires::by_kept))]
    pub(crate) fn tell_busy(&mut self, counters: &Counters)
        ensures session { self.new.session ≡ self.old.session }
        ensures wire { Carries (S.wire self.old.stream) (S.wire self.new.stream) self.old.session
            self.new.session }
    {
        let reply = Refusal::Busy.reply();
        self.count(counters, &reply);
        self.stream.note(ConnectionNotice::Busy);
    }

    /// A message that went this way came back.
    #[tactic(auto, using(crate::proofs::Wires::by_heard))]
    pub(crate) fn answered(&mut self, way: Way)
        ensures account { self.new.account ≡ self.old.account }
        ensures heard { self.new.session ≡ heard way self.old.session }
        ensures wire { Carries (S.wire self.old.stream) (S.wire self.new.stream) self.old.session
            self.new.session }
    {
        self.session.answered(way);
    }

    /// It is sent this, after all that came before, which is counted. Returns how many bytes that
    /// has.
    #[tactic(auto, using(crate::proofs::Wires::by_told))]
    pub(crate) fn tell(&mut self, counters: &Counters, reply: &Reply) -> u64
        ensures account { self.new.account ≡ self.old.account }
        ensures told { Tells reply.now self.old.session self.new.session }
        ensures wire { Carries (S.wire self.old.stream) (S.wire self.new.stream) self.old.session
            self.new.session }
    {
        self.count(counters, reply);
        let before = self.session.unsent().len();
        self.session.tell(reply);
        self.weigh(before)
    }

    // A reply is counted if its client is still sent something.
    fn count(&self, counters: &Counters, reply: &Reply) {
        if !self.session.end_state().is_closed() {
            counters.count_reply(reply);
        }
    }

    // How many bytes are to be written beside so many. The next reply is expected by that.
    fn weigh(&mut self, before: usize) -> u64
        ensures account { self.new.account ≡ self.old.account }
        ensures same { self.new.session ≡ self.old.session }
        ensures stream { self.new.stream ≡ self.old.stream }
    {
        let bytes = self.session.unsent().len().saturating_sub(before) as u64;
        if bytes > 0 {
            self.weight = weight_after(self.weight, bytes);
        }
        bytes
    }

    /// Nothing more is taken from it. It ends once what is on its way came back, with this word, if
    /// there is one.
    #[tactic(auto, using(crate::proofs::Wires::by_ended))]
    pub(crate) fn end_with(&mut self, word: Option<Refusal>)
        ensures account { self.new.account ≡ self.old.account }
        ensures ends { self.new.session ≡ ended word self.old.session }
        ensures wire { Carries (S.wire self.old.stream) (S.wire self.new.stream) self.old.session
            self.new.session }
    {
        self.session.end(word);
    }

    /// It can be neither read nor written.
    #[tactic(auto, using(crate::proofs::Wires::by_broken))]
    pub(crate) fn fail(&mut self)
        ensures account { self.new.account ≡ self.old.account }
        ensures broken { self.new.session ≡ broken self.old.session }
        ensures wire { Carries (S.wire self.old.stream) (S.wire self.new.stream) self.old.session
            self.new.session }
    {
        self.session.fail();
        self.stream.note(ConnectionNotice::Failed);
    }

    /// Whether it is over: nothing of it is on its way, and nothing more is to be written.
    pub(crate) fn is_over(&self) -> bool
        ensures { result ≡ true → self.now.account ≡ None }
    {
        self.account.is_none() && self.session.is_over()
    }

    /// The client that leaves now, if it does: nothing more comes of it, all is answered, and that
    /// is not among the calls yet.
    pub(crate) fn leaves(&self) -> Option<u32>
        ensures { IfSome result (λ client. IfSome self.now.account (λ a. a.client ≡ client)) }
    {
        if self.is_leaving || !self.session.has_left() {
            return None;
        }
        match &self.account {
            Some(account) => Some(account.client()),
            None => None,
        }
    }

    /// Its socket is shut.
    pub(crate) fn shut(&self) {
        self.stream.shut();
    }
}
