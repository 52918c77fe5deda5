//! One connection of a server, without calls.

ghost use Rattle.std.specs.Prelude.{◌≡◌, ◌≤◌, ◌++◌, nat_lt, true, false, None, length};
ghost use Rattle.std.specs.Prelude.{IfOk, IfSome, OnOk, OnErr, IsErrOf};
ghost use Rattle.linda_wire.specs.declared.fault.FrameFault.TheVariants.{Memory};
ghost use Rattle.linda_wire.specs.Frames.{message_frame, FitsMessage};
ghost use Rattle.linda_wire.specs.Stream.{Answers, IsWhole, Partial, message_front};
ghost use Rattle.linda_net_session.specs.Place.{on_way};
ghost use Rattle.linda_net_session.specs.Session as spec;
ghost use Rattle.linda_net_session.specs.Session.{begun, came, shut, ended, at_rest, broken};
ghost use Rattle.linda_net_session.specs.Session.{in_phase, heard, wrote, is_open, is_closed};
ghost use Rattle.linda_net_session.specs.Session.{unread_of};
ghost use Rattle.linda_net_session.specs.Lawful.{IsLawful};
ghost use Rattle.linda_net_session.specs.Turns.{Says, Tells, Leads, Nexts, Closes, Finishes};

use crate::end::SessionEnd;
use crate::limits::MOST_UNSENT;
use crate::outgoing::Outgoing;
use crate::phase::{Phase, Way};
use crate::route::{OpenWays, Route, kind_of, place};
use http_server::Log;
use linda_wire::{Feed, FrameFault, Message, Refusal, Reply};
use std::alloc::{AllocError, Global};
use std::marker::Model;

/// One connection of a server: what was received and is not taken, and what is to be written.
/// Contracts see all that it received, took, queued and wrote.
#[derive(Drop)]
pub struct Session {
    alloc: Global,
    feed: Feed,
    // A message that was read and could not go yet.
    held: Option<Message>,
    out: Outgoing,
    phase: Phase,
    end: SessionEnd,
    // A whole message may be there.
    may_have: bool,
    // Histories, which take no memory.
    reads: Log<Feed, usize>,
    takes: Log<Message, Route>,
    tells: Log<Reply, ()>,
    writes: Log<Outgoing, usize>,
}

impl Model for Session {
    ghost use Rattle.std.specs.Prelude.{IfSome};
    ghost use Rattle.linda_wire.specs.Frames.{FitsMessage};
    ghost use Rattle.linda_net_session.specs.Session as seen;
    ghost use Rattle.linda_net_session.specs.Session.{session_of};
    ghost use Rattle.linda_net_session.specs.Lawful.{IsLawful};

    ghost Value = { seen.Session };

    ghost view = { λ s. session_of s.reads.items s.held s.feed s.takes.items
        s.tells.items s.writes.items s.out s.phase s.end s.may_have };

    ghost invariant = { λ s. IsLawful (session_of s.reads.items s.held s.feed s.takes.items
        s.tells.items s.writes.items s.out s.phase s.end s.may_have)
        × IfSome s.held FitsMessage };
}

impl Session {
    /// Nothing came yet.
    pub fn new(alloc: Global) -> Session
        ensures { result ≡ begun }
    {
        Session {
            alloc,
            feed: Feed::new(alloc),
            held: None,
            out: Outgoing::new(alloc),
            phase: Phase::Fresh,
            end: SessionEnd::Never,
            may_have: false,
            reads: Log::new(),
            takes: Log::new(),
            tells: Log::new(),
            writes: Log::new(),
        }
    }

    /// These bytes came. After the end they go nowhere.
    ///
    /// # Errors
    ///
    /// Without memory for them the session ends.
    pub fn received(&mut self, bytes: &[u8]) -> Result<(), AllocError>
        ensures ok { OnOk result (self.new ≡ came bytes.now self.old) }
        ensures err { OnErr result (self.new ≡ ended None self.old) }
    {
        match self.end {
            SessionEnd::Never => {}
            SessionEnd::Shut => return Ok(()),
            SessionEnd::Ending(_) => return Ok(()),
            SessionEnd::Told(_) => return Ok(()),
            SessionEnd::Broken => return Ok(()),
        }
        let len = self.feed.rest();
        match self.feed.feed(bytes) {
            Ok(()) => {
                self.reads = self.reads.and(&self.feed, &len);
                self.may_have = true;
                Ok(())
            }
            Err(error) => {
                self.end(None);
                Err(error)
            }
        }
    }

    /// No more bytes come: what came is taken to its end.
    pub fn at_end(&mut self)
        ensures { self.new ≡ shut self.old }
    {
        self.end = self.end.shut();
    }

    /// The next message, and its route: never `Keep`, and after `Busy` nothing is to be done with
    /// it. `None` if no message is whole, or it cannot go now.
    pub fn next(&mut self, room: OpenWays) -> Option<(Message, Route)>
        ensures { Nexts room self.old result self.new }
    {
        if !self.may_take() {
            return None;
        }
        let found = match next_in_line(self.alloc, &mut self.held, &mut self.feed) {
            Ok(found) => found,
            Err(fault) => {
                self.end(word_of(fault));
                return None;
            }
        };
        let Some(message) = found else {
            self.rest();
            return None;
        };
        let (route, phase) = place(self.phase, kind_of(&message), room);
        if route.is_keep() {
            self.held = Some(message);
            return None;
        }
        self.takes = self.takes.and(&message, &route);
        self.phase = phase;
        self.lead(route);
        Some((message, route))
    }

    // A message that goes here was taken: a second Hello is answered.
    fn lead(&mut self, route: Route)
        requires { is_open self.old.ends ≡ true }
        ensures { Leads route self.old self.new }
    {
        match route {
            Route::Greet => {}
            Route::Busy => self.say(&Refusal::Busy.reply()),
            Route::Goes(_) => {}
            Route::Keep => {}
        }
    }

    // No whole message is left.
    fn rest(&mut self)
        requires { message_front self.old.unread ≡ Partial }
        ensures { self.new ≡ at_rest self.old }
    {
        self.may_have = false;
        self.end = self.end.rested();
    }

    /// The client is welcome; its last number that is kept is this.
    pub fn welcome(&mut self, last: u64)
        requires { self.old.phase ≡ Phase.Greeting }
        ensures { Tells (Reply.Welcome last) (in_phase (Phase.Open 0 0) self.old) self.new }
    {
        self.phase = Phase::Open { asks: 0, deeds: 0 };
        self.tell(&Reply::Welcome { last });
    }

    /// The client is not welcome. It may greet again.
    pub fn refuse(&mut self, code: u8, detail: u64)
        requires { self.old.phase ≡ Phase.Greeting }
        ensures { Tells (Reply.Refused code detail) (in_phase Phase.Fresh self.old) self.new }
    {
        self.phase = Phase::Fresh;
        self.tell(&Reply::Refused { code, detail });
    }

    /// The server could not greet the client: the session ends with this word.
    pub fn drop_greeting(&mut self, word: Option<Refusal>)
        requires { self.old.phase ≡ Phase.Greeting }
        ensures { self.new ≡ ended word (in_phase Phase.Fresh self.old) }
    {
        self.phase = Phase::Fresh;
        self.end(word);
    }

    /// A message that went this way came back, after the replies that it led to were queued.
    pub fn answered(&mut self, way: Way)
        ensures { self.new ≡ heard way self.old }
    {
        self.phase = self.phase.answered(way);
    }

    /// Queues this reply after all others; nothing after the last word.
    pub fn tell(&mut self, reply: &Reply)
        ensures { Tells reply.now self.old self.new }
    {
        if !self.end.is_closed() {
            self.say(reply);
        }
    }

    // Queues this reply.
    fn say(&mut self, reply: &Reply)
        requires { is_closed self.old.ends ≡ false }
        ensures { Says reply.now self.old self.new }
    {
        match self.out.put(reply) {
            Ok(()) => self.tells = self.tells.and(reply, &()),
            Err(_) => self.fail(),
        }
    }

    /// Nothing more is taken, and this word is queued last, unless there is another one.
    pub fn end(&mut self, word: Option<Refusal>)
        ensures { self.new ≡ ended word self.old }
    {
        self.end = self.end.ended_by(word);
    }

    /// It can be neither read nor written any more.
    pub fn fail(&mut self)
        ensures { self.new ≡ broken self.old }
    {
        self.out.clear();
        self.end = SessionEnd::Broken;
    }

    /// Queues the last word, if there is one, once nothing more is taken and all is answered.
    pub fn finish(&mut self)
        ensures { Finishes self.old self.new }
    {
        if self.is_waiting() {
            return;
        }
        if let SessionEnd::Ending(word) = self.end {
            self.close(word);
        }
    }

    // Queues the last word, if there is one.
    fn close(&mut self, word: Option<Refusal>)
        requires { self.old.ends ≡ SessionEnd.Ending word }
        ensures { Closes self.old.ends self.old self.new }
    {
        let Some(refusal) = word else {
            self.end = SessionEnd::Told(None);
            return;
        };
        let reply = refusal.reply();
        match self.out.put(&reply) {
            Ok(()) => {
                self.tells = self.tells.and(&reply, &());
                self.end = SessionEnd::Told(word);
            }
            Err(_) => self.fail(),
        }
    }

    /// What is to be written.
    pub fn unsent(&self) -> &[u8]
        ensures { result.now ≡ self.now.pending }
    {
        self.out.unsent()
    }

    /// So many of the bytes that were to be written went out, the first ones.
    pub fn sent(&mut self, count: usize)
        requires { count ≤ length self.old.pending }
        ensures { self.new ≡ wrote count self.old }
    {
        self.writes = self.writes.and(&self.out, &count);
        self.out.sent(count);
    }

    /// Gives up the room of what went out.
    pub fn shrink(&mut self)
        ensures { self.new ≡ self.old }
    {
        self.out.shrink();
    }

    // Whether a message may be taken now.
    fn may_take(&self) -> bool
        ensures { result ≡ spec.may_take self.now }
    {
        self.end.is_open() && self.phase != Phase::Greeting && self.out.len() <= MOST_UNSENT
    }

    /// Whether bytes are wanted: something may be taken, and no whole message is left.
    pub fn wants_read(&self) -> bool
        ensures { result ≡ spec.wants_read self.now }
    {
        self.may_take() && self.end == SessionEnd::Never && !self.may_have
    }

    /// Whether there may be something to take.
    pub fn has_more(&self) -> bool
        ensures { result ≡ spec.has_more self.now }
    {
        self.may_take() && !(self.end == SessionEnd::Never && !self.may_have)
    }

    /// Whether something is still to be written.
    pub fn has_unsent(&self) -> bool
        ensures { result ≡ nat_lt 0 (length self.now.pending) }
    {
        self.out.len() > 0
    }

    /// Whether something of it is on its way.
    pub fn is_waiting(&self) -> bool
        ensures { result ≡ nat_lt 0 (on_way self.now.phase) }
    {
        self.phase.on_way() > 0
    }

    /// How far it is.
    pub fn phase(&self) -> Phase
        ensures { result ≡ self.now.phase }
    {
        self.phase
    }

    /// Whether it goes on.
    pub fn end_state(&self) -> SessionEnd
        ensures { result ≡ self.now.ends }
    {
        self.end
    }

    /// Whether nothing more is taken or queued, and nothing is on its way: its client may leave.
    pub fn has_left(&self) -> bool
        ensures { result ≡ spec.has_left self.now }
    {
        self.end.is_closed() && !self.is_waiting()
    }

    /// Whether all is answered, queued and written, and nothing more is taken.
    pub fn is_over(&self) -> bool
        ensures { result ≡ spec.is_over self.now }
    {
        self.has_left() && self.out.len() == 0
    }

    /// What holds of each session.
    pub fn lawful(&self)
        ensures { IsLawful self.now }
    {
        let _ = &self.phase;
    }
}

// The message at the front: the one that was kept, or the next one that was received.
fn next_in_line(
    alloc: Global,
    held: &mut Option<Message>,
    feed: &mut Feed,
) -> Result<Option<Message>, FrameFault>
    requires { IfSome held.old FitsMessage }
    ensures empty { held.new ≡ None }
    ensures exact { Answers message_front (unread_of held.old feed.old) result feed.new }
    ensures found { IfOk result (λ o. IfSome o (λ m.
        (unread_of held.old feed.old ≡ message_frame m ++ feed.new) × FitsMessage m)) }
    ensures memory { IsErrOf result Memory → IsWhole (message_front (unread_of held.old feed.old)) }
{
    match held.take() {
        Some(message) => Ok(Some(message)),
        None => feed.next(alloc),
    }
}

// The word for a fault of a frame.
fn word_of(fault: FrameFault) -> Option<Refusal>
    ensures { result ≡ spec.word_of fault }
{
    match fault.offset() {
        Some(offset) => Some(Refusal::Malformed(offset)),
        None => None,
    }
}
