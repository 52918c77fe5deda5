//! The way of bytes over the socket of a connection: those that are read go to its session, whose
//! messages are given, and those that the session sends go out. None is lost, added or repeated.

ghost use Rattle.std.specs.Prelude.{◌≡◌};
ghost use Rattle.linda_net_session.specs.Session.{begun};
ghost use Rattle.linda_net_session.specs.Between.{TakesNothing, Sends, Flushes};
ghost use Rattle.linda_net_loops.specs.Connected.{Gives};
ghost use Rattle.linda_net_loops.specs.Wire.{Wire, Carries, IsStory};

use super::{Connection, ConnectionEvent};
use crate::socket::{ConnectionNotice, Socket};
use linda_net_marks::Counters;
use linda_net_session::{OpenWays, SessionEnd};
use std::io::ErrorKind;
use std::sync::ledger::Ledger;

/// How often a connection is read at most before others are looked at.
const MOST_READS: u32 = 16;

impl<S: Socket, L: Ledger> Connection<S, L> {
    /// Its next message, if there is room for it. It is read if less than one is there.
    #[tactic(auto, using(crate::proofs::Wires::then_next, crate::proofs::Wires::tells_next))]
    pub(crate) fn next(&mut self, buffer: &mut [u8], room: OpenWays) -> ConnectionEvent
        // A message is one that the session took, with the route that the session says; without one
        // the session took nothing.
        ensures gives { Gives self.old.session result self.new.session }
        ensures account { self.new.account ≡ self.old.account }
        ensures wire { Carries (S.wire self.old.stream) (S.wire self.new.stream) self.old.session
            self.new.session }
    {
        for _ in 0..MOST_READS {
            if let Some((message, route)) = self.session.next(room) {
                self.silence.end();
                return ConnectionEvent::Message(message, route);
            }
            if self.session.has_more() {
                self.silence.end();
                return ConnectionEvent::Kept;
            }
            if !self.may_read || !self.session.wants_read() {
                return ConnectionEvent::None;
            }
            self.read(buffer);
        }
        ConnectionEvent::Later
    }

    // Reads what is there. A short read leaves nothing to read, unless the peer is known to send no
    // more: then its end is still to be read, of which no second event comes.
    #[tactic(auto, using(crate::proofs::Wires::by_received, crate::proofs::Wires::by_kept))]
    fn read(&mut self, buffer: &mut [u8])
        ensures nothing { TakesNothing self.old.session self.new.session }
        ensures account { self.new.account ≡ self.old.account }
        ensures wire { Carries (S.wire self.old.stream) (S.wire self.new.stream) self.old.session
            self.new.session }
    {
        match self.stream.read(buffer) {
            Ok(0) => {
                self.may_read = false;
                self.session.at_end();
            }
            Ok(len) => {
                self.may_read = self.is_shut || len == buffer.len();
                self.read = self.read.saturating_add(len as u64);
                let _ = self.session.received(&buffer[..len]);
            }
            Err(error) => match error.kind() {
                ErrorKind::WouldBlock => self.may_read = false,
                ErrorKind::Interrupted => {}
                _ => self.fail(),
            },
        }
    }

    /// Writes what it can take.
    #[tactic(auto, using(crate::proofs::Wires::by_flush))]
    pub(crate) fn flush(&mut self, counters: &Counters)
        // What goes out is what waited, in order.
        ensures flushes { Flushes self.old.session self.new.session }
        ensures wire { Carries (S.wire self.old.stream) (S.wire self.new.stream) self.old.session
            self.new.session }
    {
        self.note_end(counters);
        self.session.finish();
        self.write_all();
        self.session.shrink();
    }

    // Its end is counted and noted, if it is due.
    #[tactic(auto, using(crate::proofs::Wires::by_nothing, crate::proofs::Wires::by_kept))]
    fn note_end(&mut self, counters: &Counters)
        ensures session { self.new.session ≡ self.old.session }
        ensures wire { Carries (S.wire self.old.stream) (S.wire self.new.stream) self.old.session
            self.new.session }
    {
        if self.is_waiting() {
            return;
        }
        if let SessionEnd::Ending(word) = self.session.end_state() {
            if let Some(word) = word {
                counters.count_reply(&word.reply());
            }
            self.stream.note(ConnectionNotice::Ended(word));
        }
    }

    // Writes what is to be written, as far as it can be written now.
    #[tactic(auto, using(crate::proofs::Wires::by_nothing, crate::proofs::Wires::both))]
    fn write_all(&mut self)
        ensures sends { Sends self.old.session self.new.session }
        ensures wire { Carries (S.wire self.old.stream) (S.wire self.new.stream) self.old.session
            self.new.session }
    {
        for _ in 0..self.session.unsent().len() {
            if !self.has_unsent() || !self.write() {
                break;
            }
        }
    }

    // Writes some of what is to be written. Whether more can be written now.
    #[tactic(auto, using(crate::proofs::Wires::by_wrote, crate::proofs::Wires::by_kept))]
    fn write(&mut self) -> bool
        ensures sends { Sends self.old.session self.new.session }
        ensures wire { Carries (S.wire self.old.stream) (S.wire self.new.stream) self.old.session
            self.new.session }
    {
        match self.stream.write(self.session.unsent()) {
            Ok(0) => self.fail(),
            Ok(len) => {
                self.refusal.end();
                self.session.sent(len);
                return true;
            }
            Err(error) => match error.kind() {
                ErrorKind::WouldBlock => {}
                ErrorKind::Interrupted => return true,
                _ => self.fail(),
            },
        }
        false
    }

    /// From its beginning on, its messages are those that its socket's bytes spell, and what went
    /// out spells its replies.
    #[tactic(auto, using(crate::proofs::Wires::whole_story))]
    pub(crate) fn tells_one_story(&self)
        ghost before: { Wire }
        requires { Carries before (S.wire self.now.stream) begun self.now.session }
        ensures { IsStory before (S.wire self.now.stream) self.now.session }
    {
        self.session.lawful();
    }
}
