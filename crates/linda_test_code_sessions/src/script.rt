//! Sessions in one thread, line by line.
//!
//! `greet hello 2 7 fresh` greets; `7 out 1 ("a", 3)` submits a message of client 7, and `all 7 out
//! 1 ("a", 3); 7 cancel 2` several at once; `leave 7`, `pays`, `snapshot`; `begin` and `step` for
//! one in steps; `off 100` puts snapshots off, `from 100` says what the bank took when it was new;
//! and `finish 7 8`, which gives both seats back; `wait 7` waits until client 7 has a reply, or
//! none will come, and `mailboxes` counts. What comes of a line is written: `7 did 1` of a receipt
//! for message 1, whether a snapshot pays, a fault in words, and then all replies that are there,
//! session by session.

mod lines;
mod requests;

ghost use Rattle.std.specs.Prelude.{◌≤◌, ◌<◌, length, All};
ghost use Rattle.linda_store_step.specs.declared.size.TheConstants.{MAX_BATCH};
ghost use Rattle.linda_shared_queue.specs.Seat.{IsRequest};

use linda_test_script::{WordsFault, read_message, read_numbered, split_word};
use linda_test_server::{Host, Welcome};
use linda_wire::Message;
use lines::{tell_all, tell_fault, tell_receipt, tell_receipts, word_of, written};
use requests::requests_in;
use std::alloc::{AllocError, Global};
use std::sync::Wait;

/// About so many bytes a step of a snapshot writes at most.
const MOST: usize = 65_536;

/// A client's seat, and the outlet of its replies.
#[derive(Drop)]
struct Session<S, O> {
    seat: S,
    outlet: O,
}

/// The sessions of a shared server.
#[derive(Drop)]
pub(super) struct Sessions<S, O, H> {
    host: H,
    sessions: Vec<Session<S, O>>,
}

impl<S: Drop, O: Drop, H: Host<S, O>> Sessions<S, O, H> {
    /// Nobody has a seat.
    pub(super) fn new(alloc: Global, host: H) -> Sessions<S, O, H> {
        Sessions {
            host,
            sessions: Vec::new(alloc),
        }
    }

    /// The server by itself.
    pub(super) fn into_host(self) -> H {
        let Sessions { host, .. } = self;
        host
    }

    /// Does what the line says, and writes what comes of it.
    pub(super) fn play<R: Wait>(
        &mut self,
        rt: &R,
        alloc: Global,
        line: &str,
        came: &mut String,
    ) -> Result<(), WordsFault> {
        self.act(rt, alloc, line, came)?;
        self.tell_replies(rt, alloc, came)
    }

    // Does what the line says.
    fn act<R: Wait>(
        &mut self,
        rt: &R,
        alloc: Global,
        line: &str,
        came: &mut String,
    ) -> Result<(), WordsFault> {
        let (word, rest) = split_word(line);
        match word {
            "greet" => self.greet_by(rt, alloc, rest, came),
            "all" => self.submit_batch(rt, alloc, rest, came),
            "leave" => self.leave(rt, rest, came),
            "finish" => self.finish(rt, alloc, rest, came),
            "pays" => self.snapshot_due(rt, came),
            "off" => self.defer_snapshot(rt, rest),
            "from" => self.count_from(rt, rest),
            "mailboxes" => self.mailboxes(rt, came),
            "wait" => self.wait(rt, alloc, rest, came),
            "snapshot" => self.snapshot(rt, came),
            "begin" => self.begin_snapshot(rt, came),
            "step" => self.step(rt, came),
            _ => self.submit_one(rt, alloc, line, came),
        }
    }

    // Greets with the message that the words say.
    fn greet_by<R: Wait>(
        &mut self,
        rt: &R,
        alloc: Global,
        words: &str,
        came: &mut String,
    ) -> Result<(), WordsFault> {
        let hello = read_message(alloc, words)?;
        self.greet(rt, &hello, came)
    }

    // Submits the messages that the words say at once.
    fn submit_batch<R: Wait>(
        &mut self,
        rt: &R,
        alloc: Global,
        words: &str,
        came: &mut String,
    ) -> Result<(), WordsFault> {
        let (client, messages) = requests_in(alloc, words)?;
        self.submit_all(rt, client, &messages, came)
    }

    // Submits the message of the client whose number is first.
    fn submit_one<R: Wait>(
        &mut self,
        rt: &R,
        alloc: Global,
        line: &str,
        came: &mut String,
    ) -> Result<(), WordsFault> {
        let (client, words) = read_numbered(line)?;
        let message = read_message(alloc, words)?;
        self.submit(rt, client, &message, came)
    }

    fn place(&self, client: u32) -> Option<usize> {
        self.sessions
            .iter()
            .position(|s| H::client(&s.seat) == client)
    }

    fn greet<R: Wait>(
        &mut self,
        rt: &R,
        hello: &Message,
        came: &mut String,
    ) -> Result<(), WordsFault> {
        match self.host.greet(rt, hello) {
            Err(fault) => tell_fault(fault, came),
            Ok(Welcome::Refused(code, detail)) => {
                written(writeln!(came, "> refused {code} {detail}"))
            }
            Ok(Welcome::Seated(seat, outlet, last)) => {
                written(self.welcome(Session { seat, outlet }, last, came))
            }
        }
    }

    // A session has begun.
    fn welcome(
        &mut self,
        session: Session<S, O>,
        last: u64,
        came: &mut String,
    ) -> Result<(), AllocError> {
        writeln!(came, "> {} welcome {last}", H::client(&session.seat))?;
        Ok(self.sessions.push(session)?)
    }

    fn submit<R: Wait>(
        &mut self,
        rt: &R,
        client: u32,
        message: &Message,
        came: &mut String,
    ) -> Result<(), WordsFault> {
        let place = self.place(client);
        let seat = seat_at(&mut self.sessions, place)?;
        match self.host.submit(rt, seat, message) {
            Ok(receipt) => tell_receipt(&receipt, came),
            Err(fault) => tell_fault(fault, came),
        }
    }

    fn submit_all<R: Wait>(
        &mut self,
        rt: &R,
        client: u32,
        messages: &[Message],
        came: &mut String,
    ) -> Result<(), WordsFault>
        requires some { 0 < length messages.now }
        requires few { length messages.now ≤ MAX_BATCH }
        requires requests { All IsRequest messages.now }
    {
        let place = self.place(client);
        let seat = seat_at(&mut self.sessions, place)?;
        match self.host.submit_all(rt, seat, messages) {
            Ok(receipts) => tell_receipts(&receipts, came),
            Err(fault) => tell_fault(fault, came),
        }
    }

    fn leave<R: Wait>(
        &mut self,
        rt: &R,
        client: &str,
        came: &mut String,
    ) -> Result<(), WordsFault> {
        let Session { seat, outlet } = self.taken(client)?;
        match self.host.leave(rt, seat, outlet) {
            Ok(()) => Ok(()),
            Err(fault) => tell_fault(fault, came),
        }
    }

    // The session of the client whose number is first, which is here no more.
    fn taken(&mut self, words: &str) -> Result<Session<S, O>, WordsFault> {
        let (client, _) = read_numbered(words)?;
        match self.place(client) {
            Some(place) if place < self.sessions.len() => Ok(self.sessions.remove(place)),
            _ => Err(WordsFault::Unknown),
        }
    }

    fn finish<R: Wait>(
        &mut self,
        rt: &R,
        alloc: Global,
        clients: &str,
        came: &mut String,
    ) -> Result<(), WordsFault> {
        let seats = self.seats_of(alloc, clients)?;
        match self.host.finish(rt, seats) {
            Ok(report) => written(writeln!(came, "> {} deeds, {} ids", report.deeds, report.ids)),
            Err(fault) => tell_fault(fault, came),
        }
    }

    // The seats of these clients, which are here no more.
    fn seats_of(&mut self, alloc: Global, clients: &str) -> Result<Vec<S>, WordsFault> {
        let mut seats = Vec::new(alloc);
        for client in clients.split(" ") {
            let Session { seat, .. } = self.taken(client)?;
            seats.push(seat)?;
        }
        Ok(seats)
    }

    fn snapshot_due<R: Wait>(&mut self, rt: &R, came: &mut String) -> Result<(), WordsFault> {
        let answer = self.host.snapshot_due(rt);
        written(writeln!(came, "> pays {answer}"))
    }

    // Snapshots are put off for so many bytes.
    fn defer_snapshot<R: Wait>(&mut self, rt: &R, words: &str) -> Result<(), WordsFault> {
        let (room, _) = read_numbered(words)?;
        self.host.defer_snapshot(rt, room as usize);
        Ok(())
    }

    // The bank took so many bytes when it was new.
    fn count_from<R: Wait>(&mut self, rt: &R, words: &str) -> Result<(), WordsFault> {
        let (base, _) = read_numbered(words)?;
        self.host.count_from(rt, base as usize);
        Ok(())
    }

    fn mailboxes<R: Wait>(&mut self, rt: &R, came: &mut String) -> Result<(), WordsFault> {
        let count = self.host.mailboxes(rt);
        written(writeln!(came, "> mailboxes {count}"))
    }

    // Waits until the client whose number is first has a reply, or none will come; writes what is
    // there.
    fn wait<R: Wait>(
        &mut self,
        rt: &R,
        alloc: Global,
        words: &str,
        came: &mut String,
    ) -> Result<(), WordsFault> {
        let (client, _) = read_numbered(words)?;
        let place = self.place(client);
        let outlet = outlet_at(&mut self.sessions, place)?;
        let replies = self.host.drain_wait(rt, outlet);
        written(tell_all(alloc, client, &replies, came))
    }

    fn snapshot<R: Wait>(&mut self, rt: &R, came: &mut String) -> Result<(), WordsFault> {
        match self.host.snapshot(rt) {
            Ok(()) => Ok(()),
            Err(fault) => tell_fault(fault, came),
        }
    }

    fn begin_snapshot<R: Wait>(&mut self, rt: &R, came: &mut String) -> Result<(), WordsFault> {
        match self.host.begin_snapshot(rt) {
            Ok(()) => Ok(()),
            Err(fault) => tell_fault(fault, came),
        }
    }

    fn step<R: Wait>(&mut self, rt: &R, came: &mut String) -> Result<(), WordsFault> {
        match self.host.continue_snapshot(rt, MOST) {
            Ok(progress) => written(came.push_str(word_of(progress))),
            Err(fault) => tell_fault(fault, came),
        }
    }

    // Writes the replies that are there, session by session.
    fn tell_replies<R: Wait>(
        &mut self,
        rt: &R,
        alloc: Global,
        came: &mut String,
    ) -> Result<(), WordsFault> {
        for session in &mut self.sessions {
            let client = H::client(&session.seat);
            let replies = self.host.drain(rt, &mut session.outlet);
            tell_all(alloc, client, &replies, came)?;
        }
        Ok(())
    }
}

// The seat that is at a place, if it is one.
fn seat_at<S: Drop, O: Drop>(
    sessions: &mut [Session<S, O>],
    place: Option<usize>,
) -> Result<&mut S, WordsFault> {
    let Some(place) = place else {
        return Err(WordsFault::Unknown);
    };
    match sessions.get_mut(place) {
        Some(session) => Ok(&mut session.seat),
        None => Err(WordsFault::Unknown),
    }
}

// The outlet that is at a place, if it is one.
fn outlet_at<S: Drop, O: Drop>(
    sessions: &mut [Session<S, O>],
    place: Option<usize>,
) -> Result<&mut O, WordsFault> {
    let Some(place) = place else {
        return Err(WordsFault::Unknown);
    };
    match sessions.get_mut(place) {
        Some(session) => Ok(&mut session.outlet),
        None => Err(WordsFault::Unknown),
    }
}
