//! A client at work over its links: what comes is given to it, and what it answers is sent and
//! written.

mod kept_replies;
mod next_alarm;
mod puts;

ghost use Rattle.std.specs.Prelude.{◌≤◌, length};
ghost use Rattle.linda_client.specs.declared.limits.TheConstants.{MAX_SERVERS};

use super::clock::{is_late, pause_for_welcome, pause_until, ticks_in};
use super::fault::CallFault;
use super::manner::Manner;
use super::party::Party;
use super::ring::PutRing;
use linda_client::{ClientFault, Reaction};
use linda_net_proxy::{EventInbox, ServerEvent, ServerLink};
use linda_shell_text::{Request, behind_word, read_request, write_outcome, write_refusal};
use linda_text::skip_blanks;
use linda_wire::Message;
use next_alarm::next_alarm;
use std::alloc::Global;
use std::io::Write;
use std::sync::Wait;
use std::time::{Clock, Instant};

/// A client and its standing with each server, the tuples that are put together, its links, what
/// comes by them, and when it began.
#[derive(Drop)]
pub(super) struct Caller<'a> {
    party: Party,
    // Lines that put tuples do not wait for one another.
    together: bool,
    ring: PutRing,
    links: &'a [ServerLink],
    inbox: &'a EventInbox,
    start: Instant,
}

impl<'a> Caller<'a> {
    /// A client of this number that has done nothing yet, or that goes on after what servers keep
    /// for it.
    ///
    /// # Errors
    ///
    /// `Memory`; `Clock` if the time cannot be had.
    pub(super) fn new(
        rt: &impl Clock,
        alloc: Global,
        inbox: &'a EventInbox,
        links: &'a [ServerLink],
        number: u32,
        manner: Manner,
    ) -> Result<Caller<'a>, CallFault>
        requires some { 1 ≤ length links.now }
        requires few { length links.now ≤ MAX_SERVERS }
    {
        let servers = links.len() as u32;
        let party = Party::new(alloc, number, servers, manner.goes_on)?;
        let Ok(start) = Instant::now(rt) else {
            return Err(CallFault::Clock);
        };
        Ok(Caller {
            party,
            together: manner.together,
            ring: PutRing::new(alloc, number, servers),
            links,
            inbox,
            start,
        })
    }
}

impl Caller<'_> {
    /// Waits until each server has welcomed the client.
    ///
    /// # Errors
    ///
    /// What the first server is given up for, `NoConnection` after ten seconds too; `Memory`;
    /// `Write`; `Clock`.
    pub(super) fn await_welcomes<S: Wait + Clock, W: Write>(
        &mut self,
        rt: &S,
        alloc: Global,
        writer: &mut W,
    ) -> Result<(), CallFault> {
        for _ in rt.forever() {
            let Some(server) = self.party.first_unmet() else {
                return Ok(());
            };
            let now = self.ticks(rt)?;
            if let Some((server, arrival)) = self.inbox.take(rt, pause_for_welcome(now)) {
                self.handle_arrival(rt, alloc, server, arrival, writer)?;
            } else if is_late(self.ticks(rt)?) {
                return Err(CallFault::NoConnection(server));
            }
        }
        Ok(())
    }

    /// Does what a line asks for, waits for the outcome, and writes it. Whether the line is one of
    /// a client. If tuples are put together, the outcome of a put is written later: at the latest
    /// by `finish_puts`, before a line that is no put, and once 64 are under way.
    ///
    /// # Errors
    ///
    /// Of a server that is given up or that refuses; `Memory`; `Write`; `Clock`.
    pub(super) fn run_line<S: Wait + Clock, W: Write>(
        &mut self,
        rt: &S,
        alloc: Global,
        line: &[u8],
        writer: &mut W,
    ) -> Result<bool, CallFault> {
        self.catch_up(rt, alloc, writer)?;
        if is_last(line) {
            self.finish_puts(rt, alloc, writer)?;
            self.tell_kept(rt, alloc, writer)?;
            return Ok(true);
        }
        match read_request(alloc, line)? {
            None => Ok(true),
            Some(None) => {
                self.finish_puts(rt, alloc, writer)?;
                Ok(false)
            }
            Some(Some(request)) => {
                self.begin(rt, alloc, request, writer)?;
                Ok(true)
            }
        }
    }

    // Does what is asked for, once all puts before it are answered; or puts one more beside them.
    fn begin<S: Wait + Clock, W: Write>(
        &mut self,
        rt: &S,
        alloc: Global,
        request: Request,
        writer: &mut W,
    ) -> Result<(), CallFault> {
        if self.together && !self.party.has_left() {
            return self.begin_beside(rt, alloc, request, writer);
        }
        self.run(rt, alloc, request, writer)
    }

    /// Waits until all puts are answered, and writes their outcomes.
    ///
    /// # Errors
    ///
    /// As those of `run_line`.
    pub(super) fn finish_puts<S: Wait + Clock, W: Write>(
        &mut self,
        rt: &S,
        alloc: Global,
        writer: &mut W,
    ) -> Result<(), CallFault> {
        for _ in rt.forever() {
            if self.ring.is_empty() {
                return Ok(());
            }
            self.wait_for_news(rt, alloc, writer)?;
        }
        Ok(())
    }

    // Hears what came while the client does nothing. A server that was given up meanwhile is tried
    // again, unless puts are under way.
    fn catch_up<S: Wait + Clock, W: Write>(
        &mut self,
        rt: &S,
        alloc: Global,
        writer: &mut W,
    ) -> Result<(), CallFault> {
        for _ in rt.forever() {
            match self.inbox.take_now(rt) {
                None => return Ok(()),
                Some((server, ServerEvent::NoConnection)) if self.ring.is_empty() => {
                    self.retry(rt, server);
                }
                Some((server, arrival)) => {
                    self.hear_beside(rt, alloc, server, arrival, writer)?;
                }
            }
        }
        Ok(())
    }

    // Has a server tried again.
    fn retry(&self, rt: &impl Wait, server: u32) {
        if let Some(link) = self.links.get(server as usize) {
            link.retry(rt);
        }
    }

    // Does what is asked for. The client knows the time when it is asked.
    fn run<S: Wait + Clock, W: Write>(
        &mut self,
        rt: &S,
        alloc: Global,
        request: Request,
        writer: &mut W,
    ) -> Result<(), CallFault> {
        self.tick(rt, alloc, writer)?;
        let alarm = next_alarm(alloc, &request, self.ticks(rt)?)?;
        match self.party.ask(alloc, request) {
            Ok(reaction) => {
                if self.perform_reaction(rt, alloc, reaction, writer)? {
                    return Ok(());
                }
                self.wait(rt, alloc, alarm, writer)
            }
            Err(fault) => self.refuse(alloc, fault, writer),
        }
    }

    // Waits for the outcome of what was asked for, of which this alarm comes first.
    fn wait<S: Wait + Clock, W: Write>(
        &mut self,
        rt: &S,
        alloc: Global,
        alarm: Option<u64>,
        writer: &mut W,
    ) -> Result<(), CallFault> {
        for _ in rt.forever() {
            let pause = pause_until(self.ticks(rt)?, alarm);
            let is_done = match self.inbox.take(rt, pause) {
                Some((server, arrival)) => self.handle_arrival(rt, alloc, server, arrival, writer)?,
                None => false,
            };
            if is_done || self.tick(rt, alloc, writer)? {
                return Ok(());
            }
        }
        Ok(())
    }

    // How many ticks ago it began.
    fn ticks(&self, rt: &impl Clock) -> Result<u64, CallFault> {
        match self.start.elapsed(rt) {
            Ok(gone) => Ok(ticks_in(gone)),
            Err(_) => Err(CallFault::Clock),
        }
    }

    // Gives the client the time. Whether what was pending has ended.
    fn tick<S: Wait + Clock, W: Write>(
        &mut self,
        rt: &S,
        alloc: Global,
        writer: &mut W,
    ) -> Result<bool, CallFault> {
        let now = self.ticks(rt)?;
        let reaction = self.party.tick(alloc, now)?;
        self.perform_reaction(rt, alloc, reaction, writer)
    }

    // Gives the client what came. Whether what was pending has ended.
    fn handle_arrival<S: Wait, W: Write>(
        &mut self,
        rt: &S,
        alloc: Global,
        server: u32,
        arrival: ServerEvent,
        writer: &mut W,
    ) -> Result<bool, CallFault> {
        let reaction = self.party.take(alloc, server, arrival)?;
        self.perform_reaction(rt, alloc, reaction, writer)
    }

    // Sends what the client sends and writes what has ended. Whether something has.
    fn perform_reaction<S: Wait, W: Write>(
        &mut self,
        rt: &S,
        alloc: Global,
        reaction: Reaction,
        writer: &mut W,
    ) -> Result<bool, CallFault> {
        for (server, message) in reaction.packets {
            let mut message = message;
            self.party.send(server, &mut message);
            self.send(rt, alloc, server, &message)?;
        }
        if let Some((server, code, detail)) = reaction.fault {
            return Err(CallFault::Refused(server, code, detail));
        }
        let Some(outcome) = reaction.outcome else {
            return Ok(false);
        };
        if let Some((server, ticket)) = self.party.settle() {
            self.send(rt, alloc, server, &Message::Cancel { ticket })?;
        }
        let line = write_outcome(alloc, self.party.number(), &outcome)?;
        write_line(writer, &line)?;
        Ok(true)
    }

    // Sends a message to a server.
    fn send(
        &self,
        rt: &impl Wait,
        alloc: Global,
        server: u32,
        message: &Message,
    ) -> Result<(), CallFault> {
        if let Some(link) = self.links.get(server as usize) {
            link.send(rt, alloc, message)?;
        }
        Ok(())
    }

    // Writes that the client refused what it was asked for.
    fn refuse<W: Write>(
        &self,
        alloc: Global,
        fault: ClientFault,
        writer: &mut W,
    ) -> Result<(), CallFault> {
        match write_refusal(alloc, self.party.number(), fault)? {
            Some(line) => write_line(writer, &line),
            None => Err(CallFault::Memory),
        }
    }
}

// Whether the line asks for the replies that are kept.
fn is_last(line: &[u8]) -> bool {
    matches!(behind_word(skip_blanks(line), b"last"), Some([]))
}

// Writes a line, with its line feed, and flushes it.
fn write_line<W: Write>(writer: &mut W, line: &str) -> Result<(), CallFault> {
    if writer.write_all(line.as_bytes()).is_err() {
        return Err(CallFault::Write);
    }
    if writer.flush().is_err() {
        return Err(CallFault::Write);
    }
    Ok(())
}
