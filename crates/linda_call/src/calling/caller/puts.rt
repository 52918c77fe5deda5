//! Puts that are under way together: each goes out beside those before it, and their outcomes are
//! written in the order of the lines.

ghost use Rattle.std.specs.Prelude.{◌≡◌};
ghost use Rattle.linda_call.specs.Ring as spec;

use super::{Caller, write_line};
use crate::calling::clock::LONGEST_PAUSE;
use crate::calling::fault::CallFault;
use crate::calling::kept::write_without_id;
use crate::calling::ring::{MOST, PutEvent, PutStatus};
use linda_client::Outcome;
use linda_net_proxy::ServerEvent;
use linda_shell_text::{Request, write_outcome};
use linda_tuple::Tuple;
use linda_wire::{Refusal, Reply};
use std::alloc::Global;
use std::io::Write;
use std::sync::Wait;
use std::time::Clock;

impl Caller<'_> {
    /// Puts one more tuple beside those that are under way, or does what is asked for, once they
    /// are answered.
    ///
    /// # Errors
    ///
    /// As those of `run_line`.
    pub(super) fn begin_beside<S: Wait + Clock, W: Write>(
        &mut self,
        rt: &S,
        alloc: Global,
        request: Request,
        writer: &mut W,
    ) -> Result<(), CallFault> {
        match request {
            Request::Out(tuple) => self.put(rt, alloc, tuple, writer),
            other => {
                self.finish_puts(rt, alloc, writer)?;
                self.run(rt, alloc, other, writer)
            }
        }
    }

    // Puts a tuple, and does not wait for its outcome. If as many as may be are under way, it waits
    // for the first of them.
    fn put<S: Wait + Clock, W: Write>(
        &mut self,
        rt: &S,
        alloc: Global,
        tuple: Tuple,
        writer: &mut W,
    ) -> Result<(), CallFault> {
        self.make_room(rt, alloc, writer)?;
        let server = self.ring.turn();
        let number = self.party.puts(server);
        self.ring.push(self.party.servers(), number, tuple)?;
        self.send_last(rt, alloc, server)
    }

    // Waits until one more put may be under way.
    fn make_room<S: Wait + Clock, W: Write>(
        &mut self,
        rt: &S,
        alloc: Global,
        writer: &mut W,
    ) -> Result<(), CallFault> {
        for _ in rt.forever() {
            if !self.ring.is_full() {
                return Ok(());
            }
            self.wait_for_news(rt, alloc, writer)?;
        }
        Ok(())
    }

    // Sends the last put to its server.
    fn send_last(&self, rt: &impl Wait, alloc: Global, server: u32) -> Result<(), CallFault> {
        match self.ring.last() {
            Some(message) => self.send(rt, alloc, server, message),
            None => Ok(()),
        }
    }

    /// Hears what comes next, if something does within a second.
    ///
    /// # Errors
    ///
    /// As those of `run_line`.
    pub(super) fn wait_for_news<S: Wait + Clock, W: Write>(
        &mut self,
        rt: &S,
        alloc: Global,
        writer: &mut W,
    ) -> Result<(), CallFault> {
        match self.inbox.take(rt, LONGEST_PAUSE) {
            Some((server, arrival)) => self.hear_beside(rt, alloc, server, arrival, writer),
            None => Ok(()),
        }
    }

    /// Hears what came while the client does nothing: the puts under way hear it, and what has come
    /// of them is written. A Gap is passed over while puts wait at its server. The server refused
    /// one before, which is what is reported; or what it answers went out over a new connection
    /// before its Welcome was heard, and was sent again after that.
    ///
    /// # Errors
    ///
    /// As those of `run_line`.
    pub(super) fn hear_beside<S: Wait, W: Write>(
        &mut self,
        rt: &S,
        alloc: Global,
        server: u32,
        arrival: ServerEvent,
        writer: &mut W,
    ) -> Result<(), CallFault> {
        if is_gap(&arrival) && self.ring.waits_at(server) {
            return Ok(());
        }
        let news = news_in(server, &arrival);
        let is_refusal = matches!(news, Some(PutEvent::Refused { .. }));
        if !is_refusal || !self.ring.waits_at(server) {
            self.handle_arrival(rt, alloc, server, arrival, writer)?;
        }
        let Some(news) = news else {
            return Ok(());
        };
        self.ring.hears(news);
        if matches!(news, PutEvent::Welcomed { .. }) {
            self.put_again(rt, alloc, server)?;
        }
        self.tell_done(alloc, writer)
    }

    // Sends again what the server has not answered of the puts under way.
    fn put_again(&self, rt: &impl Wait, alloc: Global, server: u32) -> Result<(), CallFault> {
        for place in 0..MOST {
            if let Some(message) = self.ring.again(server, place) {
                self.send(rt, alloc, server, message)?;
            }
        }
        Ok(())
    }

    // Writes the outcomes of the first puts, as far as they are answered.
    fn tell_done<W: Write>(&mut self, alloc: Global, writer: &mut W) -> Result<(), CallFault> {
        for _ in 0..MOST {
            let Some((server, fate)) = self.ring.take() else {
                return Ok(());
            };
            let client = self.party.number();
            let line = match fate {
                PutStatus::Stored(id) => write_outcome(
                    alloc,
                    client,
                    &Outcome::Stored { server, id },
                )?,
                PutStatus::Refused(code, detail) => {
                    return Err(CallFault::Refused(server, code, detail));
                }
                _ => write_without_id(alloc, server, client)?,
            };
            write_line(writer, &line)?;
        }
        Ok(())
    }
}

// Whether a server says that messages before one are missing.
fn is_gap(arrival: &ServerEvent) -> bool
    ensures { result ≡ spec.is_gap arrival.now }
{
    match arrival {
        ServerEvent::Came(Reply::Refused { code, .. }) => *code == Refusal::Gap(0).code(),
        _ => false,
    }
}

// What comes of puts by what a server brings.
fn news_in(server: u32, arrival: &ServerEvent) -> Option<PutEvent>
    ensures { result ≡ spec.news_in server arrival.now }
{
    match arrival {
        ServerEvent::Greeted(last) => Some(PutEvent::Welcomed {
            server,
            last: *last,
        }),
        ServerEvent::Came(Reply::Stored { n, id }) => Some(PutEvent::Stored {
            server,
            number: *n,
            id: *id,
        }),
        ServerEvent::Came(Reply::Refused { code, detail }) => Some(PutEvent::Refused {
            server,
            code: *code,
            detail: *detail,
        }),
        _ => None,
    }
}
