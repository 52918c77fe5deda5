//! Replies that servers keep to the client: each is asked for by its number, and written.

use super::{Caller, write_line};
use crate::calling::asking::{is_answer, kept_ask};
use crate::calling::clock::LONGEST_PAUSE;
use crate::calling::fault::CallFault;
use crate::calling::kept::{kept_reply_line, write_none};
use linda_net_proxy::ServerEvent;
use std::alloc::Global;
use std::io::Write;
use std::sync::Wait;
use std::time::Clock;

impl Caller<'_> {
    /// Writes the reply that each server keeps to the client.
    ///
    /// # Errors
    ///
    /// As those of `run_line`.
    pub(super) fn tell_kept<S: Wait + Clock, W: Write>(
        &mut self,
        rt: &S,
        alloc: Global,
        writer: &mut W,
    ) -> Result<(), CallFault> {
        let mut server: u32 = 0;
        for _ in 0..self.links.len() {
            let line = self.kept_line(rt, alloc, server, writer)?;
            write_line(writer, &line)?;
            server = server.saturating_add(1);
        }
        Ok(())
    }

    // The line of the reply that a server keeps to the client. It is asked for by the number that
    // is kept.
    fn kept_line<S: Wait + Clock, W: Write>(
        &mut self,
        rt: &S,
        alloc: Global,
        server: u32,
        writer: &mut W,
    ) -> Result<String, CallFault> {
        let number = self.party.kept(server);
        let client = self.party.number();
        if number == 0 {
            return Ok(write_none(alloc, server, client)?);
        }
        self.send(rt, alloc, server, &kept_ask(number))?;
        for _ in rt.forever() {
            match self.inbox.take(rt, LONGEST_PAUSE) {
                None => {}
                Some((from, ServerEvent::Came(reply))) if is_answer(from, &reply, server, number) =>
                    {
                        if let Some(line) = kept_reply_line(alloc, server, client, &reply)? {
                            return Ok(line);
                        }
                    }
                Some((from, arrival)) => {
                    let is_greeted = from == server && is_greeting(&arrival);
                    self.handle_arrival(rt, alloc, from, arrival, writer)?;
                    if is_greeted {
                        self.send(rt, alloc, server, &kept_ask(number))?;
                    }
                }
            }
        }
        Ok(String::new(alloc))
    }
}

// Whether a server welcomed the client.
fn is_greeting(arrival: &ServerEvent) -> bool {
    matches!(arrival, ServerEvent::Greeted(_))
}
