//! A single client: what is done with it, and what comes of it.
//!
//! A row begins with client 7 over two servers. A line is a call: `out TUPLE`, `sync EVENT`, `tick
//! NOW`, `resend`, `reconnected SERVER`, `abandon`, `leave`, or a reply after the server that it
//! comes from, as `1 offer 1 4 ("a", 3)`. The lines after it say all that comes of the call:
//! packets, after the servers that they go to; then the outcome, as `linda run` prints it, that of
//! an event after its base; a server's fault; or why the call is refused. By `client C over S` a
//! row goes on with a new client C over S servers, and gives how many it has.

mod call;
mod told;

use call::call_of;
use linda_client::{Client, ClientFault, Reaction};
use linda_test_script::{WordsFault, done, read_numbered, read_small_number};
use std::alloc::Global;
use told::{push_told, tell_refused};

/// The player of rows of clients.
#[derive(Drop)]
pub struct Clients {
    client: Option<Client>,
}

impl Clients {
    /// No client, before a row begins.
    pub fn new() -> Clients {
        Clients { client: None }
    }

    /// Begins a row.
    pub fn begin(&mut self, alloc: Global) -> Result<(), WordsFault> {
        match Client::new(alloc, 7, 2) {
            Ok(client) => self.client = Some(client),
            Err(_) => return Err(WordsFault::Memory),
        }
        Ok(())
    }

    /// Plays a line.
    pub fn play(
        &mut self,
        alloc: Global,
        words: &str,
        came: &mut String,
    ) -> Result<(), WordsFault> {
        if let Some(words) = words.strip_prefix("client ") {
            return self.renew(alloc, words, came);
        }
        let Some(client) = &mut self.client else {
            return Err(WordsFault::Unknown);
        };
        let number = client.number();
        push_told(alloc, came, number, called(alloc, client, words)?)
    }

    // Goes on with a new client, if there can be one.
    fn renew(&mut self, alloc: Global, words: &str, came: &mut String) -> Result<(), WordsFault> {
        let (number, rest) = read_numbered(words)?;
        let Some(servers) = rest.strip_prefix("over ") else {
            return Err(WordsFault::Unknown);
        };
        match Client::new(alloc, number, read_small_number(servers)?) {
            Ok(client) => self.go_on(client, came),
            Err(fault) => tell_refused(fault, came),
        }
    }

    // Goes on with this client, and says how many servers it has.
    fn go_on(&mut self, client: Client, came: &mut String) -> Result<(), WordsFault> {
        let servers = client.servers();
        self.client = Some(client);
        done(writeln!(came, "> servers {servers}"))
    }
}

// What comes of a call, which is made once more if memory ran out in it.
fn called(
    alloc: Global,
    client: &mut Client,
    words: &str,
) -> Result<Result<Reaction, ClientFault>, WordsFault> {
    match client.call(alloc, call_of(alloc, words)?) {
        Err(ClientFault::Memory) => Ok(client.call(alloc, call_of(alloc, words)?)),
        told => Ok(told),
    }
}
