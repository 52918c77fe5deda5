//! A script at work: servers and clients, and what each command prints.

mod command;
mod deliveries;
mod fault;
mod listing;
mod output;
mod run;
mod stops;
mod trace;

ghost use Rattle.std.specs.Prelude.{◌≡◌, ◌≤◌, All, IfOk, length, map};
ghost use Rattle.linda_client.specs.declared.limits.TheConstants.{MAX_SERVERS};
ghost use Rattle.linda_world_laws.specs.Reached.{IsUnused};

use command::{Command, read_command};
pub use fault::ScriptFault;
use linda_client::ClientFault;
use linda_disk::MemDisk;
use linda_server::Durable;
use linda_shell_text::{LineFault, write_fault, write_outcome, write_refusal};
use linda_store::Node;
use linda_world::{Seen, World, WorldEvent, WorldFault};
use listing::list_state;
use output::LineOutput;
pub use run::{run_script, trace_script};
use std::alloc::{AllocError, Global};

/// The most clients of a script.
const MAX_CLIENTS: usize = 64;

/// The most bytes that a bank of a script's server may have.
const LIMIT: usize = 1_048_576;

/// The servers and clients of a script. Between two commands every packet was delivered at least
/// once.
#[derive(Drop)]
pub(crate) struct Script {
    world: World<Durable<MemDisk>>,
    servers: u32,
    /// The clients, by rising number.
    clients: Vec<u32>,
    /// How many packets were delivered: all before that one.
    delivered: usize,
}

impl Script {
    /// So many new servers, 1 to 16, and no client.
    ///
    /// # Errors
    ///
    /// `AllocError` if memory runs out.
    pub(crate) fn new(alloc: Global, servers: u32) -> Result<Script, AllocError>
        requires some { 1 ≤ servers }
        requires few { servers ≤ MAX_SERVERS }
    {
        Ok(Script {
            world: World::new(alloc, unused_nodes(alloc, servers)?)?,
            servers,
            clients: Vec::new(alloc),
            delivered: 0,
        })
    }

    /// Does what the line of this number says, delivers all packets, and appends what is printed,
    /// line by line.
    ///
    /// # Errors
    ///
    /// A `LineFault`: the lines that were appended stay.
    pub(crate) fn run_line(
        &mut self,
        alloc: Global,
        number: u64,
        line: &[u8],
        out: &mut LineOutput,
    ) -> Result<(), LineFault> {
        match read_command(alloc, line)? {
            None => Ok(()),
            Some(None) => Err(LineFault::NotACommand),
            Some(Some(command)) => {
                out.begin(number, line)?;
                self.obey(alloc, command, out)?;
                self.deliver_all(alloc, out)
            }
        }
    }

    // Does what the command says.
    fn obey(
        &mut self,
        alloc: Global,
        command: Command,
        out: &mut LineOutput,
    ) -> Result<(), LineFault> {
        match command {
            Command::Out { client, tuple } => {
                self.call_any(alloc, client, WorldEvent::Out { client, tuple }, out)
            }
            Command::Sync { client, event } => {
                self.call_any(alloc, client, WorldEvent::Sync { client, event }, out)
            }
            Command::Abandon(client) => {
                self.call_known(alloc, client, WorldEvent::Abandon(client), out)
            }
            Command::Leave(client) => {
                self.call_known(alloc, client, WorldEvent::Leave(client), out)
            }
            Command::Tick(now) => self.tick(alloc, now, out),
            Command::Snapshot(server) => self.snapshot(alloc, server, out),
            Command::Stop(server) => self.stop_at_rest(alloc, server, out),
            Command::StopSnapshot { server, call, byte } => {
                self.stop_snapshot(alloc, server, call, byte, out)
            }
            Command::Repeat => self.repeat(alloc, out),
            Command::State(server) => self.show(alloc, server, out),
        }
    }

    // The server of this number, if there is one.
    fn server(&self, number: u64) -> Result<u32, LineFault> {
        match u32::try_from(number) {
            Ok(server) if server < self.servers => Ok(server),
            _ => Err(LineFault::NoServer),
        }
    }

    // Makes the client, if it was not named before.
    fn meet(&mut self, alloc: Global, client: u32) -> Result<(), LineFault> {
        let place = match self.clients.binary_search(&client) {
            Ok(_) => return Ok(()),
            Err(place) => place,
        };
        if self.clients.len() == MAX_CLIENTS {
            return Err(LineFault::TooManyClients);
        }
        self.clients.try_reserve(1)?;
        match self.world.add_client(alloc, client) {
            Ok(()) => {}
            Err(_) => return Err(LineFault::Memory),
        }
        self.clients.insert(place, client)?;
        Ok(())
    }

    // One event, and what is printed of it.
    fn call(
        &mut self,
        alloc: Global,
        client: u32,
        event: WorldEvent,
        out: &mut LineOutput,
    ) -> Result<(), LineFault> {
        match self.world.step(alloc, event) {
            Ok(seen) => self.print_call(alloc, &seen, out),
            Err(WorldFault::Client(fault)) => print_refusal(alloc, client, fault, out),
            Err(fault) => Err(line_fault(fault)),
        }
    }

    // What was seen of a call, after what it sent.
    fn print_call(
        &self,
        alloc: Global,
        seen: &Seen,
        out: &mut LineOutput,
    ) -> Result<(), LineFault> {
        if let Some(trace) = out.trace() {
            trace.send(alloc, self.world.packets())?;
        }
        Ok(print_outcome(alloc, seen, out)?)
    }

    // An event of a client, which is made if it was not named before.
    fn call_any(
        &mut self,
        alloc: Global,
        client: u32,
        event: WorldEvent,
        out: &mut LineOutput,
    ) -> Result<(), LineFault> {
        self.meet(alloc, client)?;
        self.call(alloc, client, event, out)
    }

    // An event of a client that was named before; one that was not has nothing to give up.
    fn call_known(
        &mut self,
        alloc: Global,
        client: u32,
        event: WorldEvent,
        out: &mut LineOutput,
    ) -> Result<(), LineFault> {
        if self.clients.binary_search(&client).is_err() {
            return print_refusal(alloc, client, ClientFault::Idle, out);
        }
        self.call(alloc, client, event, out)
    }

    fn tick(&mut self, alloc: Global, now: u64, out: &mut LineOutput) -> Result<(), LineFault> {
        for place in 0..self.clients.len() {
            if let Some(client) = self.clients.get(place).copied() {
                self.call(alloc, client, WorldEvent::Tick { client, now }, out)?;
            }
        }
        Ok(())
    }

    fn show(&mut self, alloc: Global, server: u64, out: &mut LineOutput) -> Result<(), LineFault> {
        let server = self.server(server)?;
        match self.world.node(server) {
            Some(node) => {
                let lines = list_state(alloc, server, node.state(), node.holds())?;
                out.print(&lines)?;
                Ok(())
            }
            None => Err(LineFault::NoServer),
        }
    }
}

// So many servers on disks in memory that were never used.
fn unused_nodes(alloc: Global, count: u32) -> Result<Vec<Durable<MemDisk>>, AllocError>
    ensures count { IfOk result (λ nodes. length nodes.items ≡ count) }
    ensures unused { IfOk result (λ nodes.
        All IsUnused (map (λ n. ⟦<Durable<MemDisk> as Node>⟧.shown n) nodes.items)) }
{
    let mut nodes = Vec::new(alloc);
    for _ in 0..count {
        nodes.push(unused_node(alloc)?)?;
    }
    Ok(nodes)
}

// A server on disks in memory that was never used.
fn unused_node(alloc: Global) -> Result<Durable<MemDisk>, AllocError>
    ensures { IfOk result (λ n. IsUnused (⟦<Durable<MemDisk> as Node>⟧.shown n)) }
{
    match Durable::create(alloc, MemDisk::new(alloc), MemDisk::new(alloc), LIMIT) {
        Ok(node) => Ok(node),
        Err(_) => Err(AllocError),
    }
}

// The lines of what was seen of an event.
fn print_outcome(alloc: Global, seen: &Seen, out: &mut LineOutput) -> Result<(), AllocError> {
    let Some(client) = seen.client else {
        return Ok(());
    };
    if let Some(outcome) = &seen.outcome {
        out.print(&write_outcome(alloc, client, outcome)?)?;
    }
    if let Some(fault) = seen.fault {
        out.print(&write_fault(alloc, client, fault)?)?;
    }
    Ok(())
}

// The line of a call that the client refused.
fn print_refusal(
    alloc: Global,
    client: u32,
    fault: ClientFault,
    out: &mut LineOutput,
) -> Result<(), LineFault> {
    match write_refusal(alloc, client, fault)? {
        Some(line) => {
            out.print(&line)?;
            Ok(())
        }
        None => Err(LineFault::Memory),
    }
}

// Why a line was not done, if the world did not do an event of it.
fn line_fault(fault: WorldFault) -> LineFault {
    match fault {
        WorldFault::Down(server) => LineFault::Down(server),
        _ => LineFault::Memory,
    }
}
