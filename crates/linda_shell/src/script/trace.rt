//! The trace of a script, a line an event, as docs/COMMANDS.md has it.
//!
//! What was written before is kept: how many packets, and of each server how many deeds, and what
//! it holds. So after an event only what is new is written, and only the server that the event
//! reached is looked at.

mod held;
mod words;

use held::Held;
use linda_disk::MemDisk;
use linda_server::Durable;
use linda_shell_text::{write_message, write_reply};
use linda_store_state::Deed;
use linda_world::{Body, Packet, World};
use std::alloc::{AllocError, Global};
use words::write_deed;

/// The lines that did not go out yet, and how far they and those before them went.
#[derive(Drop)]
pub(crate) struct Trace {
    lines: String,
    /// How many packets were written.
    packets: usize,
    servers: Vec<Told>,
}

// How many deeds of a server were written, and which holds.
#[derive(Drop)]
struct Told {
    deeds: usize,
    held: Held,
}

impl Trace {
    /// The trace of a run of so many new servers: its first line.
    ///
    /// # Errors
    ///
    /// `AllocError` if memory runs out.
    pub(crate) fn new(alloc: Global, servers: u32) -> Result<Trace, AllocError> {
        let mut lines = String::new(alloc);
        writeln!(lines, "trace 1 servers {servers}")?;
        let mut told = Vec::new(alloc);
        for _ in 0..servers {
            told.push(Told {
                deeds: 0,
                held: Held::new(alloc),
            })?;
        }
        Ok(Trace {
            lines,
            packets: 0,
            servers: told,
        })
    }

    /// The lines since this was last cleared.
    pub(crate) fn told(&self) -> &str {
        self.lines.as_str()
    }

    /// The lines are done with.
    pub(crate) fn clear(&mut self) {
        self.lines.clear();
    }

    /// The command of the line of this number begins. A line with a command is UTF-8.
    ///
    /// # Errors
    ///
    /// `AllocError` if memory runs out, here and below.
    pub(crate) fn begin(&mut self, number: u64, line: &[u8]) -> Result<(), AllocError> {
        match std::str::from_utf8(line.trim_ascii()) {
            Ok(command) => writeln!(self.lines, "line {number} {command}"),
            Err(_) => Ok(()),
        }
    }

    /// A packet was delivered.
    pub(crate) fn deliver(
        &mut self,
        alloc: Global,
        world: &World<Durable<MemDisk>>,
        packet: usize,
    ) -> Result<(), AllocError> {
        writeln!(self.lines, "deliver {packet}")?;
        if let Some(server) = hearer(world.packets(), packet) {
            self.change(alloc, world, server)?;
        }
        self.send(alloc, world.packets())
    }

    /// A server was asked for a snapshot.
    pub(crate) fn snapshot(&mut self, server: u32) -> Result<(), AllocError> {
        writeln!(self.lines, "snapshot {server}")
    }

    /// A server was stopped with nothing in hand, or inside the device call of this number, and was
    /// opened again.
    pub(crate) fn stop(
        &mut self,
        alloc: Global,
        world: &World<Durable<MemDisk>>,
        server: u32,
        call: Option<u64>,
    ) -> Result<(), AllocError> {
        match call {
            None => writeln!(self.lines, "stop {server}")?,
            Some(call) => writeln!(self.lines, "stop {server} at {call}")?,
        }
        self.change(alloc, world, server)?;
        writeln!(self.lines, "open {server}")
    }

    /// The packets that were sent since they were last written.
    pub(crate) fn send(&mut self, alloc: Global, packets: &[Packet]) -> Result<(), AllocError> {
        let Some(new) = packets.get(self.packets..) else {
            return Ok(());
        };
        for packet in new {
            push_packet(alloc, &mut self.lines, self.packets, packet)?;
            self.packets = self.packets.saturating_add(1);
        }
        Ok(())
    }

    /// Lines are printed, each with its line feed.
    pub(crate) fn record_print(&mut self, lines: &str) -> Result<(), AllocError> {
        for line in lines.lines() {
            writeln!(self.lines, "print {line}")?;
        }
        Ok(())
    }

    // What a server did, and then what it holds no more and what it holds now.
    fn change(
        &mut self,
        alloc: Global,
        world: &World<Durable<MemDisk>>,
        server: u32,
    ) -> Result<(), AllocError> {
        let Some(told) = self.servers.get_mut(server as usize) else {
            return Ok(());
        };
        let deeds = world.deeds(server);
        if let Some(new) = deeds.get(told.deeds..) {
            push_deeds(alloc, &mut self.lines, server, new)?;
        }
        told.deeds = deeds.len();
        let Some(node) = world.node(server) else {
            return Ok(());
        };
        told.held
            .change(alloc, &mut self.lines, server, node.holds())
    }
}

// The lines of deeds of a server.
fn push_deeds(
    alloc: Global,
    lines: &mut String,
    server: u32,
    deeds: &[Deed],
) -> Result<(), AllocError> {
    for deed in deeds {
        let text = write_deed(alloc, deed)?;
        writeln!(lines, "deed {server} {text}")?;
    }
    Ok(())
}

// The server that a packet is a message to.
fn hearer(packets: &[Packet], packet: usize) -> Option<u32> {
    let packet = packets.get(packet)?;
    match &packet.body {
        Body::Message(_) => Some(packet.server),
        Body::Reply(_) => None,
    }
}

// The line of a packet that is sent.
fn push_packet(
    alloc: Global,
    lines: &mut String,
    place: usize,
    packet: &Packet,
) -> Result<(), AllocError> {
    let Packet {
        server,
        client,
        body,
        ..
    } = packet;
    match body {
        Body::Message(message) => {
            let text = write_message(alloc, message)?;
            writeln!(lines, "send {place} client {client} server {server} {text}")
        }
        Body::Reply(reply) => {
            let text = write_reply(alloc, reply)?;
            writeln!(lines, "send {place} server {server} client {client} {text}")
        }
    }
}
