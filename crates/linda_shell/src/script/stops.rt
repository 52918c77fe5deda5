//! Stops of a server, with nothing in hand or inside a snapshot, and snapshots that end.

use super::output::LineOutput;
use super::{Script, line_fault};
use linda_disk::Torn;
use linda_shell_text::LineFault;
use linda_world::WorldEvent;
use std::alloc::{AllocError, Global};

impl Script {
    /// Takes a snapshot of the server, if it has room for one.
    ///
    /// # Errors
    ///
    /// As those of `run_line`.
    pub(super) fn snapshot(
        &mut self,
        alloc: Global,
        server: u64,
        out: &mut LineOutput,
    ) -> Result<(), LineFault> {
        let server = self.server(server)?;
        match self.world.step(alloc, WorldEvent::Snapshot(server)) {
            Ok(seen) => print_snapshot(alloc, server, seen.full, out),
            Err(fault) => Err(line_fault(fault)),
        }
    }

    /// Stops the server with nothing in hand.
    ///
    /// # Errors
    ///
    /// As those of `run_line`.
    pub(super) fn stop_at_rest(
        &mut self,
        alloc: Global,
        server: u64,
        out: &mut LineOutput,
    ) -> Result<(), LineFault> {
        let server = self.server(server)?;
        let event = WorldEvent::Stop {
            server,
            packets: Vec::new(alloc),
            at: 0,
            torn: Torn::Kept,
        };
        self.stop(alloc, server, None, event, out)
    }

    /// Stops the server inside the device call of this number of a snapshot.
    ///
    /// # Errors
    ///
    /// As those of `run_line`.
    pub(super) fn stop_snapshot(
        &mut self,
        alloc: Global,
        server: u64,
        call: u64,
        byte: u8,
        out: &mut LineOutput,
    ) -> Result<(), LineFault> {
        let server = self.server(server)?;
        let event = WorldEvent::StopSnapshot {
            server,
            at: call,
            torn: Torn::Filled(byte),
        };
        self.stop(alloc, server, Some(call), event, out)
    }

    // Stops the server so, inside a device call or with nothing in hand, and says so to each client
    // that it was opened.
    fn stop(
        &mut self,
        alloc: Global,
        server: u32,
        call: Option<u64>,
        event: WorldEvent,
        out: &mut LineOutput,
    ) -> Result<(), LineFault> {
        self.step_unseen(alloc, event)?;
        self.print_stop(alloc, server, call, out)?;
        for place in 0..self.clients.len() {
            if let Some(client) = self.clients.get(place).copied() {
                self.call(alloc, client, WorldEvent::Reconnect { client, server }, out)?;
            }
        }
        Ok(())
    }

    // One event, of which nothing is printed.
    fn step_unseen(&mut self, alloc: Global, event: WorldEvent) -> Result<(), LineFault> {
        match self.world.step(alloc, event) {
            Ok(_) => Ok(()),
            Err(fault) => Err(line_fault(fault)),
        }
    }

    // The line of a server that was stopped and opened.
    fn print_stop(
        &self,
        alloc: Global,
        server: u32,
        call: Option<u64>,
        out: &mut LineOutput,
    ) -> Result<(), AllocError> {
        if let Some(trace) = out.trace() {
            trace.stop(alloc, &self.world, server, call)?;
        }
        print_of_server(alloc, server, "opened", out)
    }
}

// The line of a server that was asked for a snapshot, and may have no room for it.
fn print_snapshot(
    alloc: Global,
    server: u32,
    full: bool,
    out: &mut LineOutput,
) -> Result<(), LineFault> {
    if let Some(trace) = out.trace() {
        trace.snapshot(server)?;
    }
    let what = if full { "full" } else { "snapshot" };
    Ok(print_of_server(alloc, server, what, out)?)
}

// A line about a server.
fn print_of_server(
    alloc: Global,
    server: u32,
    what: &str,
    out: &mut LineOutput,
) -> Result<(), AllocError> {
    let line = format!(in alloc; "server {server} {what}\n")?;
    out.print(&line)
}
