//! Deliveries of packets: of each once, after the command that led to it, and again if a command
//! asks for that.

use super::output::LineOutput;
use super::{Script, line_fault, print_outcome};
use linda_shell_text::LineFault;
use linda_world::{Seen, WorldEvent};
use std::alloc::Global;

/// The most packets that are delivered for one command, beside those that it repeats.
const MAX_DELIVERIES: usize = 1_000_000;

impl Script {
    /// Delivers every packet that was sent before, again.
    ///
    /// # Errors
    ///
    /// As those of `run_line`.
    pub(super) fn repeat(&mut self, alloc: Global, out: &mut LineOutput) -> Result<(), LineFault> {
        for packet in 0..self.delivered {
            self.deliver(alloc, packet, out)?;
        }
        Ok(())
    }

    /// Delivers the packets that were not delivered yet, in the order in which they were sent,
    /// until none is left.
    ///
    /// # Errors
    ///
    /// As those of `run_line`.
    pub(super) fn deliver_all(
        &mut self,
        alloc: Global,
        out: &mut LineOutput,
    ) -> Result<(), LineFault> {
        for _ in 0..MAX_DELIVERIES {
            if self.delivered >= self.world.packets().len() {
                return Ok(());
            }
            let packet = self.delivered;
            self.delivered = packet.saturating_add(1);
            self.deliver(alloc, packet, out)?;
        }
        if self.delivered < self.world.packets().len() {
            return Err(LineFault::TooManyDeliveries);
        }
        Ok(())
    }

    fn deliver(
        &mut self,
        alloc: Global,
        packet: usize,
        out: &mut LineOutput,
    ) -> Result<(), LineFault> {
        match self.world.step(alloc, WorldEvent::Deliver(packet)) {
            Ok(seen) => self.print_delivery(alloc, packet, &seen, out),
            Err(fault) => Err(line_fault(fault)),
        }
    }

    // What was seen of a delivery, after what it led to.
    fn print_delivery(
        &self,
        alloc: Global,
        packet: usize,
        seen: &Seen,
        out: &mut LineOutput,
    ) -> Result<(), LineFault> {
        if let Some(trace) = out.trace() {
            trace.deliver(alloc, &self.world, packet)?;
        }
        Ok(print_outcome(alloc, seen, out)?)
    }
}
