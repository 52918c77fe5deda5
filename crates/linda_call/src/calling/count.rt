//! The number of the line that is done.

ghost use Rattle.std.specs.Prelude.{◌≡◌};
ghost use Rattle.linda_call.specs.Lines as spec;
ghost use Rattle.linda_call.specs.declared.calling.fault.CallFault.TheVariants as faults;
ghost use Rattle.linda_shell_text.specs.declared.line_fault.LineFault.TheVariants as lines;

use super::fault::CallFault;
use linda_shell_text::LineFault;

/// The number of a line, from 1.
#[derive(Clone, Copy, Debug)]
pub(super) struct Count {
    number: u64,
}

impl Count {
    /// The first line.
    pub(super) fn first() -> Count
        ensures { result.number ≡ 1 }
    {
        Count { number: 1 }
    }

    /// The next line begins.
    pub(super) fn pass(&mut self)
        ensures { self.new.number ≡ spec.next_line self.old.number }
    {
        self.number = self.number.saturating_add(1);
    }

    /// Memory runs out for the line.
    pub(super) fn memory(self) -> CallFault
        ensures { result ≡ faults.Line self.number lines.Memory }
    {
        CallFault::Line(self.number, LineFault::Memory)
    }

    /// What ends the call at the line, of which it is said whether it is one of a client. Memory
    /// that runs out is reported as a fault of the line.
    pub(super) fn end(self, done: Result<bool, CallFault>) -> Option<CallFault>
        ensures { result ≡ spec.end_at self.number done }
    {
        match done {
            Ok(true) => None,
            Ok(false) => Some(CallFault::Line(self.number, LineFault::NotACommand)),
            Err(CallFault::Memory) => Some(self.memory()),
            Err(fault) => Some(fault),
        }
    }
}
