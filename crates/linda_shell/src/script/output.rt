//! LineOutput of a script, and its trace if one is wanted.

use super::trace::Trace;
use std::alloc::{AllocError, Global};

/// What was printed of a line, and what the trace says of it.
#[derive(Drop)]
pub(crate) struct LineOutput {
    printed: String,
    trace: Option<Trace>,
}

impl LineOutput {
    /// Nothing was printed, and no trace is wanted.
    pub(crate) fn new(alloc: Global) -> LineOutput {
        LineOutput {
            printed: String::new(alloc),
            trace: None,
        }
    }

    /// Nothing was printed, and the trace of a run of so many servers begins.
    ///
    /// # Errors
    ///
    /// `AllocError` if memory runs out.
    pub(crate) fn traced(alloc: Global, servers: u32) -> Result<LineOutput, AllocError> {
        Ok(LineOutput {
            printed: String::new(alloc),
            trace: Some(Trace::new(alloc, servers)?),
        })
    }

    /// What was printed since this was last cleared.
    pub(crate) fn printed(&self) -> &str {
        self.printed.as_str()
    }

    /// What the trace says since this was last cleared.
    pub(crate) fn told(&self) -> &str {
        match &self.trace {
            Some(trace) => trace.told(),
            None => "",
        }
    }

    /// What was printed and what the trace says is done with.
    pub(crate) fn clear(&mut self) {
        self.printed.clear();
        if let Some(trace) = &mut self.trace {
            trace.clear();
        }
    }

    /// The trace, if one is wanted.
    pub(crate) fn trace(&mut self) -> Option<&mut Trace> {
        self.trace.as_mut()
    }

    /// The command of the line of this number begins.
    ///
    /// # Errors
    ///
    /// `AllocError` if memory runs out.
    pub(crate) fn begin(&mut self, number: u64, line: &[u8]) -> Result<(), AllocError> {
        match &mut self.trace {
            Some(trace) => trace.begin(number, line),
            None => Ok(()),
        }
    }

    /// Appends lines that are printed, each with its line feed.
    ///
    /// # Errors
    ///
    /// `AllocError` if memory runs out.
    pub(crate) fn print(&mut self, lines: &str) -> Result<(), AllocError> {
        self.printed.push_str(lines)?;
        match &mut self.trace {
            Some(trace) => trace.record_print(lines),
            None => Ok(()),
        }
    }
}
