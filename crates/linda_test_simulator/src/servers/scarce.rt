//! Scarce memory in a run: the program is to have an allocator below it that refuses what it is
//! asked to, as `tools/simulate --scarce` puts there. It is asked by allocations of certain sizes.

use std::alloc::{AllocError, Global};

/// To ask for so many bytes and N more has the N-th allocation after that refused, and fails itself
/// if it is heard. To ask for so many and none more has nothing refused from then on, and fails
/// exactly if something was refused meanwhile.
const SIGN: usize = 7_340_033;

/// What asks for refusals.
#[derive(Drop)]
pub struct Scarce {
    alloc: Global,
    // What was allocated in place of a refusal.
    sign: Vec<u8>,
}

impl Scarce {
    /// Nothing is refused.
    pub fn new(alloc: Global) -> Scarce {
        Scarce {
            alloc,
            sign: Vec::new(alloc),
        }
    }

    /// The allocation of this number from now on, counted from 1, is refused. Returns whether that
    /// is heard.
    pub fn refuse(&mut self, number: u32) -> bool {
        self.ask(SIGN.saturating_add(number as usize)).is_err()
    }

    /// No allocation is refused any more. Returns whether one was.
    pub fn relent(&mut self) -> bool {
        self.ask(SIGN).is_err()
    }

    fn ask(&mut self, bytes: usize) -> Result<(), AllocError> {
        self.sign = Vec::with_capacity(self.alloc, bytes)?;
        Ok(())
    }
}
