//! Gates, which say when a worker's message may go.

use std::sync::Wait;
use std::time::Clock;

/// Says when a worker's message may go, and is called when it was answered. Workers ask in threads
/// of their own. A client's messages are counted from 1.
pub trait Gate {
    /// Whether this message of the client may go now.
    fn may<R: Wait + Clock>(&self, rt: &R, client: u32, call: u64) -> bool;

    /// This message of the client was answered or refused.
    fn answered<R: Wait + Clock>(&self, rt: &R, client: u32, call: u64);
}
