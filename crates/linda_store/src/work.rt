//! Work that a node may be stopped in.

use linda_wire::Message;

/// A piece of work that a node begins before it is stopped.
#[derive(Drop)]
pub enum Work {
    /// To take these messages, each of its client, one after another.
    Messages(Vec<(u32, Message)>),
    /// To write a snapshot of its state.
    Snapshot,
}
