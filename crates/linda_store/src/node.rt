//! Nodes: what a connection needs of a server.

ghost use Rattle.std.specs.Prelude.{◌≡◌, ◌≤◌, false, length};

use crate::work::Work;
use linda_disk::Torn;
use linda_store_state::Deed;
use linda_wire::{Message, Reply};
use std::alloc::Global;
use thiserror::Error;

/// Why a node did nothing.
#[derive(Clone, Copy, Debug, PartialEq, Eq, Error)]
pub enum NodeFault {
    /// There is no room for what is to be written. Nothing changed.
    #[error("full")]
    Full,
    /// The node is down, and stays down until it is opened again.
    #[error("down")]
    Down,
}

/// One server: it takes messages of clients and answers them. A node that is down answers `Down` to
/// everything but a stop, which opens it again.
pub trait Node: Drop {
    ghost use Rattle.linda_store_step.specs.Store.{IsOrderly};
    ghost use Rattle.linda_store.specs.Node as seen;
    ghost use Rattle.linda_store.specs.Node.{Handles, HandlesAll, Closes, Snaps, Stops, IsBatch};
    ghost use Rattle.linda_store.specs.Node.{in_hand, node_answer};
    ghost use Rattle.linda_store_step.specs.declared.size.TheConstants.{MAX_BATCH};

    /// What contracts see of the node.
    ghost shown: { Self → seen.Node };

    /// Takes one message of a client. What is answered goes to the clients named beside each reply,
    /// in order.
    fn handle(
        &mut self,
        alloc: Global,
        client: u32,
        message: &Message,
    ) -> Result<Vec<(u32, Reply)>, NodeFault>
        ensures { Handles (shown self.old) client message.now (node_answer result)
            (shown self.new) };

    /// Takes several messages, at most 64, each of its client, one after another; what is answered
    /// comes when all of them were taken.
    fn handle_all(
        &mut self,
        alloc: Global,
        messages: &[(u32, Message)],
    ) -> Result<Vec<(u32, Reply)>, NodeFault>
        requires { length messages.now ≤ MAX_BATCH }
        ensures { HandlesAll (shown self.old) messages.now (node_answer result) (shown self.new) };

    /// Ends what waits and what is held for a client whose connection has ended.
    fn close(&mut self, alloc: Global, client: u32) -> Result<Vec<(u32, Reply)>, NodeFault>
        ensures { Closes (shown self.old) client (node_answer result) (shown self.new) };

    /// Writes a snapshot of its state, if it keeps one; nothing that a client sees changes.
    fn snapshot(&mut self, alloc: Global) -> Result<(), NodeFault>
        ensures { Snaps (shown self.old) result (shown self.new) };

    /// Begins the work, is stopped inside its device call number `at`, from 0, or after the work if
    /// there are fewer calls, sends nothing and is opened again; `torn` says what becomes of what
    /// was not synced. What is answered are the deeds that were added.
    fn stop(
        &mut self,
        alloc: Global,
        work: Work,
        at: u64,
        torn: Torn,
    ) -> Result<Vec<Deed>, NodeFault>
        requires { IsBatch work }
        ensures { Stops (shown self.old) (in_hand work) result (shown self.new) };

    /// Whether the node answers `Down`; takes no memory. While it does not, its state and what it
    /// holds and lets wait are in their ranges, and nobody waits in vain.
    fn is_down(&self) -> bool
        ensures down { result ≡ (shown self.now).is_down }
        ensures orderly { result ≡ false → IsOrderly (shown self.now).state (shown self.now).soft };
}
