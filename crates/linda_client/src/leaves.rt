//! The Leaves that are not answered yet.

ghost use Rattle.std.specs.Prelude.{◌≡◌, ◌≤◌, [], true, false, length, IfOk};
ghost use Rattle.std.specs.List.{enumerate_from};
ghost use Rattle.linda_client.specs.declared.limits.TheConstants.{MAX_SERVERS};
ghost use Rattle.linda_client.specs.Packets.{leave_packets};
ghost use Rattle.linda_client.specs.React.{unanswered_leaves};

use linda_wire::Message;
use std::alloc::{AllocError, Global};
use std::marker::Model;

/// The servers that have not answered the client's Leave, rising, each with the number of its
/// Leave.
#[derive(Drop)]
pub(crate) struct Leaves {
    items: Vec<(u32, u64)>,
}

impl Model for Leaves {
    ghost use Rattle.std.specs.Prelude.{ℕ, List};

    ghost Value = { List (ℕ × ℕ) };

    ghost view = { λ l. l.items.items };
}

impl Leaves {
    /// A Leave to each server, under the next number there.
    pub(crate) fn new(alloc: Global, next: &[u64]) -> Result<Leaves, AllocError>
        requires { length next.now ≤ MAX_SERVERS }
        ensures { IfOk result (λ l. l ≡ enumerate_from 0 next.now) }
    {
        let mut items = Vec::with_capacity(alloc, next.len())?;
        for (server, n) in next.iter().enumerate() {
            items.push((server as u32, *n))?;
        }
        Ok(Leaves { items })
    }

    /// The Leaves as messages, by rising server.
    pub(crate) fn packets(&self, alloc: Global) -> Result<Vec<(u32, Message)>, AllocError>
        ensures { IfOk result (λ v. v.items ≡ leave_packets self.now) }
    {
        let mut packets = Vec::with_capacity(alloc, self.items.len())?;
        for leave in &self.items {
            packets.push((leave.0, Message::Leave { n: leave.1 }))?;
        }
        Ok(packets)
    }

    /// Notes that this server has answered the Leave of this number.
    pub(crate) fn drop_answered(&mut self, server: u32, n: u64)
        ensures { self.new ≡ unanswered_leaves server n self.old }
    {
        self.items
            .retain(|leave| !(leave.0 == server && leave.1 == n));
    }

    /// Whether every server has answered.
    pub(crate) fn is_empty(&self) -> bool
        ensures none { result ≡ true → self.now ≡ [] }
        ensures some { result ≡ false → 1 ≤ length self.now }
    {
        self.items.is_empty()
    }
}
