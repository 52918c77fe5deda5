//! Handling of messages by the durable server, and of a client's leaving.

ghost use Rattle.std.specs.Prelude.{◌≡◌, ◌∷◌, [], ◌≤◌, true, false, length};
ghost use Rattle.std.specs.Prelude.{IfOk, OnOk, IsErrOf};
ghost use Rattle.linda_server.specs.Server.{AlwaysLeave};

use super::Durable;
use crate::fault::node_fault;
use linda_disk::Disk;
use linda_store::NodeFault;
use linda_wire::{Message, Reply};
use std::alloc::Global;

impl<D: Disk> Durable<D> {
    ghost use Rattle.linda_store_step.specs.Dispatch.{on_close};
    ghost use Rattle.linda_store_step.specs.declared.size.TheConstants.{MAX_BATCH};
    ghost use Rattle.linda_store_step.specs.History.{hangs_up};
    ghost use Rattle.linda_store.specs.Node.{MayRemain};
    ghost use Rattle.linda_server.specs.Calls.{StandsFor};
    ghost use Rattle.linda_server.specs.Node.{shown};
    ghost use Rattle.linda_server.specs.Handled.{Handles};
    ghost use Rattle.linda_server.specs.Lives.{GoesOn};

    /// Takes one message of a client. What is answered goes to the clients named beside each reply,
    /// in order.
    ///
    /// # Errors
    ///
    /// `Full`, and nothing changed; `Down`: the server is down, and all that the message asks is
    /// done or nothing.
    pub fn handle(
        &mut self,
        alloc: Global,
        client: u32,
        message: &Message,
    ) -> Result<Vec<(u32, Reply)>, NodeFault>
        ensures { Handles self.old ((client, message.now) ∷ []) result self.new }
    {
        match self.serve(alloc, client, message) {
            Ok(served) => Ok(served.into_sends()),
            Err(fault) => Err(node_fault(fault)),
        }
    }

    /// Takes several messages, at most 64, each of its client, one after another; what is answered
    /// comes when all of them were taken.
    ///
    /// # Errors
    ///
    /// As those of `handle`.
    pub fn handle_all(
        &mut self,
        alloc: Global,
        messages: &[(u32, Message)],
    ) -> Result<Vec<(u32, Reply)>, NodeFault>
        requires { length messages.now ≤ MAX_BATCH }
        ensures { Handles self.old messages.now result self.new }
    {
        match self.serve_all(alloc, messages) {
            Ok(served) => Ok(served.into_sends()),
            Err(fault) => Err(node_fault(fault)),
        }
    }

    /// Gives up all that the client asked, as its leaving does. No device call is made.
    ///
    /// # Errors
    ///
    /// `Down`: the server was down, and nothing changed; or it is because memory ran out.
    pub fn close(&mut self, alloc: Global, client: u32) -> Result<Vec<(u32, Reply)>, NodeFault>
        ensures any_moment { self.old.down ≡ false
            → AlwaysLeave self.old.disks self.new.disks (StandsFor self.old.store.state) }
        ensures done { IfOk result (λ sends.
            record { sends = sends.items; soft = self.new.store.soft }
            ≡ on_close self.old.store.state.bag client self.old.store.soft) }
        ensures same { (self.new.store.state ≡ self.old.store.state)
            × (self.new.disks ≡ self.old.disks) × (self.new.limit ≡ self.old.limit) }
        ensures up { OnOk result ((self.old.down ≡ false) × (self.new.down ≡ false)) }
        ensures down { IsErrOf result NodeFault.Down → self.new.down ≡ true }
        ensures stays_down { self.old.down ≡ true
            → IsErrOf result NodeFault.Down × (self.new ≡ self.old) }
        ensures never_full { IsErrOf result NodeFault.Full → ⊥ }
        ensures lost { self.old.down ≡ false → self.new.down ≡ true → MayRemain
            (shown self.old.before.value self.old.store self.old.down self.old.lost.items)
            (hangs_up client ∷ []) self.new.lost.items }
        ensures before { self.old.down ≡ false → self.new.down ≡ true
            → self.new.before.value ≡ self.old.store.state }
        // Every life of the server goes on by it.
        ensures life { GoesOn (λ sends. sends.items) self.old result self.new }
    {
        if self.down {
            return Err(NodeFault::Down);
        }
        self.begin();
        let Ok(sends) = self.store.close(alloc, client) else {
            return Err(NodeFault::Down);
        };
        self.down = false;
        Ok(sends)
    }
}
