//! Groups of messages of a loop, and its other calls, that go to the server next.

ghost use Rattle.std.specs.Prelude.{◌≡◌, [], IfOk};
ghost use Rattle.linda_store_step.specs.declared.size.TheConstants.{MAX_GROUP};
ghost use Rattle.linda_shared.specs.Group.{group_of};

use linda_net_relays::Share;
use linda_net_session::OpenWays;
use linda_shared::{MAX_GROUP, MessageGroup};
use linda_wire::Message;
use std::alloc::{AllocError, Global};
use std::sync::ledger::Ledger;

/// A call that is no request, of the connection of a key.
#[derive(Drop)]
pub(crate) enum LoopCall {
    /// The connection sent this before it was greeted.
    Greet(usize, Message),
    /// The client of the connection leaves.
    Disconnected(usize),
}

/// The messages of which no deed comes, and all others. The first group is served before the
/// second: so a message is in it only if none of its connection is in the second.
#[derive(Drop)]
pub(crate) struct Groups<L: Ledger> {
    pub(crate) asking: MessageGroup<usize, L>,
    pub(crate) doing: MessageGroup<usize, L>,
    /// What was taken in this turn.
    pub(crate) share: Share,
}

impl<L: Ledger> Groups<L> {
    /// Nothing.
    pub(crate) fn new(alloc: Global) -> Result<Groups<L>, AllocError>
        ensures { IfOk result (λ b. (b.asking ≡ group_of MAX_GROUP [] [])
            × (b.doing ≡ group_of MAX_GROUP [] [])) }
    {
        let asking = MessageGroup::new(alloc, MAX_GROUP)?;
        let doing = MessageGroup::new(alloc, MAX_GROUP)?;
        Ok(Groups {
            asking,
            doing,
            share: Share::new(),
        })
    }

    /// Whether nothing is here.
    pub(crate) fn is_empty(&self) -> bool {
        self.len() == 0
    }

    /// How many messages are here.
    pub(crate) fn len(&self) -> usize {
        self.asking.len().saturating_add(self.doing.len())
    }

    /// Whether there is no room for one Ask more.
    pub(crate) fn is_full_of_asks(&self) -> bool {
        self.asking.len() >= self.share.asks() || !self.asking.has_room()
    }

    /// On which ways there is room for one message more.
    pub(crate) fn room(&self) -> OpenWays {
        OpenWays {
            asks: !self.is_full_of_asks(),
            deeds: self.doing.has_room(),
        }
    }

    /// Whether more is taken now.
    pub(crate) fn takes_more(&self) -> bool {
        self.share.has_left() && self.doing.has_room() && !self.is_full_of_asks()
    }
}
