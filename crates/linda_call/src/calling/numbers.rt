//! The numbers of a client that goes on after others of its number: what it counts from 1 on,
//! servers count after the last number that they kept before it.

ghost use Rattle.std.specs.Prelude.{◌≡◌, ◌-◌, nat_le, true, false, None, Some};
ghost use Rattle.linda_call.specs.Numbers.{onward_of, homeward_of, answered_in};

use linda_wire::{Message, Reply};

/// Makes the message what its server is to see, which kept `base` numbers before.
pub(super) fn onward(message: &mut Message, base: u64)
    ensures { message.new ≡ onward_of base message.old }
{
    match message {
        Message::Out { n, .. } => *n = n.saturating_add(base),
        Message::Accept { n, .. } => *n = n.saturating_add(base),
        Message::Leave { n } => *n = n.saturating_add(base),
        _ => {}
    }
}

/// Makes the reply what the client is to see, from a server that kept `base` numbers before.
/// Whether there is anything for it to see: not if it answers one of those.
pub(super) fn homeward(reply: &mut Reply, base: u64) -> bool
    ensures seen { result ≡ true → homeward_of base reply.old ≡ Some reply.new }
    ensures none { result ≡ false → homeward_of base reply.old ≡ None }
{
    match reply {
        Reply::Stored { n, .. } => comes_after(n, base),
        Reply::Taken { n, .. } => comes_after(n, base),
        Reply::Gone { n } => comes_after(n, base),
        Reply::Left { n } => comes_after(n, base),
        _ => true,
    }
}

// Counts a number from the base on, if it is above it.
fn comes_after(n: &mut u64, base: u64) -> bool
    ensures after { result ≡ true → (nat_le n.old base ≡ false) × (n.new ≡ n.old - base) }
    ensures before { result ≡ false → (nat_le n.old base ≡ true) × (n.new ≡ n.old) }
{
    if *n <= base {
        return false;
    }
    *n -= base;
    true
}

/// The number of the message that the reply answers; `None` if it answers no numbered one.
pub(super) fn number_of(reply: &Reply) -> Option<u64>
    ensures { result ≡ answered_in reply.now }
{
    match reply {
        Reply::Stored { n, .. } => Some(*n),
        Reply::Taken { n, .. } => Some(*n),
        Reply::Gone { n } => Some(*n),
        Reply::Left { n } => Some(*n),
        _ => None,
    }
}
