//! Numbers of a client in a later life: it counts from 1 on, and its servers count after the last
//! number that they kept before.

use linda_wire::{Message, Reply};

/// Makes the message what its server is to see.
pub fn onward(message: &mut Message, base: u64) {
    match message {
        Message::Out { n, .. } => *n = n.saturating_add(base),
        Message::Accept { n, .. } => *n = n.saturating_add(base),
        Message::Leave { n } => *n = n.saturating_add(base),
        _ => {}
    }
}

/// Makes the reply what its client is to see.
pub fn homeward(reply: &mut Reply, base: u64) {
    match reply {
        Reply::Stored { n, .. } => *n = n.saturating_sub(base),
        Reply::Taken { n, .. } => *n = n.saturating_sub(base),
        Reply::Gone { n } => *n = n.saturating_sub(base),
        Reply::Left { n } => *n = n.saturating_sub(base),
        _ => {}
    }
}

/// The number of the message that the reply answers, if that has one.
pub fn number_of(reply: &Reply) -> Option<u64> {
    match reply {
        Reply::Stored { n, .. } => Some(*n),
        Reply::Taken { n, .. } => Some(*n),
        Reply::Gone { n } => Some(*n),
        Reply::Left { n } => Some(*n),
        _ => None,
    }
}
