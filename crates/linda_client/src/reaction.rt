//! Reactions, the results of the client's calls.

ghost use Rattle.std.specs.Prelude.{◌≡◌, [], None, Some};

use crate::outcome::Outcome;
use linda_wire::Message;
use std::alloc::Global;

/// What one call of the client came to.
#[derive(Debug, Drop)]
pub struct Reaction {
    /// What is to be sent, with the server that it goes to, in order.
    pub packets: Vec<(u32, Message)>,
    /// The end of what was pending, if it came to its end.
    pub outcome: Option<Outcome>,
    /// A refusal by a server: the server, and the code and the detail that it sent.
    pub fault: Option<(u32, u8, u64)>,
}

impl Reaction {
    /// Nothing is sent and nothing is reported.
    pub(crate) fn quiet(alloc: Global) -> Reaction
        ensures packets { result.packets.items ≡ [] }
        ensures outcome { result.outcome ≡ None }
        ensures fault { result.fault ≡ None }
    {
        Reaction::sending(Vec::new(alloc))
    }

    /// Only these packets are sent.
    pub(crate) fn sending(packets: Vec<(u32, Message)>) -> Reaction
        ensures packets { result.packets.items ≡ packets.items }
        ensures outcome { result.outcome ≡ None }
        ensures fault { result.fault ≡ None }
    {
        Reaction {
            packets,
            outcome: None,
            fault: None,
        }
    }

    /// What was pending has ended so, and these packets are sent.
    pub(crate) fn ended(packets: Vec<(u32, Message)>, outcome: Outcome) -> Reaction
        ensures packets { result.packets.items ≡ packets.items }
        ensures outcome { result.outcome ≡ Some outcome }
        ensures fault { result.fault ≡ None }
    {
        Reaction {
            packets,
            outcome: Some(outcome),
            fault: None,
        }
    }

    /// A server refused something.
    pub(crate) fn faulted(alloc: Global, server: u32, code: u8, detail: u64) -> Reaction
        ensures packets { result.packets.items ≡ [] }
        ensures outcome { result.outcome ≡ None }
        ensures fault { result.fault ≡ Some (server, code, detail) }
    {
        Reaction {
            packets: Vec::new(alloc),
            outcome: None,
            fault: Some((server, code, detail)),
        }
    }
}
