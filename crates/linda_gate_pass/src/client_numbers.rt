//! The client numbers that a certificate allows.

ghost use Rattle.std.specs.Prelude.{◌≡◌};
ghost use Rattle.linda_gate_pass.specs.Passing.{allows, may_begin, is_hello};

use linda_wire::{Message, VERSION};

/// The client numbers that a certificate allows: those from `low` to `high`.
#[derive(Clone, Copy, Debug, PartialEq, Eq)]
pub struct ClientNumbers {
    /// The first of them.
    pub low: u32,
    /// The last of them.
    pub high: u32,
}

impl ClientNumbers {
    /// Whether this client is among them.
    pub fn allows(&self, client: u32) -> bool
        ensures { result ≡ allows self.now client }
    {
        self.low <= client && client <= self.high
    }

    /// Whether a message may be the first one.
    pub(crate) fn may_begin(&self, message: &Message) -> bool
        ensures { result ≡ may_begin self.now message.now }
    {
        match message {
            Message::Hello {
                version,
                client,
                fresh: _,
            } => *version == VERSION && self.allows(*client),
            Message::Out { .. } => false,
            Message::Ask { .. } => false,
            Message::Accept { .. } => false,
            Message::Cancel { .. } => false,
            Message::Leave { .. } => false,
        }
    }
}

/// Whether it is a Hello.
pub(crate) fn is_hello(message: &Message) -> bool
    ensures { result ≡ is_hello message.now }
{
    match message {
        Message::Hello { .. } => true,
        Message::Out { .. } => false,
        Message::Ask { .. } => false,
        Message::Accept { .. } => false,
        Message::Cancel { .. } => false,
        Message::Leave { .. } => false,
    }
}
