//! Stages of a connection, and its answer to a piece of a stream.

ghost use Rattle.std.specs.Prelude.{◌≡◌};
ghost use Rattle.linda_store.specs.Conversation.{stays_open};

use linda_wire::Reply;

/// The state of a connection. All but `Open` end it.
#[derive(Clone, Copy, Debug, PartialEq, Eq)]
pub enum ConnectionState {
    /// It goes on.
    Open,
    /// The client sent a frame that spells nothing. The offset in the frame of the first byte at
    /// fault, 0 if its length is at fault.
    Malformed(u32),
    /// The node is down.
    Down,
}

impl ConnectionState {
    /// Whether the connection goes on.
    pub fn is_open(self) -> bool
        ensures { result ≡ stays_open self }
    {
        match self {
            ConnectionState::Open => true,
            ConnectionState::Malformed(_) => false,
            ConnectionState::Down => false,
        }
    }
}

/// What a piece of a stream was answered with.
#[derive(Debug, Drop)]
pub struct Taken {
    /// What is said to the client, in order.
    pub replies: Vec<Reply>,
    /// Whether the connection goes on after these.
    pub goes_on: bool,
}
