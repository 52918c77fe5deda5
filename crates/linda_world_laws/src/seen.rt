//! View of one step: what is seen of it.

use linda_client::Outcome;

/// What one step shows.
#[derive(Debug, Drop)]
pub struct Seen {
    /// The client that reacted, if one did.
    pub client: Option<u32>,
    /// How what it was at came to its end, if it did.
    pub outcome: Option<Outcome>,
    /// A refusal by a server that it handed on: the server, the code and the detail.
    pub fault: Option<(u32, u8, u64)>,
    /// Whether a server had no room.
    pub full: bool,
}
