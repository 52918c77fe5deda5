//! Replies that were taken out of an outbox.

ghost use Rattle.std.specs.Prelude.{◌≡◌};

use linda_wire::Reply;

/// The replies that waited for a client, in order, taken out of its outbox. Only
/// `Outboxes::drain_next` makes one, so its replies were posted to this client.
#[derive(Drop)]
pub struct Sent {
    pub(crate) client: u32,
    pub(crate) replies: Vec<Reply>,
}

impl Sent {
    /// The client that they are for.
    pub fn client(&self) -> u32
        ensures { result ≡ self.now.client }
    {
        self.client
    }

    /// The replies by themselves, in order.
    pub fn into_replies(self) -> Vec<Reply>
        ensures { result ≡ self.replies }
    {
        self.replies
    }
}
