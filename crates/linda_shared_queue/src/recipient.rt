//! Recipients of answers.

ghost use Rattle.std.specs.Prelude.{◌≡◌};

/// Who waits for an answer: a client, at a place in its mailbox. Only the address of a message
/// makes one.
#[derive(Clone, Copy)]
pub struct Recipient {
    client: u32,
    place: usize,
}

impl Recipient {
    /// This client, at this place.
    pub(crate) fn new(client: u32, place: usize) -> Recipient
        ensures { (result.client ≡ client) × (result.place ≡ place) }
    {
        Recipient { client, place }
    }

    /// The client that sent the message.
    pub fn client(&self) -> u32
        ensures { result ≡ self.now.client }
    {
        self.client
    }

    /// The place where the answer is waited for.
    pub fn place(&self) -> usize
        ensures { result ≡ self.now.place }
    {
        self.place
    }
}
