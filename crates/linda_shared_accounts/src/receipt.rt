//! Receipts.

ghost use Rattle.std.specs.Prelude.{◌≡◌, ◌↔◌, true, IfOk};
ghost use Rattle.linda_shared_accounts.specs.Receipts.{client_in, number_in};

use linda_book::KeptReply;
use linda_store_state::Deed;
use std::alloc::{AllocError, Global};

/// A deed, and the reply to it.
#[derive(Debug, Drop)]
pub struct Receipt {
    /// What was done.
    pub deed: Deed,
    /// What is kept of it for its client.
    pub reply: KeptReply,
}

impl Receipt {
    /// The client whose deed it was.
    pub fn client(&self) -> u32
        ensures { result ≡ client_in self.now }
    {
        self.deed.client()
    }

    /// The number of the message that asked for it.
    pub fn number(&self) -> u64
        ensures { result ≡ number_in self.now }
    {
        self.deed.number()
    }

    /// Whether both are one: their deeds and their replies.
    pub fn is_same(&self, other: &Receipt) -> bool
        ensures { (result ≡ true) ↔ (self.now ≡ other.now) }
    {
        self.deed == other.deed && self.reply == other.reply
    }

    /// A copy with memory of its own.
    ///
    /// # Errors
    ///
    /// `AllocError` if memory runs out.
    pub fn try_clone(&self, alloc: Global) -> Result<Receipt, AllocError>
        ensures { IfOk result (λ copy. copy ≡ self.now) }
    {
        Ok(Receipt {
            deed: self.deed.try_clone(alloc)?,
            reply: self.reply.try_clone(alloc)?,
        })
    }
}
