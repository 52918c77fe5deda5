//! Receipts that several have together.

ghost use Rattle.std.specs.Prelude.{◌≡◌, ◌↔◌, true, IfOk};
ghost use Rattle.linda_shared_accounts.specs.Receipts.{client_in, number_in};

use crate::receipt::Receipt;
use std::alloc::{AllocError, Global};
use std::marker::Model;
use std::sync::Arc;

/// A receipt in memory that its copies share: what is kept under the lock and what was reported to
/// a session are one receipt. Contracts see the receipt.
#[derive(Debug, Drop)]
pub struct SharedReceipt {
    shared: Arc<Receipt, Global>,
}

impl Model for SharedReceipt {
    ghost use Rattle.std.specs.Arc.{arc_value};
    ghost use Rattle.linda_shared_accounts.specs.declared.receipt.Receipt.{Receipt};
    ghost use Rattle.linda_shared_accounts.specs.Codes.{receipt_code};

    ghost Value = { Receipt };

    ghost coded = { receipt_code };

    ghost view = { λ r. arc_value r.shared };
}

impl SharedReceipt {
    /// The receipt, in memory that its copies are to share.
    ///
    /// # Errors
    ///
    /// `AllocError` if memory runs out; the receipt is dropped.
    pub fn new(alloc: Global, receipt: Receipt) -> Result<SharedReceipt, AllocError>
        ensures { IfOk result (λ r. r ≡ receipt) }
    {
        match Arc::new(alloc, receipt) {
            Ok(shared) => Ok(SharedReceipt { shared }),
            Err(_) => Err(AllocError),
        }
    }

    /// The receipt.
    pub fn get(&self) -> &Receipt
        ensures { result.now ≡ self.now }
    {
        &*self.shared
    }

    /// The client whose deed it was.
    pub fn client(&self) -> u32
        ensures { result ≡ client_in self.now }
    {
        self.get().client()
    }

    /// The number of the message that asked for it.
    pub fn number(&self) -> u64
        ensures { result ≡ number_in self.now }
    {
        self.get().number()
    }

    /// Whether both are one: their deeds and their replies.
    pub fn is_same(&self, other: &SharedReceipt) -> bool
        ensures { (result ≡ true) ↔ (self.now ≡ other.now) }
    {
        self.get().is_same(other.get())
    }

    /// The same receipt in the same memory. Takes no memory.
    ///
    /// # Errors
    ///
    /// `AllocError` if it is shared too often to be counted.
    pub fn try_clone(&self) -> Result<SharedReceipt, AllocError>
        ensures { IfOk result (λ r. r ≡ self.now) }
    {
        Ok(SharedReceipt {
            shared: Arc::try_clone(&self.shared)?,
        })
    }
}
