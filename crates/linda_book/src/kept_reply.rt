//! The reply to a client's last numbered message, kept so that a repeated message gets it again.

ghost use Rattle.std.specs.Prelude.{◌≡◌, ◌↔◌, true, IfOk, OnErr};
ghost use Rattle.linda_book.specs.Entries.{HasTuple, is_left};

mod spelled;

use linda_tuple::Tuple;
use std::alloc::{AllocError, Global};

/// What a numbered message was answered with.
#[derive(Debug, Drop)]
pub enum KeptReply {
    /// The tuple was put, under this id.
    Stored(u64),
    /// The tuple was taken, with its id.
    Taken(u64, Tuple),
    /// The offer was gone, and nothing was taken.
    Gone,
    /// The client left: this is its last reply.
    Left,
}

impl KeptReply {
    /// Whether it answers a Leave.
    pub fn is_left(&self) -> bool
        ensures { result ≡ is_left self.now }
    {
        match self {
            KeptReply::Stored(_) => false,
            KeptReply::Taken(_, _) => false,
            KeptReply::Gone => false,
            KeptReply::Left => true,
        }
    }

    /// A copy with memory of its own.
    ///
    /// # Errors
    ///
    /// `AllocError` if memory runs out. It comes only for a reply with a tuple: the others take no
    /// memory.
    pub fn try_clone(&self, alloc: Global) -> Result<KeptReply, AllocError>
        ensures ok { IfOk result (λ copy. copy ≡ self.now) }
        ensures err { OnErr result (HasTuple self.now) }
    {
        match self {
            KeptReply::Stored(id) => Ok(KeptReply::Stored(*id)),
            KeptReply::Taken(id, tuple) => Ok(KeptReply::Taken(*id, tuple.try_clone(alloc)?)),
            KeptReply::Gone => Ok(KeptReply::Gone),
            KeptReply::Left => Ok(KeptReply::Left),
        }
    }
}

impl PartialEq for KeptReply {
    ghost use Rattle.std.specs.Cmp.{partial_equiv_from_equiv};
    ghost use Rattle.linda_book.specs.Sameness.{same_kept, same_kept-equiv};

    ghost eq = { same_kept };

    ghost laws = { partial_equiv_from_equiv same_kept-equiv };

    // Kept replies compare equal exactly if they are.
    fn eq(&self, other: &KeptReply) -> bool
        ensures test { result ≡ same_kept self.now other.now }
        ensures exact { (result ≡ true) ↔ (self.now ≡ other.now) }
    {
        match (self, other) {
            (KeptReply::Stored(id), KeptReply::Stored(stored)) => *id == *stored,
            (KeptReply::Taken(id, tuple), KeptReply::Taken(taken, row)) => {
                *id == *taken && *tuple == *row
            }
            (KeptReply::Gone, KeptReply::Gone) => true,
            (KeptReply::Left, KeptReply::Left) => true,
            _ => false,
        }
    }
}

impl Eq for KeptReply {
    ghost use Rattle.linda_book.specs.Sameness.{same_kept-equiv};

    ghost laws = { same_kept-equiv };
}
