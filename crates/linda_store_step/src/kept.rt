//! A kept reply as it goes to its client again.

ghost use Rattle.std.specs.Prelude.{◌≡◌, IfOk, OnErr};
ghost use Rattle.linda_book.specs.Entries.{HasTuple};
ghost use Rattle.linda_store_step.specs.Answer.{reply_of_kept};

use linda_book::KeptReply;
use linda_wire::Reply;
use std::alloc::{AllocError, Global};

/// The kept reply as it goes to the client again, for its message `n`, with memory of its own.
pub(crate) fn to_reply(kept: &KeptReply, alloc: Global, n: u64) -> Result<Reply, AllocError>
    ensures ok { IfOk result (λ r. r ≡ reply_of_kept n kept.now) }
    ensures err { OnErr result (HasTuple kept.now) }
{
    match kept {
        KeptReply::Stored(id) => Ok(Reply::Stored { n, id: *id }),
        KeptReply::Taken(id, tuple) => Ok(Reply::Taken {
            n,
            id: *id,
            tuple: tuple.try_clone(alloc)?,
        }),
        KeptReply::Gone => Ok(Reply::Gone { n }),
        KeptReply::Left => Ok(Reply::Left { n }),
    }
}
