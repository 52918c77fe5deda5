//! Replies of a server to a client.

ghost use Rattle.std.specs.Prelude.{◌≡◌, ◌++◌, IfOk, OnOk, OnErr};
ghost use Rattle.linda_wire.specs.Frames.{reply_frame};

use crate::framed::encode;
use linda_tuple::Tuple;
use std::alloc::{AllocError, Global};

mod framed;

/// A reply of a server to a client.
#[derive(Debug, Drop)]
pub enum Reply {
    /// The client is greeted; `last` is the number of its last numbered message that is kept, 0 if
    /// there is none.
    Welcome { last: u64 },
    /// The tuple of the client's message `n` is stored under this id.
    Stored { n: u64, id: u64 },
    /// The tuple of this id matches what the client asked for by the ticket. It is held for the
    /// client until that accepts it or cancels the ticket.
    Offer { ticket: u64, id: u64, tuple: Tuple },
    /// A copy of the tuple of this id, which matches what the client asked for by the ticket. The
    /// tuple itself stays stored, and the ask is over.
    Read { ticket: u64, id: u64, tuple: Tuple },
    /// The tuple of this id is taken, for the client's message `n`.
    Taken { n: u64, id: u64, tuple: Tuple },
    /// The offer that the client's message `n` accepted is gone, and nothing was taken.
    Gone { n: u64 },
    /// The message was refused, and changed nothing. The detail depends on the code.
    Refused { code: u8, detail: u64 },
    /// The client has left, by its message `n`.
    Left { n: u64 },
}

impl Reply {
    /// A copy with memory of its own.
    pub fn try_clone(&self, alloc: Global) -> Result<Reply, AllocError>
        ensures { IfOk result (λ r. r ≡ self.now) }
    {
        match self {
            Reply::Welcome { last } => Ok(Reply::Welcome { last: *last }),
            Reply::Stored { n, id } => Ok(Reply::Stored { n: *n, id: *id }),
            Reply::Offer { ticket, id, tuple } => Ok(Reply::Offer {
                ticket: *ticket,
                id: *id,
                tuple: tuple.try_clone(alloc)?,
            }),
            Reply::Read { ticket, id, tuple } => Ok(Reply::Read {
                ticket: *ticket,
                id: *id,
                tuple: tuple.try_clone(alloc)?,
            }),
            Reply::Taken { n, id, tuple } => Ok(Reply::Taken {
                n: *n,
                id: *id,
                tuple: tuple.try_clone(alloc)?,
            }),
            Reply::Gone { n } => Ok(Reply::Gone { n: *n }),
            Reply::Refused { code, detail } => Ok(Reply::Refused {
                code: *code,
                detail: *detail,
            }),
            Reply::Left { n } => Ok(Reply::Left { n: *n }),
        }
    }
}

/// Appends the reply's frame.
///
/// # Errors
///
/// If memory runs out, `out` is left as it was.
pub fn encode_reply(out: &mut Vec<u8>, reply: &Reply) -> Result<(), AllocError>
    ensures ok { OnOk result (out.new.items ≡ out.old.items ++ reply_frame reply.now) }
    ensures err { OnErr result (out.new.items ≡ out.old.items) }
{
    encode(out, reply)
}
