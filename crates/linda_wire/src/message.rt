//! Messages of a client to a server.

ghost use Rattle.std.specs.Prelude.{◌≡◌, ◌++◌, IfOk, OnOk, OnErr};
ghost use Rattle.linda_wire.specs.Frames.{message_frame};

use crate::framed::encode;
use linda_tuple::{Template, Tuple};
use std::alloc::{AllocError, Global};

mod framed;

/// A message of a client to a server.
#[derive(Debug, Drop)]
pub enum Message {
    /// The first message of a connection: who speaks, in which version of the protocol, and whether
    /// the client has kept nothing from an earlier connection.
    Hello {
        version: u8,
        client: u32,
        fresh: bool,
    },
    /// Put the tuple. The client's numbered messages to a server count 1, 2, ..
    Out {
        n: u64,
        tuple: Tuple,
    },
    /// Is there a tuple that the template matches? With `remove` the client wants to take it, and
    /// it is to be offered and held; else a copy is to be read. The client distinguishes its asks
    /// by the ticket.
    Ask {
        ticket: u64,
        remove: bool,
        template: Template,
    },
    /// Take the tuple of this id, which was offered for the ticket. It is one of the client's
    /// numbered messages.
    Accept {
        n: u64,
        ticket: u64,
        id: u64,
    },
    /// The client no longer wants what it asked for by this ticket, nor what was offered for it.
    Cancel {
        ticket: u64,
    },
    /// The client gives up its number for good: from here on it holds nothing, waits for nothing
    /// and puts nothing. It is the last of the client's numbered messages.
    Leave {
        n: u64,
    },
}

impl Message {
    /// A copy with memory of its own.
    pub fn try_clone(&self, alloc: Global) -> Result<Message, AllocError>
        ensures { IfOk result (λ m. m ≡ self.now) }
    {
        match self {
            Message::Hello {
                version,
                client,
                fresh,
            } => Ok(Message::Hello {
                version: *version,
                client: *client,
                fresh: *fresh,
            }),
            Message::Out { n, tuple } => Ok(Message::Out {
                n: *n,
                tuple: tuple.try_clone(alloc)?,
            }),
            Message::Ask {
                ticket,
                remove,
                template,
            } => Ok(Message::Ask {
                ticket: *ticket,
                remove: *remove,
                template: template.try_clone(alloc)?,
            }),
            Message::Accept { n, ticket, id } => Ok(Message::Accept {
                n: *n,
                ticket: *ticket,
                id: *id,
            }),
            Message::Cancel { ticket } => Ok(Message::Cancel { ticket: *ticket }),
            Message::Leave { n } => Ok(Message::Leave { n: *n }),
        }
    }
}

/// Appends the message's frame.
///
/// # Errors
///
/// If memory runs out, `out` is left as it was.
pub fn encode_message(out: &mut Vec<u8>, message: &Message) -> Result<(), AllocError>
    ensures ok { OnOk result (out.new.items ≡ out.old.items ++ message_frame message.now) }
    ensures err { OnErr result (out.new.items ≡ out.old.items) }
{
    encode(out, message)
}
