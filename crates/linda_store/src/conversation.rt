//! A whole conversation over a reader and a writer.

ghost use Rattle.std.specs.Prelude.{◌≡◌, ◌≤◌, false, length, take, IfOk, IfErr};
ghost use Rattle.std.specs.Io.KnownBytes.{Consumes, Keeps, IsAtEnd};
ghost use Rattle.linda_store.specs.declared.connection_state.ConnectionState.TheVariants.{Open};
ghost use Rattle.linda_store.specs.declared.end.ConverseFault.TheVariants.{Read as ReadFault};
ghost use Rattle.linda_store.specs.Session.{beginner};
ghost use Rattle.linda_store.specs.Converse.{HasEndedAt, HasReplied, IsLeft, HasConversed};

use crate::connection_state::ConnectionState;
use crate::end::{ConverseFault, End};
use crate::node::Node;
use crate::sending::write_replies;
use crate::session::Session;
use std::alloc::Global;
use std::io::{Read, Write};

/// The most bytes that are read at once.
const PIECE: usize = 4096;

/// The most reads of a conversation. Each that does not end it gives a byte at least.
pub const MAX_READS: u32 = 4_294_967_295;

/// Reads a client's stream to its end and writes the node's replies. It reads pieces of at most
/// 4,096 bytes, at most 4,294,967,295 of them, and flushes what it writes before the next read.
///
/// At the end, however it comes, the greeted client is closed; what the node answers to that
/// changes nothing of the end.
///
/// # Errors
///
/// As [`ConverseFault`] says. An interrupted read or write is a fault like any other.
pub fn converse<N: Node, R: Read, W: Write>(
    alloc: Global,
    node: &mut N,
    reader: &mut R,
    writer: &mut W,
) -> Result<End, ConverseFault>
    ensures { HasConversed (N.shown node.old) (R.remaining reader.old) (R.remaining reader.new)
        (W.contents writer.old) (W.contents writer.new) result (N.shown node.new) }
{
    let mut session = Session::new(alloc);
    let end = talk(alloc, &mut session, node, reader, writer);
    close(alloc, &session, node);
    end
}

// Reads a client's stream to its end and writes the replies.
fn talk<N: Node, R: Read, W: Write>(
    alloc: Global,
    session: &mut Session,
    node: &mut N,
    reader: &mut R,
    writer: &mut W,
) -> Result<End, ConverseFault>
    requires { session.old ≡ beginner }
    ensures { HasEndedAt (N.shown node.old) (R.remaining reader.old) (R.remaining reader.new)
        (W.contents writer.old) (W.contents writer.new) result (N.shown node.new)
        session.new.greeted }
{
    let mut buffer = [0; PIECE];
    for _ in 0..MAX_READS {
        let len = read_piece(reader, &mut buffer)?;
        if len == 0 {
            return Ok(End::Ended {
                rest: session.rest(),
            });
        }
        match answer(alloc, session, node, writer, &buffer[..len])? {
            ConnectionState::Open => {}
            ConnectionState::Malformed(detail) => return Ok(End::Malformed(detail)),
            ConnectionState::Down => return Err(ConverseFault::Down),
        }
    }
    Err(ConverseFault::Turns)
}

// Reads the next piece, and says how long it is: 0 only at the end of the stream.
fn read_piece<R: Read>(reader: &mut R, buffer: &mut [u8; PIECE]) -> Result<usize, ConverseFault>
    ensures ok { IfOk result (λ len. (len ≤ length buffer.new)
        × (Consumes (R.remaining reader.old) (R.remaining reader.new) (take len buffer.new))) }
    ensures end { IfOk result (λ len. len ≡ 0 → IsAtEnd (R.remaining reader.new)) }
    ensures err { IfErr result (λ fault. (fault ≡ ReadFault)
        × Keeps (R.remaining reader.old) (R.remaining reader.new)) }
{
    match reader.read(buffer) {
        Ok(len) => Ok(len),
        Err(_) => Err(ConverseFault::Read),
    }
}

// Answers a piece and writes the replies; returns the state of the connection then.
fn answer<N: Node, W: Write>(
    alloc: Global,
    session: &mut Session,
    node: &mut N,
    writer: &mut W,
    piece: &[u8],
) -> Result<ConnectionState, ConverseFault>
    requires is_open { session.old.stage ≡ Open }
    requires not_spent { session.old.is_spent ≡ false }
    ensures { HasReplied session.old (N.shown node.old) piece.now (W.contents writer.old)
        (W.contents writer.new)
        result session.new (N.shown node.new) }
{
    match session.take(alloc, node, piece) {
        Ok(taken) => {
            write_replies(alloc, writer, &taken.replies)?;
            Ok(session.stage())
        }
        Err(_) => Err(ConverseFault::Memory),
    }
}

// Closes the greeted client, if there is one.
fn close<N: Node>(alloc: Global, session: &Session, node: &mut N)
    ensures { IsLeft session.now.greeted (N.shown node.old) (N.shown node.new) }
{
    if let Some(client) = session.greeted() {
        let _ = node.close(alloc, client);
    }
}
