//! `linda pipe`: one connection to one server, over lines of hexadecimal digits.

ghost use Rattle.std.specs.Prelude.{◌≡◌, ◌+◌, ◌<◌, ◌≤◌, ◌^◌, [], List, ℕ, Option, OnOk};
ghost use Rattle.linda_store.specs.Node as seen;
ghost use Rattle.linda_pipe.specs.declared.piping.TheConstants.{BUFFER};
ghost use Rattle.linda_pipe.specs.Exchanges.{IsPiping, IsUnderway, TurnsTo};
ghost use Rattle.linda_pipe.specs.Piping.{IsPiped, IsPipedTo};

use crate::exchange::Exchange;
use crate::fault::PipeFault;
use linda_store::{MAX_READS, Node, Volatile};
use std::alloc::Global;
use std::io::{Read, Write};

// The most bytes of one read.
const BUFFER: usize = 65536;

/// Serves one connection to a new server. Each line of the input is a piece of the client's stream
/// in hexadecimal digits; each reply is a line of them too, and it is written and flushed before
/// more is read.
///
/// It ends well at the end of the input, whose last line may lack its line feed, and after a reply
/// that ends the connection; then nothing more is read.
///
/// # Errors
///
/// `NotHexadecimal` at the first such line and `Memory` at the line if memory runs out: the replies
/// to all lines before it are written. `Read` and `Turns` if the input fails, or has not ended
/// after 4,294,967,295 reads: all replies are written. `Write` if the output fails: some first
/// bytes of the replies are.
pub fn pipe<R: Read, W: Write>(
    alloc: Global,
    reader: &mut R,
    writer: &mut W,
) -> Result<(), PipeFault>
    ensures { IsPiped (R.remaining reader.old) (R.remaining reader.new)
        (W.contents writer.old) (W.contents writer.new) result }
{
    let mut exchange = Exchange::new(alloc, Volatile::new(alloc));
    serve(alloc, &mut exchange, reader, writer)
}

// Serves a connection that has just begun, to its end.
fn serve<N: Node, R: Read, W: Write>(
    alloc: Global,
    exchange: &mut Exchange<N>,
    reader: &mut R,
    writer: &mut W,
) -> Result<(), PipeFault>
    requires no_lines { exchange.old.lines ≡ 0 }
    requires no_replies { exchange.old.replies.items ≡ [] }
    ensures { (first : seen.Node) → IsUnderway N.shown first [] [] exchange.old
        → IsPipedTo first (R.remaining reader.old) (R.remaining reader.new)
        (W.contents writer.old) (W.contents writer.new) result }
{
    let mut buffer = [0; BUFFER];
    for _turn in 0..MAX_READS {
        if !read_once(alloc, exchange, &mut buffer, reader, writer)? {
            return Ok(());
        }
    }
    Err(PipeFault::Turns)
}

// Reads once, takes what was read, and sends the replies; says whether more is to be read.
fn read_once<N: Node, R: Read, W: Write>(
    alloc: Global,
    exchange: &mut Exchange<N>,
    buffer: &mut [u8; BUFFER],
    reader: &mut R,
    writer: &mut W,
) -> Result<bool, PipeFault>
    requires { exchange.old.lines + BUFFER + 1 < 2 ^ 64 }
    ensures turns { (first : seen.Node) (reads : ℕ) (first_left first_written : Option (List ℕ))
        → IsPiping N.shown first reads first_left (R.remaining reader.old) first_written
        (W.contents writer.old)
        exchange.old
        → TurnsTo N.shown first (reads + 1) first_left (R.remaining reader.new) first_written
        (W.contents writer.new)
        exchange.new result }
    ensures count { OnOk result (exchange.new.lines ≤ exchange.old.lines + BUFFER + 1) }
{
    let Ok(count) = reader.read(buffer) else {
        return Err(PipeFault::Read);
    };
    let outcome = exchange.take_read(alloc, &buffer[..count]);
    exchange.send_replies(writer)?;
    outcome
}
