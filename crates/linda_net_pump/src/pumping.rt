//! The reading loop of a connection: bytes come in, and the messages of whole frames go to an
//! intake.

ghost use Rattle.std.specs.Prelude.{◌≡◌, ◌≢◌, ◌++◌, ◌∷◌, [], ◌+◌, ◌≤◌, Some, length, take, vec_len};
ghost use Rattle.std.specs.Prelude.{IfOk, IfErr, OnOk};
ghost use Rattle.std.specs.Io.KnownBytes.{Consumes, Keeps, IsAtEnd};
ghost use Rattle.linda_store.specs.declared.end.ConverseFault.TheVariants.{Read as ReadFault};
ghost use Rattle.linda_store.specs.Conversation.{detail_of};
ghost use Rattle.linda_store_step.specs.declared.size.TheConstants.{MAX_BATCH};
ghost use Rattle.linda_wire.specs.declared.fault.FrameFault.TheVariants.{Memory};
ghost use Rattle.linda_net_pump.specs.Pumping.{ReadsOn, HandsOver, HasPumped};

use crate::intake::Intake;
use linda_store::{ConverseFault, End, MAX_READS};
use linda_store_step::MAX_BATCH;
use linda_wire::{Feed, FrameFault, Message};
use std::alloc::Global;
use std::io::Read;

/// The most bytes that are read at once.
const PIECE: usize = 4096;

/// Reads a stream to its end, and hands over the message of each whole frame, once and in the order
/// read.
///
/// # Errors
///
/// `Read` if the reader failed, `Turns` after 4,294,967,295 reads: the messages of all whole frames
/// that were read were handed over. `Memory`, and what the intake answers: those of some first
/// frames.
pub fn pump<R: Read, I: Intake>(
    alloc: Global,
    reader: &mut R,
    intake: &mut I,
) -> Result<End, ConverseFault>
    ensures { HasPumped (R.remaining reader.old) (R.remaining reader.new)
        (I.taken intake.old) (I.taken intake.new) result }
{
    let mut feed = Feed::new(alloc);
    let mut buffer = [0; PIECE];
    for _ in 0..MAX_READS {
        let len = read_piece(reader, &mut buffer)?;
        if len == 0 {
            return Ok(End::Ended { rest: feed.rest() });
        }
        match hand_over(alloc, &mut feed, &buffer[..len], intake)? {
            None => {}
            Some(detail) => return Ok(End::Malformed(detail)),
        }
    }
    Err(ConverseFault::Turns)
}

// Reads the next piece, and says how long it is: 0 only at the end of the stream.
fn read_piece<R: Read>(reader: &mut R, buffer: &mut [u8; PIECE]) -> Result<usize, ConverseFault>
    ensures ok { IfOk result (λ len. (len ≤ length buffer.new)
        × (Consumes (R.remaining reader.old) (R.remaining reader.new) (take len buffer.new))) }
    ensures end { IfOk result (λ len. len ≡ 0 → IsAtEnd (R.remaining reader.new)) }
    ensures err { IfErr result (λ fault. (fault ≡ ReadFault)
        × Keeps (R.remaining reader.old) (R.remaining reader.new)) }
{
    match reader.read(buffer) {
        Ok(len) => Ok(len),
        Err(_) => Err(ConverseFault::Read),
    }
}

// Feeds a piece and hands over all messages that are whole then; the offset of a fault after them,
// if there is one.
fn hand_over<I: Intake>(
    alloc: Global,
    feed: &mut Feed,
    piece: &[u8],
    intake: &mut I,
) -> Result<Option<u32>, ConverseFault>
    ensures { HandsOver (feed.old ++ piece.now) feed.new (I.taken intake.old) (I.taken intake.new)
        result }
{
    match feed.feed(piece) {
        Ok(()) => hand_over_whole(alloc, feed, intake),
        Err(_) => Err(ConverseFault::Memory),
    }
}

// Hands over all messages that are whole; the offset of a fault after them, if there is one.
fn hand_over_whole<I: Intake>(
    alloc: Global,
    feed: &mut Feed,
    intake: &mut I,
) -> Result<Option<u32>, ConverseFault>
    ensures { HandsOver feed.old feed.new (I.taken intake.old) (I.taken intake.new) result }
{
    loop {
        match feed.next(alloc) {
            Ok(found) => match found {
                Some(message) => {
                    let messages = batch(alloc, feed, message)?;
                    intake.take(messages)?;
                }
                None => return Ok(None),
            },
            Err(fault) => return detail_of(fault),
        }
    }
}

// This message and those that are whole after it, 64 at most.
fn batch(alloc: Global, feed: &mut Feed, first: Message) -> Result<Vec<Message>, ConverseFault>
    ensures ok { IfOk result (λ v. ReadsOn feed.old feed.new first v.items) }
    ensures some { IfOk result (λ v. (1 ≤ vec_len v) × (vec_len v ≤ MAX_BATCH)) }
    ensures less { length feed.new ≤ length feed.old }
    ensures err { IfErr result (λ fault. fault ≡ ConverseFault.Memory) }
{
    let mut messages = Vec::new(alloc);
    keep(&mut messages, first)?;
    for _ in 1..MAX_BATCH {
        match feed.next(alloc) {
            Ok(Some(message)) => keep(&mut messages, message)?,
            _ => break,
        }
    }
    Ok(messages)
}

// Keeps one message more.
fn keep(messages: &mut Vec<Message>, message: Message) -> Result<(), ConverseFault>
    ensures items { OnOk result (messages.new.items ≡ messages.old.items ++ message ∷ []) }
    ensures len { OnOk result (vec_len messages.new ≡ vec_len messages.old + 1) }
    ensures err { IfErr result (λ fault. fault ≡ ConverseFault.Memory) }
{
    match messages.push(message) {
        Ok(()) => Ok(()),
        Err(_) => Err(ConverseFault::Memory),
    }
}

// The offset that is reported for a fault of a frame; `Memory` is none.
fn detail_of(fault: FrameFault) -> Result<Option<u32>, ConverseFault>
    ensures ok { IfOk result (λ o. (fault ≢ Memory) × (o ≡ Some (detail_of fault))) }
    ensures err { IfErr result (λ told. told ≡ ConverseFault.Memory) }
{
    match fault.offset() {
        Some(offset) => Ok(Some(offset)),
        None => Err(ConverseFault::Memory),
    }
}
