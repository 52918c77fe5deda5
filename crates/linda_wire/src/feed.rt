//! A stream of frames, whose bytes come in pieces.

ghost use Rattle.std.specs.Prelude.{◌≡◌, ◌↔◌, ◌++◌, [], length, IfOk, IfErr, IfSome, IsErrOf, OnOk};
ghost use Rattle.std.specs.Prelude.{OnErr};
ghost use Rattle.linda_wire.specs.Frames.{frame};
ghost use Rattle.linda_wire.specs.Stream.{Partial, Answers, IsWhole, IsFaultOf, front};

use crate::fault::FrameFault;
use crate::framed::FramePayload;
use crate::length::len_of_payload;
use crate::limits::LENGTH_BYTES;
use crate::message::Message;
use crate::payload::read_whole;
use crate::reply::Reply;
use crate::unread::Unread;
use std::alloc::{AllocError, Global};
use std::marker::{Model, PhantomData};

/// The bytes of a stream of frames that are not read yet. They may come in any pieces: how the
/// stream was cut does not matter.
///
/// Feeding and reading cost time that is linear in the bytes fed.
#[derive(Debug)]
pub struct FrameFeed<T: FramePayload> {
    unread: Unread,
    of: PhantomData<T>,
}

impl<T: FramePayload> Drop for FrameFeed<T> {
    fn drop(self) {
        let FrameFeed { unread: _, of: _ } = self;
    }
}

/// The bytes of a client's messages that are not read yet.
pub type Feed = FrameFeed<Message>;

/// The bytes of a server's replies that are not read yet.
pub type ReplyFeed = FrameFeed<Reply>;

impl<T: FramePayload> Model for FrameFeed<T> {
    ghost use Rattle.std.specs.Prelude.{List, ℕ};

    ghost Value = { List ℕ };

    ghost view = { λ a. a.unread };
}

impl<T: FramePayload> FrameFeed<T> {
    /// A stream of which nothing came yet.
    pub fn new(alloc: Global) -> FrameFeed<T>
        ensures { result ≡ [] }
    {
        FrameFeed {
            unread: Unread::new(alloc),
            of: PhantomData,
        }
    }

    /// Takes the next piece of the stream, of any length.
    ///
    /// # Errors
    ///
    /// Without memory for the piece nothing of it is taken.
    pub fn feed(&mut self, piece: &[u8]) -> Result<(), AllocError>
        ensures ok { OnOk result (self.new ≡ self.old ++ piece.now) }
        ensures err { OnErr result (self.new ≡ self.old) }
    {
        self.unread.append(piece)
    }

    /// The value at the front, which is then read; `None` if less than a whole frame is there.
    ///
    /// # Errors
    ///
    /// The fault of the frame at the front, once it can be known: of its length with its first four
    /// bytes, else with its last byte. It stays at the front, so the same fault is answered from
    /// then on. `Memory` if the value at the front finds none. An error changes nothing.
    pub fn next(&mut self, alloc: Global) -> Result<Option<T>, FrameFault>
        ensures found { IfOk result (λ o.
            IfSome o (λ v. (self.old ≡ frame (T.format.spell v) ++ self.new) × T.format.Fits v)) }
        ensures partial { (result ≡ Ok None) ↔ (front T.format self.old ≡ Partial) }
        ensures told { IfErr result (λ fault. IsFaultOf self.old fault) }
        // Memory runs out only if a value is at the front.
        ensures memory { IsErrOf result FrameFault.Memory → IsWhole (front T.format self.old) }
        ensures exact { Answers (front T.format) self.old result self.new }
    {
        let bytes = self.unread.as_slice();
        let Some(len) = len_of_payload(bytes)? else {
            return Ok(None);
        };
        let value = read_whole(alloc, &bytes[LENGTH_BYTES..LENGTH_BYTES + len])?;
        self.unread.pass(LENGTH_BYTES + len);
        Ok(Some(value))
    }

    /// How many bytes are not read yet.
    pub fn rest(&self) -> usize
        ensures { result ≡ length self.now }
    {
        self.unread.len()
    }
}
