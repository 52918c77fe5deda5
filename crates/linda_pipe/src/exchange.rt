//! One connection to a server whose stream comes as lines of hexadecimal digits.

ghost use Rattle.std.specs.Prelude.{◌≡◌, ◌+◌, ◌<◌, ◌≤◌, ◌^◌, ◌++◌, true, [], ℕ, List, Option, None};
ghost use Rattle.std.specs.Prelude.{Ok, Err};
ghost use Rattle.std.specs.Prelude.{length, IfOk, IfErr, OnOk, OnErr};
ghost use Rattle.std.specs.Io.KnownBytes.{IsAtEnd};
ghost use Rattle.linda_pipe.specs.Hex.{piece_of};
ghost use Rattle.linda_pipe.specs.Lines.{ended, HasNoFeed};
ghost use Rattle.linda_store.specs.Node as seen;
ghost use Rattle.linda_store.specs.Sending.{HasSent};
ghost use Rattle.linda_pipe.specs.Exchanges.{Continues, IsAtLine, IsEnded, IsOver, IsUnderway};
ghost use Rattle.linda_pipe.specs.Exchanges.{LeadsTo, ReadsTo};

use crate::decode::decode_line;
use crate::fault::PipeFault;
use crate::line::split_line;
use crate::reply_line::push_reply_lines;
use linda_store::{ConnectionState, Node, Session, send};
use std::alloc::{AllocError, Global};
use std::io::Write;
use std::mem;

/// A server, a connection to it, and the texts on both sides that are not done yet.
///
/// Contracts say how far it is by `IsUnderway`: all whole lines of the text so far were answered,
/// and the replies are those that were sent and those in the buffer. What the server was at first
/// is `first` there.
#[derive(Drop)]
pub struct Exchange<N: Node> {
    node: N,
    session: Session,
    // The line that has no line feed yet.
    line: Vec<u8>,
    // How many lines were taken.
    lines: u64,
    // The reply lines that were not sent yet.
    pub(crate) replies: Vec<u8>,
}

impl<N: Node> Exchange<N> {
    /// A new connection to this server.
    pub fn new(alloc: Global, node: N) -> Exchange<N>
        ensures underway { IsUnderway N.shown (N.shown node) [] [] result }
        ensures lines { result.lines ≡ 0 }
        ensures replies { result.replies.items ≡ [] }
    {
        Exchange {
            node,
            session: Session::new(alloc),
            line: Vec::new(alloc),
            lines: 0,
            replies: Vec::new(alloc),
        }
    }

    /// Takes the bytes that a read gave, none at the end of the input, and says whether more is to
    /// be read.
    pub fn take_read(&mut self, alloc: Global, bytes: &[u8]) -> Result<bool, PipeFault>
        requires { self.old.lines + length bytes.now + 1 < 2 ^ 64 }
        ensures reads { (first : seen.Node) (read sent : List ℕ) (left : Option (List ℕ))
            → (bytes.now ≡ [] → IsAtEnd left) → IsUnderway N.shown first read sent self.old
            → ReadsTo N.shown first (read ++ bytes.now) sent left self.new result }
        ensures count { OnOk result (self.new.lines ≤ self.old.lines + length bytes.now + 1) }
        ensures some { result ≡ Ok true → 0 < length bytes.now }
    {
        if bytes.is_empty() {
            self.finish(alloc)?;
            return Ok(false);
        }
        self.take_text(alloc, bytes)
    }

    /// Sends the reply lines in the buffer, which is empty then.
    pub fn send_replies<W: Write>(&mut self, writer: &mut W) -> Result<(), PipeFault>
        ensures sent { HasSent (W.contents writer.old) (W.contents writer.new)
            self.old.replies.items result }
        ensures fault { IfErr result (λ fault. fault ≡ PipeFault.Write) }
        ensures empty { OnOk result (self.new.replies.items ≡ []) }
        ensures same { self.new ≡ record self.old { replies = self.new.replies } }
    {
        if send(writer, &self.replies).is_err() {
            return Err(PipeFault::Write);
        }
        self.replies.clear();
        Ok(())
    }

    // Takes the end of the text: a last line that has no line feed is a line too.
    fn finish(&mut self, alloc: Global) -> Result<(), PipeFault>
        requires { self.old.lines + 1 < 2 ^ 64 }
        ensures ends { (first : seen.Node) (read sent : List ℕ) (left : Option (List ℕ))
            → IsAtEnd left
            → IsUnderway N.shown first read sent self.old
            → IsEnded first read (sent ++ self.new.replies.items) left result }
        ensures count { OnOk result (self.new.lines ≤ self.old.lines + 1) }
    {
        if !self.line.is_empty() {
            self.take_buffered_line(alloc)?;
        }
        Ok(())
    }

    // Takes a part of the text, which may begin and end anywhere in a line, and says whether the
    // conversation goes on.
    fn take_text(&mut self, alloc: Global, text: &[u8]) -> Result<bool, PipeFault>
        requires { self.old.lines + length text.now + 1 < 2 ^ 64 }
        ensures leads { (first : seen.Node) (read sent : List ℕ)
            → IsUnderway N.shown first read sent self.old
            → LeadsTo N.shown first (read ++ text.now) sent self.new result }
        ensures count { OnOk result (self.new.lines ≤ self.old.lines + length text.now) }
    {
        let mut rest = text;
        while let Some((end, later)) = split_line(rest) {
            if !self.take_end(alloc, end)? {
                return Ok(false);
            }
            rest = later;
        }
        self.buffer_line(rest)?;
        Ok(true)
    }

    // Takes the end of a line. If nothing of the line came before, it is decoded in place, and is
    // reported as not hexadecimal even if memory is short.
    fn take_end(&mut self, alloc: Global, end: &[u8]) -> Result<bool, PipeFault>
        requires few { self.old.lines + 1 < 2 ^ 64 }
        requires no_feed { HasNoFeed end.now }
        ensures leads { (first : seen.Node) (read sent : List ℕ)
            → IsUnderway N.shown first read sent self.old
            → LeadsTo N.shown first (ended (read ++ end.now)) sent self.new result }
        ensures bad { self.old.line.items ≡ [] → piece_of end.now ≡ None
            → result ≡ Err (PipeFault.NotHexadecimal (self.old.lines + 1)) }
        ensures count { OnOk result (self.new.lines ≡ self.old.lines + 1) }
    {
        if self.line.is_empty() {
            return self.take_line(alloc, end);
        }
        self.buffer_line(end)?;
        self.take_buffered_line(alloc)
    }

    // Moves a text that has no line feed to the unfinished line.
    fn buffer_line(&mut self, text: &[u8]) -> Result<(), PipeFault>
        requires few { self.old.lines + 1 < 2 ^ 64 }
        requires no_feed { HasNoFeed text.now }
        ensures ok { OnOk result ((first : seen.Node) (read sent : List ℕ)
            → IsUnderway N.shown first read sent self.old
            → IsUnderway N.shown first (read ++ text.now) sent self.new) }
        ensures err { IfErr result (λ fault. (first : seen.Node) (read sent : List ℕ)
            → IsUnderway N.shown first read sent self.old
            → IsOver first read (sent ++ self.new.replies.items) (Err fault)) }
        ensures count { self.new.lines ≡ self.old.lines }
    {
        match self.line.extend_from_slice(text) {
            Ok(()) => Ok(()),
            Err(_) => Err(PipeFault::Memory(self.lines + 1)),
        }
    }

    // Takes the unfinished line, which is whole now.
    fn take_buffered_line(&mut self, alloc: Global) -> Result<bool, PipeFault>
        requires { self.old.lines + 1 < 2 ^ 64 }
        ensures leads { (first : seen.Node) (text sent : List ℕ)
            → IsUnderway N.shown first text sent self.old
            → LeadsTo N.shown first (ended text) sent self.new result }
        ensures count { OnOk result (self.new.lines ≡ self.old.lines + 1) }
        ensures line { self.new.line.items ≡ [] }
    {
        let line = mem::replace(&mut self.line, Vec::new(alloc));
        self.take_line(alloc, &line)
    }

    // Takes a whole line, which is not kept here, as a piece of the stream. One that is not
    // hexadecimal is reported as such even if memory is short.
    fn take_line(&mut self, alloc: Global, line: &[u8]) -> Result<bool, PipeFault>
        requires few { self.old.lines + 1 < 2 ^ 64 }
        requires none_kept { self.old.line.items ≡ [] }
        ensures leads { (first : seen.Node) (text sent : List ℕ)
            → IsAtLine N.shown first text sent line.now self.old
            → LeadsTo N.shown first (ended text) sent self.new result }
        ensures bad { piece_of line.now ≡ None
            → result ≡ Err (PipeFault.NotHexadecimal (self.old.lines + 1)) }
        ensures count { OnOk result (self.new.lines ≡ self.old.lines + 1) }
        ensures line { self.new.line.items ≡ [] }
    {
        let number = self.lines + 1;
        let Ok(decoded) = decode_line(alloc, line) else {
            return Err(PipeFault::Memory(number));
        };
        let Some(piece) = decoded else {
            return Err(PipeFault::NotHexadecimal(number));
        };
        let Ok(goes_on) = self.take_piece(alloc, &piece) else {
            return Err(PipeFault::Memory(number));
        };
        self.lines = number;
        Ok(goes_on)
    }

    // Takes a piece of the stream and says whether the conversation goes on. If memory runs out, in
    // the server too, no reply to the piece is kept.
    fn take_piece(&mut self, alloc: Global, piece: &[u8]) -> Result<bool, AllocError>
        ensures ok { IfOk result (λ goes_on.
            Continues N.shown piece.now goes_on self.old self.new) }
        ensures err { OnErr result (self.new.replies.items ≡ self.old.replies.items) }
        ensures lines { self.new.lines ≡ self.old.lines }
        ensures line { self.new.line.items ≡ self.old.line.items }
    {
        let taken = self.session.take(alloc, &mut self.node, piece)?;
        let goes_on = match self.session.stage() {
            ConnectionState::Open => true,
            ConnectionState::Malformed(_) => false,
            ConnectionState::Down => return Err(AllocError),
        };
        push_reply_lines(alloc, &mut self.replies, &taken.replies)?;
        Ok(goes_on)
    }
}
