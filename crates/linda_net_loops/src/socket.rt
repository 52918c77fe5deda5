//! Sockets of connections, as loops use them, and what they note of their connections.

ghost use Rattle.std.specs.Io.{ReadsAtMost, WritesAtMost};
ghost use Rattle.std.specs.Io.KnownBytes.{ReadConsumes, WriteAppends, Keeps};
ghost use Rattle.linda_net_loops.specs.Wire.{Wire};

use linda_net_http::Stream;
use linda_wire::{Message, Refusal};
use std::io;

/// What a loop notes of a connection, when it is so.
#[derive(Clone, Copy)]
pub enum ConnectionNotice<'m> {
    /// This message was to greet its client, which is welcome, with the number of its last request,
    /// or refused by a code and a detail; `None` if the server could not say.
    Greeted(&'m Message, Option<Result<u64, (u8, u64)>>),
    /// A second Hello was answered.
    Busy,
    /// The answer to this message was heard: whether it is one.
    Heard(&'m Message, bool),
    /// Its client gets nothing more, after this word, if there is one.
    Ended(Option<Refusal>),
    /// It can be neither read nor written.
    Failed,
    /// Its client leaves the server now.
    Leaves,
}

/// What a connection is read from and written to, without waiting for it.
pub trait Socket: Drop {
    /// The bytes that are still to be read, and those that went out, if they are known.
    ghost wire: { Self → Wire };

    /// Reads what is there.
    ///
    /// # Errors
    ///
    /// `WouldBlock` if there is nothing; what the system returns.
    fn read(&mut self, buffer: &mut [u8]) -> io::Result<usize>
        ensures most { ReadsAtMost result buffer.new }
        ensures gives { ReadConsumes (wire self.old).left (wire self.new).left result buffer.new }
        ensures out { Keeps (wire self.old).out (wire self.new).out };

    /// Writes what it takes.
    ///
    /// # Errors
    ///
    /// `WouldBlock` if it takes nothing; what the system returns.
    fn write(&mut self, bytes: &[u8]) -> io::Result<usize>
        ensures most { WritesAtMost result bytes.now }
        ensures takes { WriteAppends (wire self.old).out (wire self.new).out result bytes.now }
        ensures left { Keeps (wire self.old).left (wire self.new).left };

    /// Shuts it in both directions.
    fn shut(&self);

    /// Takes note of this. One of the system does not.
    fn note(&mut self, _note: ConnectionNotice<'_>)
        ensures left { Keeps (wire self.old).left (wire self.new).left }
        ensures out { Keeps (wire self.old).out (wire self.new).out }
    {}
}

impl Socket for Stream {
    ghost use Rattle.linda_net_loops.specs.Wire.{unknown};

    ghost wire = { λ _. unknown };

    fn read(&mut self, buffer: &mut [u8]) -> io::Result<usize> {
        Stream::read(self, buffer)
    }

    fn write(&mut self, bytes: &[u8]) -> io::Result<usize> {
        Stream::write(self, bytes)
    }

    fn shut(&self) {
        Stream::shut(self);
    }
}
