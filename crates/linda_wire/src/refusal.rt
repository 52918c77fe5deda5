//! Refusals of a message by a server.

ghost use Rattle.std.specs.Prelude.{◌≡◌};
ghost use Rattle.linda_wire.specs.Refusal.{code_of, detail_of, refused};

use crate::codes::{
    BUSY, CLIENT_LEFT, KNOWN_CLIENT, MALFORMED, NO_HELLO, NO_ROOM, NUMBER_GAP, NUMBERS_SPENT,
    OLD_NUMBER, SERVER_DOWN, STORE_FULL, TOO_MANY_ASKS, TOO_MANY_CLIENTS, WRONG_VERSION,
};
use crate::limits::{MAX_CLIENTS, VERSION};
use crate::reply::Reply;

/// Why a message was refused, which changed nothing. Over a connection it is reported by a code and
/// a detail.
#[derive(Clone, Copy, Debug, PartialEq, Eq)]
pub enum Refusal {
    /// The version of the protocol is not the one spoken here, which is reported.
    Version,
    /// The client says that it is fresh, and a reply is kept for it: the number of the last is
    /// reported.
    Known(u64),
    /// The connection has greeted already, or the client has another connection.
    Busy,
    /// The number is older than the last that is kept, which is reported.
    Old(u64),
    /// The number is beyond the next one: the last that is kept is reported.
    Gap(u64),
    /// The server's store has no room.
    Full,
    /// Ids or numbers are spent.
    Spent,
    /// As many clients are kept as may be, which is reported.
    TooManyClients,
    /// The server is down.
    Down,
    /// The frame spells nothing: the offset in it of the first byte at fault, 0 if its length is at
    /// fault.
    Malformed(u32),
    /// The client has as many open asks as it may have: the ticket of this one is reported.
    TooManyAsks(u64),
    /// The client has left: the number of its Leave is reported.
    Left(u64),
    /// A connection begins with a Hello.
    NoHello,
}

impl Refusal {
    pub fn code(self) -> u8
        ensures { result ≡ code_of self }
    {
        match self {
            Refusal::Version => WRONG_VERSION,
            Refusal::Known(_) => KNOWN_CLIENT,
            Refusal::Busy => BUSY,
            Refusal::Old(_) => OLD_NUMBER,
            Refusal::Gap(_) => NUMBER_GAP,
            Refusal::Full => NO_ROOM,
            Refusal::Spent => NO_ROOM,
            Refusal::TooManyClients => TOO_MANY_CLIENTS,
            Refusal::Down => SERVER_DOWN,
            Refusal::Malformed(_) => MALFORMED,
            Refusal::TooManyAsks(_) => TOO_MANY_ASKS,
            Refusal::Left(_) => CLIENT_LEFT,
            Refusal::NoHello => NO_HELLO,
        }
    }

    pub fn detail(self) -> u64
        ensures { result ≡ detail_of self }
    {
        match self {
            Refusal::Version => u64::from(VERSION),
            Refusal::Known(last) => last,
            Refusal::Busy => 0,
            Refusal::Old(last) => last,
            Refusal::Gap(last) => last,
            Refusal::Full => STORE_FULL,
            Refusal::Spent => NUMBERS_SPENT,
            Refusal::TooManyClients => MAX_CLIENTS as u64,
            Refusal::Down => 0,
            Refusal::Malformed(offset) => u64::from(offset),
            Refusal::TooManyAsks(ticket) => ticket,
            Refusal::Left(last) => last,
            Refusal::NoHello => 0,
        }
    }

    /// The reply that reports it.
    pub fn reply(self) -> Reply
        ensures { result ≡ refused self }
    {
        Reply::Refused {
            code: self.code(),
            detail: self.detail(),
        }
    }
}
