//! Queries for the lists, and the pages that answer them.

ghost use Rattle.std.specs.Prelude.{◌≡◌, ◌≤◌, max};

use crate::limits::MOST_BYTES;
use linda_hold::Request;
use linda_tuple::{Atom, Tuple};

/// Which tuples are asked for: those of some ids, and of a tag if there is one.
#[derive(Drop)]
pub struct TupleQuery {
    from: u64,
    tag: Option<Atom>,
    limit: usize,
    bytes: usize,
    ghost some: { 1 ≤ limit },
}

impl TupleQuery {
    /// Those of the id `from` and of greater ones, and of the tag if there is one: at most so many,
    /// and one if that is none.
    pub fn new(from: u64, tag: Option<Atom>, limit: usize) -> TupleQuery
        ensures { (result.from ≡ from) × (result.tag ≡ tag) × (result.limit ≡ max limit 1) }
    {
        TupleQuery {
            from,
            tag,
            limit: limit.max(1),
            bytes: MOST_BYTES,
        }
    }

    // Those of this id and of greater ones are asked for, so many fewer, with so many bytes fewer.
    // Returns whether some are left to be asked for.
    pub(crate) fn go_on(&mut self, from: u64, rows: usize, bytes: usize) -> bool
        ensures from { self.new.from ≡ from }
        ensures tag { self.new.tag ≡ self.old.tag }
    {
        self.from = from;
        if rows >= self.limit || bytes >= self.bytes {
            return false;
        }
        self.limit -= rows;
        self.bytes -= bytes;
        true
    }

    /// The least id that is asked for.
    pub fn from(&self) -> u64
        ensures { result ≡ self.now.from }
    {
        self.from
    }

    /// The tag, if one is asked for.
    pub fn tag(&self) -> &Option<Atom>
        ensures { result.now ≡ self.now.tag }
    {
        &self.tag
    }

    /// How many are asked for at most.
    pub fn limit(&self) -> usize
        ensures is { result ≡ self.now.limit }
        ensures some { 1 ≤ result }
    {
        self.limit
    }

    /// With how many bytes it is enough, as the tuples are spelled in the second form.
    pub fn bytes(&self) -> usize
        ensures { result ≡ self.now.bytes }
    {
        self.bytes
    }
}

/// A tuple, as it was at one moment.
#[derive(Drop)]
pub struct ListedTuple {
    pub id: u64,
    pub tuple: Tuple,
    /// For whom it is held, if it is.
    pub held: Option<Request>,
    /// For how many seconds it is held, if that is known. No contract says it.
    pub held_for: Option<u64>,
}

/// Some of the tuples that are asked for, as they were at one moment.
#[derive(Drop)]
pub struct TuplePage {
    /// They are in rising order of ids.
    pub rows: Vec<ListedTuple>,
    /// The id of the next tuple that is asked for: the next page is from there on. Nothing if there
    /// is none.
    pub next: Option<u64>,
}

/// A reply that is kept for a client, without its tuple.
#[derive(Clone, Copy, Debug, PartialEq, Eq)]
pub enum ListedReply {
    /// A tuple was put, under this id.
    Stored(u64),
    /// The tuple of this id was taken.
    Taken(u64),
    /// An offer was gone, and nothing was taken.
    Gone,
    /// The client left.
    Left,
}

/// A client, as it was at one moment.
#[derive(Clone, Copy, Debug, PartialEq, Eq)]
pub struct ListedClient {
    pub client: u32,
    /// The number of its last message of which a deed came; 0 if none is kept.
    pub number: u64,
    /// The reply to that message, if one is kept.
    pub reply: Option<ListedReply>,
    /// Whether it has an outbox, which it has as long as it has a connection.
    pub is_connected: bool,
    /// For how many seconds it has it, if that is known. No contract says it.
    pub connected_for: Option<u64>,
    /// How many tuples are held for it.
    pub holds: usize,
    /// How many of its asks wait.
    pub waits: usize,
}

/// Some of the clients, as they were at one moment.
#[derive(Drop)]
pub struct ClientPage {
    /// They are in rising order of their numbers.
    pub rows: Vec<ListedClient>,
    /// The next client after them: the next page is from there on. Nothing if there is none.
    pub next: Option<u32>,
}
