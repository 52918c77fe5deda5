//! Connection of a run: the bytes between a client and a server, and what each of them knows of
//! it.

use linda_test_runs::Dice;
use linda_wire::{Feed, FrameFault, Message, Reply, ReplyFeed, encode_message, encode_reply};
use std::alloc::{AllocError, Global};

/// How many messages come at once at most.
pub const MOST_MESSAGES: usize = 64;

/// A connection. It is there until both sides have ended it.
#[derive(Drop)]
pub struct Conn {
    alloc: Global,
    pub is_used: bool,
    /// Which of the clients it is of, and that one's number.
    pub owner: usize,
    pub client: u32,
    pub server: usize,
    /// Its server has welcomed the client.
    pub is_greeted: bool,
    /// Its client has given it up.
    pub is_lost: bool,
    /// Its server has ended it.
    pub is_shut: bool,
    /// Bytes on the way to the server, and to the client.
    pub up: Vec<u8>,
    pub down: Vec<u8>,
    feed: Feed,
    replies: ReplyFeed,
}

impl Conn {
    /// A place for a connection.
    pub fn new(alloc: Global) -> Conn {
        Conn {
            alloc,
            is_used: false,
            owner: 0,
            client: 0,
            server: 0,
            is_greeted: false,
            is_lost: false,
            is_shut: false,
            up: Vec::new(alloc),
            down: Vec::new(alloc),
            feed: Feed::new(alloc),
            replies: ReplyFeed::new(alloc),
        }
    }

    /// A client connects to a server.
    pub fn begin(&mut self, owner: usize, client: u32, server: usize) {
        self.is_used = true;
        self.owner = owner;
        self.client = client;
        self.server = server;
        self.is_greeted = false;
        self.is_lost = false;
        self.is_shut = false;
        self.up.clear();
        self.down.clear();
        self.feed = Feed::new(self.alloc);
        self.replies = ReplyFeed::new(self.alloc);
    }

    /// Whether it is of this client at this server, as far as the server knows.
    pub fn is_of(&self, server: usize, client: u32) -> bool {
        self.is_used
            && !self.is_shut
            && self.is_greeted
            && self.server == server
            && self.client == client
    }

    /// Whether nothing is on the way, and both sides go on or it is over.
    pub fn is_calm(&self) -> bool {
        let is_open = !self.is_lost && !self.is_shut && self.is_greeted;
        let is_empty = self.up.is_empty() && self.down.is_empty() && self.feed.rest() == 0;
        !self.is_used || (is_open && is_empty)
    }

    /// Its client gives it up. A piece of what that sent still comes.
    pub fn lose(&mut self, dice: &mut Dice) {
        self.is_lost = true;
        let len = dice.piece(self.up.len());
        self.up.truncate(len);
        self.down.clear();
        if self.is_shut {
            self.is_used = false;
        }
    }

    /// Its server ends it. A piece of what that sent still comes.
    pub fn shut(&mut self, dice: &mut Dice) {
        self.is_shut = true;
        let len = dice.piece(self.down.len());
        self.down.truncate(len);
        self.up.clear();
        if self.is_lost {
            self.is_used = false;
        }
    }

    /// The client sends this.
    pub fn send(&mut self, message: &Message) -> Result<(), AllocError> {
        encode_message(&mut self.up, message)
    }

    /// The server sends this, which nobody reads if the client has given the connection up.
    pub fn answer(&mut self, reply: &Reply) -> Result<(), AllocError> {
        if self.is_lost {
            return Ok(());
        }
        encode_reply(&mut self.down, reply)
    }

    /// So many bytes of what the client sent come. Returns the messages that are whole now.
    pub fn bring(&mut self, len: usize) -> Result<Vec<(u32, Message)>, FrameFault> {
        let len = len.min(self.up.len());
        self.feed.feed(&self.up[..len])?;
        drop_front(&mut self.up, len);
        let mut group = Vec::new(self.alloc);
        for _ in 0..MOST_MESSAGES {
            match self.feed.next(self.alloc)? {
                Some(message) => group.push((self.client, message))?,
                None => break,
            }
        }
        Ok(group)
    }

    /// So many bytes of what the server sent come.
    pub fn take(&mut self, len: usize) -> Result<(), AllocError> {
        let len = len.min(self.down.len());
        self.replies.feed(&self.down[..len])?;
        drop_front(&mut self.down, len);
        Ok(())
    }

    /// The next reply that is whole.
    pub fn next_reply(&mut self) -> Result<Option<Reply>, FrameFault> {
        self.replies.next(self.alloc)
    }
}

// Leaves out the first so many bytes.
fn drop_front(bytes: &mut Vec<u8>, len: usize) {
    let len = len.min(bytes.len());
    let left = bytes.len().saturating_sub(len);
    bytes.rotate_left(len);
    bytes.truncate(left);
}
