//! Person of a run: a client's number, its connections, and what it waits for.

use crate::clients::wish::Leaf;
use std::alloc::{AllocError, Global};

/// What a person has with a server.
#[derive(Clone, Copy)]
pub struct Link {
    /// The connection to it.
    pub conn: Option<usize>,
    /// It has welcomed the client over that.
    pub is_welcome: bool,
    /// It has welcomed the client in this life.
    pub is_met: bool,
    /// The last number that it kept before this life.
    pub base: u64,
    /// The last number that it answered, and the last that it was sent.
    pub kept: u64,
    pub sent: u64,
    /// It was asked again for what is pending.
    pub asked_again: bool,
    /// It is asked for the reply that it kept before this life.
    pub wants_kept: bool,
}

impl Link {
    /// A server that was not met.
    pub fn new() -> Link {
        Link {
            conn: None,
            is_welcome: false,
            is_met: false,
            base: 0,
            kept: 0,
            sent: 0,
            asked_again: false,
            wants_kept: false,
        }
    }

    /// What is wrong with a Welcome of this number.
    pub fn judge(&self, last: u64, is_fresh: bool) -> Option<&'static str> {
        if self.is_met && last < self.kept {
            return Some("a server has forgotten what it answered");
        }
        if self.is_met && last > self.kept.max(self.sent) {
            return Some("a server keeps more than it was sent");
        }
        if !self.is_met && is_fresh && last != 0 {
            return Some("a server keeps something for a client that is new");
        }
        None
    }
}

/// What a person does.
#[derive(Clone, Copy, PartialEq, Eq)]
pub enum Task {
    Idle,
    Putting,
    Syncing,
    Leaving,
    /// It has stopped, and comes again.
    Stopped,
    /// It has left all servers.
    Left,
}

/// An Accept that is not answered: its server, its number, and the tuple's id.
#[derive(Clone, Copy, PartialEq, Eq)]
pub struct Claim {
    pub server: usize,
    pub n: u64,
    pub id: u64,
}

/// A person.
#[derive(Drop)]
pub struct Person {
    pub number: u32,
    /// Its number was never used before this life.
    pub is_fresh: bool,
    pub task: Task,
    pub links: Vec<Link>,
    pub clock: u64,
    /// How many tuples it has put in this life.
    pub outs: u64,
    /// What it waits for, and since which event.
    pub wish: Vec<Leaf>,
    pub since: u64,
    /// The tuple that it puts, by its number.
    pub row: Option<u64>,
    /// The server and the ticket of the offer that it accepted last.
    pub accepted: Option<(u32, u64)>,
    pub claim: Option<Claim>,
}

impl Person {
    /// A person who never was here, over so many servers.
    pub fn new(alloc: Global, number: u32, servers: usize) -> Result<Person, AllocError> {
        Ok(Person {
            number,
            is_fresh: true,
            task: Task::Idle,
            links: vec![in alloc; Link::new(); servers]?,
            clock: 0,
            outs: 0,
            wish: Vec::new(alloc),
            since: 0,
            row: None,
            accepted: None,
            claim: None,
        })
    }

    /// It begins a life, with its number or with another one.
    pub fn renew(&mut self, number: u32) {
        self.is_fresh = number != self.number;
        self.number = number;
        self.task = Task::Idle;
        self.clock = 0;
        self.outs = 0;
        self.accepted = None;
        for link in self.links.iter_mut() {
            *link = Link::new();
        }
        if self.is_fresh {
            self.row = None;
            self.claim = None;
        }
    }

    /// Whether it is at work.
    pub fn is_here(&self) -> bool {
        !matches!(self.task, Task::Stopped | Task::Left)
    }

    /// Whether it knows its numbers, and what became of what it did before this life.
    pub fn is_ready(&self) -> bool {
        for link in self.links.iter() {
            if link.wants_kept || (!link.is_met && !self.is_fresh) {
                return false;
            }
        }
        true
    }

    /// What it has with a server; as with one that was not met if there is none.
    pub fn link(&self, server: usize) -> Link {
        match self.links.get(server) {
            Some(link) => *link,
            None => Link::new(),
        }
    }

    /// The ticket that is to be cancelled at a server though its offer was taken, since it was
    /// asked again there. Nothing is asked again any more.
    pub fn settle(&mut self) -> Option<(u32, u64)> {
        let accepted = self.accepted;
        self.accepted = None;
        let is_open = match accepted {
            Some((server, _)) => self.link(server as usize).asked_again,
            None => false,
        };
        for link in self.links.iter_mut() {
            link.asked_again = false;
        }
        if is_open { accepted } else { None }
    }
}
