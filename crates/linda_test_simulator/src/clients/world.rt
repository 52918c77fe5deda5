//! World of a run: its persons, the connections between them and the servers, and what is known of
//! each tuple.

use crate::clients::conn::Conn;
use crate::clients::person::{Claim, Person};
use crate::clients::rows::Rows;
use linda_test_runs::{Dice, Tally};
use std::alloc::{AllocError, Global};

/// How many connections there are at most.
const MOST_CONNS: usize = 64;

/// Persons, connections and tuples.
#[derive(Drop)]
pub struct World {
    pub alloc: Global,
    pub dice: Dice,
    pub servers: usize,
    pub persons: Vec<Person>,
    pub conns: Vec<Conn>,
    pub rows: Rows,
    /// Accepts of clients that never come again, which may have been done.
    pub orphans: Vec<Claim>,
    /// How often a space was looked at.
    pub looks: u64,
    pub tally: Tally,
    /// The first difference.
    pub fault: Option<&'static str>,
}

impl World {
    /// So many persons who were never here, numbered from 1, and servers.
    pub fn new(
        alloc: Global,
        seed: u64,
        persons: u32,
        servers: usize,
    ) -> Result<World, AllocError> {
        let mut world = World {
            alloc,
            dice: Dice::new(seed, 1),
            servers,
            persons: Vec::new(alloc),
            conns: Vec::new(alloc),
            rows: Rows::new(alloc),
            orphans: Vec::new(alloc),
            looks: 0,
            tally: Tally::new(),
            fault: None,
        };
        world.fill(persons)?;
        Ok(world)
    }

    fn fill(&mut self, persons: u32) -> Result<(), AllocError> {
        for _ in 0..MOST_CONNS {
            self.conns.push(Conn::new(self.alloc))?;
        }
        for at in 0..persons {
            let number = at.saturating_add(1);
            self.persons
                .push(Person::new(self.alloc, number, self.servers)?)?;
        }
        Ok(())
    }

    /// This differs from what has to be, unless something did before.
    pub fn blame(&mut self, what: &'static str) {
        if self.fault.is_none() {
            self.fault = Some(what);
        }
    }

    /// This differs, if it is something.
    pub fn blame_if(&mut self, what: Option<&'static str>) {
        if let Some(what) = what {
            self.blame(what);
        }
    }

    /// Some place below this one.
    pub fn some(&mut self, count: usize) -> usize {
        self.dice.below(u32::try_from(count).unwrap_or(0)) as usize
    }

    /// A place for a connection, if there is one.
    pub fn free_place(&self) -> Option<usize> {
        let mut at: usize = 0;
        for conn in self.conns.iter() {
            if !conn.is_used {
                return Some(at);
            }
            at = at.saturating_add(1);
        }
        None
    }

    /// The connection over which a server has welcomed a client.
    pub fn find_conn(&mut self, server: usize, client: u32) -> Option<&mut Conn> {
        for conn in self.conns.iter_mut() {
            if conn.is_of(server, client) {
                return Some(conn);
            }
        }
        None
    }

    /// Whether an Accept of this tuple may be under way, or was done for a client that was not
    /// answered.
    pub fn is_claimed(&self, server: usize, id: u64) -> bool {
        for person in self.persons.iter() {
            if let Some(claim) = person.claim {
                if claim.server == server && claim.id == id {
                    return true;
                }
            }
        }
        for claim in self.orphans.iter() {
            if claim.server == server && claim.id == id {
                return true;
            }
        }
        false
    }

    /// The connection of a person to a server is gone.
    pub fn unlink(&mut self, owner: usize, server: usize) {
        if let Some(person) = self.persons.get_mut(owner) {
            if let Some(link) = person.links.get_mut(server) {
                link.conn = None;
                link.is_welcome = false;
            }
        }
    }

    /// A person gives its connection to a server up.
    pub fn lose(&mut self, owner: usize, server: usize) {
        let Some(person) = self.persons.get(owner) else {
            return;
        };
        if let Some(at) = person.link(server).conn {
            if let Some(conn) = self.conns.get_mut(at) {
                conn.lose(&mut self.dice);
            }
        }
        self.unlink(owner, server);
    }

    /// A person gives all its connections up.
    pub fn lose_all(&mut self, owner: usize) {
        for server in 0..self.servers {
            self.lose(owner, server);
        }
    }
}
