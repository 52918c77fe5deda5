//! Troupe: clients of `linda_client`, and servers on disks in memory.

use crate::clients::cast::{Cast, Counts, Opened, Refused};
use crate::clients::draw::Trouble;
use crate::clients::site::Site;
use crate::clients::words::{Value, value_of};
use linda_bag::Bag;
use linda_client::{Call, Client, ClientFault, Reaction};
use linda_disk::{MemDisk, Torn};
use linda_server::Durable;
use linda_store::{MAX_BATCH, NodeFault};
use linda_wire::{Message, Reply};
use std::alloc::{AllocError, Global};

/// Clients and servers.
#[derive(Drop)]
pub struct Troupe {
    alloc: Global,
    servers: u32,
    clients: Vec<Client>,
    sites: Vec<Site>,
}

impl Troupe {
    /// So many servers that were never used, and so many clients, which are numbered from 1.
    pub fn new(alloc: Global, servers: u32, clients: u32) -> Result<Troupe, AllocError> {
        let mut troupe = Troupe {
            alloc,
            servers,
            clients: Vec::new(alloc),
            sites: Vec::new(alloc),
        };
        troupe.fill(clients)?;
        Ok(troupe)
    }

    fn fill(&mut self, clients: u32) -> Result<(), AllocError> {
        for _ in 0..self.servers {
            match Site::new(self.alloc) {
                Ok(site) => self.sites.push(site)?,
                Err(_) => return Err(AllocError),
            }
        }
        for at in 0..clients {
            match Client::new(self.alloc, at.saturating_add(1), self.servers) {
                Ok(client) => self.clients.push(client)?,
                Err(_) => return Err(AllocError),
            }
        }
        Ok(())
    }

    fn server(&self, at: usize) -> Option<&Durable<MemDisk>> {
        match self.sites.get(at) {
            Some(site) => site.server(),
            None => None,
        }
    }
}

impl Cast for Troupe {
    fn call(&mut self, at: usize, call: Call) -> Result<Reaction, ClientFault> {
        match self.clients.get_mut(at) {
            Some(client) => client.call(self.alloc, call),
            None => Err(ClientFault::Memory),
        }
    }

    fn renew(&mut self, at: usize, number: u32) -> Result<(), ClientFault> {
        let renewed = Client::new(self.alloc, number, self.servers)?;
        if let Some(client) = self.clients.get_mut(at) {
            *client = renewed;
        }
        Ok(())
    }

    fn is_up(&self, server: usize) -> bool {
        self.server(server).is_some()
    }

    fn handle(
        &mut self,
        server: usize,
        messages: &[(u32, Message)],
    ) -> Result<Vec<(u32, Reply)>, Refused> {
        if messages.len() > MAX_BATCH {
            return Err(Refused::Full);
        }
        match self.sites.get_mut(server) {
            Some(Site::Up(durable)) => told(durable.handle_all(self.alloc, messages)),
            _ => Err(Refused::Down),
        }
    }

    fn close(&mut self, server: usize, client: u32) -> Result<Vec<(u32, Reply)>, Refused> {
        match self.sites.get_mut(server) {
            Some(Site::Up(durable)) => told(durable.close(self.alloc, client)),
            _ => Err(Refused::Down),
        }
    }

    fn snapshot(&mut self, server: usize) -> Result<(), Refused> {
        match self.sites.get_mut(server) {
            Some(Site::Up(durable)) => told(durable.snapshot(self.alloc)),
            _ => Err(Refused::Down),
        }
    }

    fn stop(&mut self, server: usize, left: Torn, right: Torn) -> bool {
        match self.sites.get_mut(server) {
            Some(site) => site.stop(left, right),
            None => false,
        }
    }

    fn open(&mut self, server: usize, left: Trouble, right: Trouble) -> Opened {
        match self.sites.get_mut(server) {
            Some(site) => site.open(self.alloc, left, right),
            None => Opened::Broken,
        }
    }

    fn count(&self, server: usize) -> Counts {
        match self.server(server) {
            Some(durable) => Counts {
                tuples: durable.state().bag.len(),
                holds: durable.holds().len(),
                waits: durable.waits().len(),
            },
            None => Counts {
                tuples: 0,
                holds: 0,
                waits: 0,
            },
        }
    }

    fn next(&self, server: usize, id: u64) -> Option<(u64, Option<Value>)> {
        let durable = self.server(server)?;
        match durable.state().bag.entry_from(id) {
            Some((found, tuple)) => Some((found, value_of(tuple))),
            None => None,
        }
    }
}

// What a server returned.
fn told<T: Drop>(answer: Result<T, NodeFault>) -> Result<T, Refused> {
    match answer {
        Ok(value) => Ok(value),
        Err(NodeFault::Full) => Err(Refused::Full),
        Err(NodeFault::Down) => Err(Refused::Down),
    }
}
