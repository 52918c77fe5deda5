//! Site of a server in a run: the server on its two disks in memory, or these while it is down.

use crate::clients::cast::Opened;
use crate::clients::draw::Trouble;
use linda_disk::{MemDisk, Torn};
use linda_server::{Durable, OpenFault};
use std::alloc::Global;
use std::mem;

/// The most bytes of a bank.
const LIMIT: usize = 16_777_216;

/// A server, or its disks while it is down.
#[derive(Drop)]
pub enum Site {
    Up(Durable<MemDisk>),
    Down(MemDisk, MemDisk),
    Away,
}

impl Site {
    /// A server that was never used.
    pub fn new(alloc: Global) -> Result<Site, OpenFault> {
        match Durable::create(alloc, MemDisk::new(alloc), MemDisk::new(alloc), LIMIT) {
            Ok(server) => Ok(Site::Up(server)),
            Err((fault, _, _)) => Err(fault),
        }
    }

    /// The server, if it is up.
    pub fn server(&self) -> Option<&Durable<MemDisk>> {
        match self {
            Site::Up(server) => Some(server),
            _ => None,
        }
    }

    /// The server stops, and this is left of its disks. Returns whether they are there.
    pub fn stop(&mut self, left: Torn, right: Torn) -> bool {
        match mem::replace(self, Site::Away) {
            Site::Up(server) => {
                let (one, other) = server.into_disks();
                self.crash(one, other, left, right)
            }
            Site::Down(one, other) => self.crash(one, other, left, right),
            Site::Away => false,
        }
    }

    fn crash(&mut self, one: MemDisk, other: MemDisk, left: Torn, right: Torn) -> bool {
        let mut one = one;
        let mut other = other;
        let is_done = one.crash(left).is_ok() && other.crash(right).is_ok();
        put(self, Site::Down(one, other));
        is_done
    }

    /// The server is opened on its disks, if it is down.
    pub fn open(&mut self, alloc: Global, left: Trouble, right: Trouble) -> Opened {
        match mem::replace(self, Site::Away) {
            Site::Down(one, other) => {
                let mut one = one;
                let mut other = other;
                trouble(&mut one, left);
                trouble(&mut other, right);
                self.open_on(alloc, one, other)
            }
            site => {
                put(self, site);
                Opened::Up
            }
        }
    }

    fn open_on(&mut self, alloc: Global, left: MemDisk, right: MemDisk) -> Opened {
        match Durable::open(alloc, left, right, LIMIT) {
            Ok(server) => {
                put(self, Site::Up(server));
                Opened::Up
            }
            Err((fault, left, right)) => {
                put(self, Site::Down(left, right));
                if fault == OpenFault::Disk {
                    Opened::Failed
                } else {
                    Opened::Broken
                }
            }
        }
    }
}

// What goes wrong with a disk from now on.
fn trouble(disk: &mut MemDisk, trouble: Trouble) {
    if let Some(passes) = trouble.fuse {
        disk.fuse(passes);
    }
    if let Some(number) = trouble.failing {
        disk.fail_once(number);
    }
}

// Puts a value in its place.
fn put<T: Drop>(place: &mut T, value: T) {
    *place = value;
}
