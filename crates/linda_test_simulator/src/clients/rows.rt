//! Rows of a run: each tuple that a client put, and what is known of it.

use crate::clients::words::Value;
use std::alloc::{AllocError, Global};

/// A tuple that a client put.
#[derive(Clone, Copy)]
pub struct Row {
    pub value: Value,
    pub server: usize,
    /// The number of its Out at its server.
    pub n: u64,
    /// Its id, once somebody was answered it or saw it in its server's space; 0 before.
    pub id: u64,
    /// Its server never had it, since its client stopped before.
    pub is_void: bool,
    /// A client has taken it, and was answered so, at this event.
    pub is_taken: bool,
    pub when: u64,
    /// The look at its server at which it was seen last.
    pub look: u64,
}

/// All rows: the row of number 1, of number 2, and so on.
#[derive(Drop)]
pub struct Rows {
    pub list: Vec<Row>,
}

impl Rows {
    /// No tuple.
    pub fn new(alloc: Global) -> Rows {
        Rows {
            list: Vec::new(alloc),
        }
    }

    /// A client puts a tuple of this word and kind at a server.
    pub fn add(&mut self, word: u8, kind: u8, server: usize) -> Result<Value, AllocError> {
        let number = (self.list.len() as u64).saturating_add(1);
        let value = Value { word, number, kind };
        self.list.push(Row {
            value,
            server,
            n: 0,
            id: 0,
            is_void: false,
            is_taken: false,
            when: 0,
            look: 0,
        })?;
        Ok(value)
    }

    /// The row of this number.
    pub fn find(&mut self, number: u64) -> Option<&mut Row> {
        match usize::try_from(number) {
            Ok(number) => self.list.get_mut(number.checked_sub(1)?),
            Err(_) => None,
        }
    }

    /// A tuple was found under this id at a server. Returns its row, or what is wrong with it.
    pub fn meet(
        &mut self,
        server: usize,
        id: u64,
        value: Option<Value>,
    ) -> Result<&mut Row, &'static str> {
        let Some(value) = value else {
            return Err("a tuple was found that is none of the run");
        };
        let Some(row) = self.find(value.number) else {
            return Err("a tuple was found that nobody put");
        };
        if row.value != value || row.server != server {
            return Err("a tuple was found that was put otherwise, or elsewhere");
        }
        if row.is_void {
            return Err("a tuple was found whose Out was not done");
        }
        if row.id != 0 && row.id != id {
            return Err("a tuple was found under two ids");
        }
        row.id = id;
        Ok(row)
    }

    /// A client was answered that it took a tuple. Returns what is wrong with that.
    pub fn take(
        &mut self,
        server: usize,
        id: u64,
        value: Option<Value>,
        now: u64,
    ) -> Option<&'static str> {
        match self.meet(server, id, value) {
            Ok(row) => {
                if row.is_taken {
                    return Some("a tuple was taken twice");
                }
                row.is_taken = true;
                row.when = now;
                None
            }
            Err(fault) => Some(fault),
        }
    }

    /// Whether the tuple was taken by a client that was answered so.
    pub fn has_taken(&mut self, value: Option<Value>) -> bool {
        let Some(value) = value else {
            return false;
        };
        match self.find(value.number) {
            Some(row) => row.is_taken && row.value == value,
            None => false,
        }
    }

    /// A client was answered a copy of a tuple that it waits for since then. Returns what is wrong
    /// with that.
    pub fn copy(
        &mut self,
        server: usize,
        id: u64,
        value: Option<Value>,
        since: u64,
    ) -> Option<&'static str> {
        match self.meet(server, id, value) {
            Ok(row) => {
                if row.is_taken && row.when < since {
                    return Some("a tuple was read that was taken before it was asked for");
                }
                None
            }
            Err(fault) => Some(fault),
        }
    }

    /// A tuple is in the space of a server at this look. Returns what is wrong with that.
    pub fn see(
        &mut self,
        server: usize,
        id: u64,
        value: Option<Value>,
        look: u64,
    ) -> Option<&'static str> {
        match self.meet(server, id, value) {
            Ok(row) => {
                if row.is_taken {
                    return Some("a tuple that was taken is in a space");
                }
                if row.look == look {
                    return Some("a tuple is in a space twice");
                }
                row.look = look;
                None
            }
            Err(fault) => Some(fault),
        }
    }
}
