//! World of a run: clients, their connections, and what a server has to answer.

use crate::servers::bank::Taken;
use crate::servers::client::Client;
use crate::servers::conn::Conn;
use crate::servers::group::Group;
use crate::servers::model::{Model, Sends};
use crate::servers::net::{MOST_LINES, Net, Shared};
use crate::servers::scarce::Scarce;
use crate::servers::things::{DONE, FALLS, REFUSALS, STOPS, UNDONE};
use crate::servers::words::Said;
use linda_test_runs::{Dice, Tally};
use std::alloc::{AllocError, Global};
use std::cell::RefCell;
use std::rc::Rc;

/// The most bytes of a bank that has much room.
const MOST_BYTES: usize = 4_194_304;

/// In so many turns after memory was refused the server may do other than it should.
const SHAKY: u32 = 8;

/// The clients of a run, the network, and the model of the server.
#[derive(Drop)]
pub struct World {
    pub dice: Dice,
    pub model: Model,
    pub net: Shared,
    pub conns: Vec<Conn>,
    pub clients: Vec<Client>,
    pub tally: Tally,
    /// For how many seconds a client may hold a tuple and say nothing, if that is limited.
    pub lease: Option<u32>,
    /// Connections come to both loops.
    pub has_two_loops: bool,
    /// Banks have little room.
    pub is_short: bool,
    /// The numbered messages that were served last.
    pub group: Group,
    /// Messages that the server did not answer since it went down, each with its client.
    pub unanswered: Vec<(u32, Said)>,
    /// The server is down.
    pub is_down: bool,
    /// It was down before its last turn.
    pub was_down: bool,
    /// It went down amid messages that went one by one, and which of them were answered is not
    /// known; or it does other than it should, as memory was refused. So what is written is not
    /// compared, and the server stops at once.
    pub is_over: bool,
    /// In so many turns more it may do other than it should, as memory was refused.
    pub shaky: u32,
    /// What refuses memory, if that is scarce.
    pub scarce: Option<Scarce>,
    /// All that connections noted was heard.
    pub is_noted: bool,
    /// The first difference.
    pub fault: Option<&'static str>,
    /// Where answers of the model are put.
    pub sends: Sends,
}

impl World {
    /// So many clients, of which nobody is connected, and a new server.
    pub fn new(alloc: Global, seed: u64, count: u32) -> Result<World, AllocError> {
        let mut conns = Vec::new(alloc);
        for _ in 0..MOST_LINES {
            conns.push(Conn::new(alloc))?;
        }
        let mut dice = Dice::new(seed, 1);
        let mut clients = Vec::new(alloc);
        for number in 0..count {
            let mut client = Client::new(alloc, number.saturating_add(1));
            client.is_rude = dice.one_in(3);
            client.is_greedy = dice.one_in(8);
            clients.push(client)?;
        }
        let lease = if dice.one_in(2) { Some(3) } else { None };
        let has_two_loops = !dice.one_in(4);
        let is_short = dice.one_in(3);
        let net = Rc::new(alloc, RefCell::new(Net::new(alloc)?))?;
        Ok(World {
            dice,
            model: Model::new(alloc, MOST_BYTES),
            net,
            conns,
            clients,
            tally: Tally::new(),
            lease,
            has_two_loops,
            is_short,
            group: Group::new(alloc),
            unanswered: Vec::new(alloc),
            is_down: false,
            was_down: false,
            is_over: false,
            shaky: 0,
            scarce: None,
            is_noted: true,
            fault: None,
            sends: Vec::new(alloc),
        })
    }

    /// This differs from what has to be, unless something did before. If memory was refused a while
    /// ago that may be so, and the server stops.
    pub fn blame(&mut self, what: &'static str) {
        if self.is_over || self.shaky > 0 {
            self.is_over = true;
        } else if self.fault.is_none() {
            self.fault = Some(what);
        }
    }

    /// If memory ran out the run says nothing.
    pub fn note(&mut self, done: Result<(), AllocError>) {
        if done.is_err() {
            self.blame("the run has no memory");
        }
    }

    /// A place for a connection, if there is one.
    pub fn free_place(&self) -> Option<usize> {
        let mut at: usize = 0;
        for conn in self.conns.iter() {
            if !conn.is_used {
                return Some(at);
            }
            at = at.saturating_add(1);
        }
        None
    }

    /// The connection of a client that was greeted over it.
    pub fn find_seat(&self, client: u32) -> Option<usize> {
        let mut at: usize = 0;
        for conn in self.conns.iter() {
            if conn.is_used && conn.greeted == Some(client) {
                return Some(at);
            }
            at = at.saturating_add(1);
        }
        None
    }

    /// The server has stopped: all connections are gone.
    pub fn end_life(&mut self) {
        self.tally.count(if self.is_down { FALLS } else { STOPS });
        self.is_down = false;
        self.was_down = false;
        self.is_over = false;
        self.shaky = 0;
        for conn in self.conns.iter_mut() {
            conn.clear();
        }
        for client in self.clients.iter_mut() {
            client.lose();
        }
        if let Ok(mut net) = self.net.try_borrow_mut() {
            let net = &mut *net;
            net.notes.clear();
        }
    }

    /// The most bytes of a bank, from now on.
    pub fn draw_limit(&mut self) -> usize {
        if !self.is_short {
            return MOST_BYTES;
        }
        let more = self.dice.below(1_500) as usize;
        self.model
            .snapshot_len()
            .saturating_add(18)
            .saturating_add(more)
    }

    /// Memory may be short for the next call of the server.
    pub fn begin_call(&mut self) {
        let Some(scarce) = &mut self.scarce else {
            return;
        };
        if !self.dice.one_in(16) {
            return;
        }
        let most = if self.dice.one_in(2) { 16 } else { 256 };
        let number = self.dice.below(most).saturating_add(1);
        if !scarce.refuse(number) {
            self.blame("nothing refuses memory: tools/simulate --scarce plays this");
        }
    }

    /// The call has ended. If memory was short for it the server may do other than it should.
    pub fn end_call(&mut self) {
        let Some(scarce) = &mut self.scarce else {
            return;
        };
        if scarce.relent() {
            self.tally.count(REFUSALS);
            self.shaky = SHAKY;
            self.model.bank.may_lack_next = true;
        }
    }

    /// The server was opened, with this limit, on a bank of which this is taken; of the messages
    /// that were not answered so many were done.
    pub fn settle(&mut self, done: usize, limit: usize, taken: Taken) {
        let undone = self.unanswered.len().saturating_sub(done);
        self.tally.count_all(DONE, done as u64);
        self.tally.count_all(UNDONE, undone as u64);
        self.unanswered.clear();
        self.model.reopen();
        self.model.bank.reopen(limit, taken);
    }

    /// What the server did not answer, after a stop: the model does the next of it.
    pub fn do_unanswered(&mut self, at: usize) {
        if let Some((client, said)) = self.unanswered.get(at).copied() {
            let done = self.model.say(client, said, &mut self.sends);
            self.sends.clear();
            self.note(done);
        }
    }
}
