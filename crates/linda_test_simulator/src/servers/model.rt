//! Model of a server, by the table "What a server answers" of `docs/PROTOCOL.md`: a list of tuples,
//! a list of kept replies, and a queue of waits.

use crate::servers::bank::{Bank, deed_len, last_len, snapshot_len};
use crate::servers::words::{Form, SPOKEN, Said, Told, Value};
use std::alloc::{AllocError, Global};

/// The number from which on no number and no id is given.
pub const SPENT: u64 = 9_223_372_036_854_775_808;

/// A tuple, and for whom it is held: a client and a ticket.
#[derive(Clone, Copy)]
pub struct Item {
    pub id: u64,
    pub value: Value,
    pub held: Option<(u32, u64)>,
}

/// What is kept of the last numbered message of a client.
#[derive(Clone, Copy)]
pub struct Last {
    pub client: u32,
    pub n: u64,
    pub reply: Told,
}

/// An ask for which there is no tuple yet.
#[derive(Clone, Copy)]
pub struct Waiting {
    pub client: u32,
    pub ticket: u64,
    pub remove: bool,
    pub form: Form,
}

/// What goes to which clients, in order.
pub type Sends = Vec<(u32, Told)>;

/// What a server keeps, and what waits and is held there.
#[derive(Drop)]
pub struct Model {
    pub next: u64,
    /// How many deeds were done since the server was opened.
    pub deeds: u64,
    /// By rising ids.
    pub items: Vec<Item>,
    pub lasts: Vec<Last>,
    /// In order of arrival.
    pub waits: Vec<Waiting>,
    pub bank: Bank,
}

impl Model {
    /// A server that was never used, whose bank takes so many bytes at most.
    pub fn new(alloc: Global, limit: usize) -> Model {
        Model {
            next: 1,
            deeds: 0,
            items: Vec::new(alloc),
            lasts: Vec::new(alloc),
            waits: Vec::new(alloc),
            bank: Bank::new(limit),
        }
    }

    /// Nothing waits and nothing is held any more: the server was opened anew.
    pub fn reopen(&mut self) {
        self.deeds = 0;
        self.waits.clear();
        for item in self.items.iter_mut() {
            item.held = None;
        }
    }

    /// The last number of the client, 0 if there is none.
    pub fn last_of(&self, client: u32) -> u64 {
        match self.find_last(client) {
            Some(last) => last.n,
            None => 0,
        }
    }

    /// What is kept of the client.
    pub fn find_last(&self, client: u32) -> Option<Last> {
        for last in self.lasts.iter() {
            if last.client == client {
                return Some(*last);
            }
        }
        None
    }

    /// Whether the client has left.
    pub fn has_left(&self, client: u32) -> bool {
        match self.find_last(client) {
            Some(last) => matches!(last.reply, Told::Left { .. }),
            None => false,
        }
    }

    /// Whether the client holds a tuple.
    pub fn holds_any(&self, client: u32) -> bool {
        for item in self.items.iter() {
            if let Some((holder, _)) = item.held {
                if holder == client {
                    return true;
                }
            }
        }
        false
    }

    /// How many tuples are held.
    pub fn held(&self) -> usize {
        let mut count: usize = 0;
        for item in self.items.iter() {
            if item.held.is_some() {
                count = count.saturating_add(1);
            }
        }
        count
    }

    /// How many bytes a snapshot has.
    pub fn snapshot_len(&self) -> usize {
        let mut lasts: usize = 0;
        for last in self.lasts.iter() {
            lasts = lasts.saturating_add(last_len(last.reply));
        }
        snapshot_len(self.items.len(), lasts)
    }

    /// How many asks wait.
    pub fn waiting(&self) -> usize {
        self.waits.len()
    }

    /// What a Hello, or another first message of a connection, is answered with; `is_busy` says
    /// that another connection has the client's number.
    pub fn greet(&self, said: Said, is_busy: bool) -> Told {
        let Said::Hello {
            version,
            client,
            fresh,
        } = said
        else {
            return refused(12, 0);
        };
        let last = self.last_of(client);
        if version != SPOKEN {
            refused(1, u64::from(SPOKEN))
        } else if is_busy {
            refused(3, 0)
        } else if fresh && last > 0 {
            refused(2, last)
        } else {
            Told::Welcome { last }
        }
    }

    /// A greeted client says this.
    pub fn say(&mut self, client: u32, said: Said, sends: &mut Sends) -> Result<(), AllocError> {
        match said {
            Said::Out { n, .. } => self.numbered(client, n, said, sends),
            Said::Accept { n, .. } => self.numbered(client, n, said, sends),
            Said::Leave { n } => self.numbered(client, n, said, sends),
            Said::Ask {
                ticket,
                remove,
                form,
            } => {
                let ask = Waiting {
                    client,
                    ticket,
                    remove,
                    form,
                };
                self.ask(ask, sends)
            }
            Said::Cancel { ticket } => self.cancel(client, ticket, sends),
            Said::Hello { .. } => sends.push((client, refused(3, 0))).map_err(|_| AllocError),
            Said::Bad(_) => Ok(()),
        }
    }

    // A numbered message.
    fn numbered(
        &mut self,
        client: u32,
        n: u64,
        said: Said,
        sends: &mut Sends,
    ) -> Result<(), AllocError> {
        if let Some(answer) = self.answer_to(client, n) {
            return tell(sends, client, answer);
        }
        let is_out = matches!(said, Said::Out { .. });
        if n >= SPENT || (is_out && self.next >= SPENT) {
            return tell(sends, client, refused(6, 1));
        }
        let len = deed_len(said).unwrap_or(0);
        if self.bank.refuses(len) {
            return tell(sends, client, refused(6, 0));
        }
        self.bank.add(len);
        match said {
            Said::Out { value, .. } => self.put(client, n, value, sends),
            Said::Accept { ticket, id, .. } => self.accept(client, n, ticket, id, sends),
            _ => {
                self.keep(client, n, Told::Left { n })?;
                tell(sends, client, Told::Left { n })?;
                self.close(client, sends)
            }
        }
    }

    // What a numbered message is answered with that makes no deed by its number.
    fn answer_to(&self, client: u32, n: u64) -> Option<Told> {
        let (last, reply) = match self.find_last(client) {
            Some(last) => (last.n, Some(last.reply)),
            None => (0, None),
        };
        if n == 0 || n < last {
            return Some(refused(4, last));
        }
        match reply {
            Some(reply) => {
                if n == last {
                    return Some(reply);
                }
                if matches!(reply, Told::Left { .. }) {
                    return Some(refused(11, last));
                }
            }
            None => {}
        }
        if n.wrapping_sub(last) > 1 {
            return Some(refused(5, last));
        }
        None
    }

    // The number of the client's last message is this, with this reply.
    fn keep(&mut self, client: u32, n: u64, reply: Told) -> Result<(), AllocError> {
        self.deeds = self.deeds.saturating_add(1);
        for last in self.lasts.iter_mut() {
            if last.client == client {
                last.n = n;
                last.reply = reply;
                return Ok(());
            }
        }
        self.lasts
            .push(Last { client, n, reply })
            .map_err(|_| AllocError)
    }

    fn put(
        &mut self,
        client: u32,
        n: u64,
        value: Value,
        sends: &mut Sends,
    ) -> Result<(), AllocError> {
        let id = self.next;
        self.next = id.saturating_add(1);
        self.items.push(Item {
            id,
            value,
            held: None,
        })?;
        let reply = Told::Stored { n, id };
        self.keep(client, n, reply)?;
        tell(sends, client, reply)?;
        self.dispatch(id, sends)
    }

    fn accept(
        &mut self,
        client: u32,
        n: u64,
        ticket: u64,
        id: u64,
        sends: &mut Sends,
    ) -> Result<(), AllocError> {
        let mut reply = Told::Gone { n };
        for at in 0..self.items.len() {
            let Some(item) = self.items.get(at).copied() else {
                break;
            };
            if item.id == id && item.held == Some((client, ticket)) {
                reply = Told::Taken {
                    n,
                    id,
                    value: item.value,
                };
                drop_item(&mut self.items, at);
                break;
            }
        }
        self.keep(client, n, reply)?;
        tell(sends, client, reply)
    }
}

/// Takes one away, and leaves the others in their order.
pub fn drop_item<T: Copy>(items: &mut Vec<T>, at: usize) {
    if at < items.len() {
        let _ = items.remove(at);
    }
}

/// This goes to a client.
pub fn tell(sends: &mut Sends, client: u32, told: Told) -> Result<(), AllocError> {
    sends.push((client, told)).map_err(|_| AllocError)
}

/// A refusal of this code.
pub fn refused(code: u8, detail: u64) -> Told {
    Told::Refused { code, detail }
}
