//! Line of a connection: its session, and the account of its client. There is no socket.

use super::Wrong;
use crate::groups::Posted;
use linda_disk::Disk;
use linda_net_session::{Phase, Session, Way};
use linda_shared::{
    Account, Ack, Admission, MOST_ASKED, MessageGroup, Sent, ServedGroup, Shared, hear_answer,
};
use linda_wire::Message;
use std::alloc::Global;
use std::sync::Wait;
use std::sync::ledger::Ledger;

// The client hears what was posted. Says whether all is kept, and for it. No client has the
// number 0.
fn tell_all(session: &mut Session, client: u32, posted: Posted) -> bool {
    let Posted { sent, is_lost } = posted;
    let mut is_for_it = !is_lost;
    for one in sent {
        if one.client() == client {
            tell(session, one);
        } else {
            is_for_it = false;
        }
    }
    is_for_it
}

// The client gets all of it.
fn tell(session: &mut Session, sent: Sent) {
    let replies = sent.into_replies();
    for reply in &replies {
        session.tell(reply);
    }
}

/// A session, and the account of its client once that is welcome.
#[derive(Drop)]
pub(super) struct Line<L: Ledger> {
    alloc: Global,
    pub(super) session: Session,
    pub(super) account: Option<Account<L>>,
    // Which connection it is: the key of its messages.
    pub(super) key: usize,
}

impl<L: Ledger> Line<L> {
    /// The first connection, of which nothing came.
    pub(super) fn new(alloc: Global) -> Line<L> {
        Line {
            alloc,
            session: Session::new(alloc),
            account: None,
            key: 0,
        }
    }

    /// Serves the group, whose messages went this way.
    pub(super) fn serve<D: Disk, R: Wait>(
        &mut self,
        rt: &R,
        shared: &Shared<D, L>,
        group: &mut MessageGroup<usize, L>,
        way: Way,
    ) -> Result<(), Wrong> {
        let asked = std::mem::replace(group, MessageGroup::placeholder(self.alloc));
        let mut posted = Posted::new(self.alloc);
        let (served, is_up) = shared.serve_group(rt, asked, &mut posted);
        let client = client_of(&self.account);
        let is_for_it = tell_all(&mut self.session, client, posted);
        let (room, is_heard) = self.hear_all(served, way);
        *group = room;
        verdict(is_up, is_heard, is_for_it)
    }

    // Hears the answers to messages that went this way. Returns the room of the group, and whether
    // all were of this connection.
    fn hear_all(
        &mut self,
        served: ServedGroup<usize, L>,
        way: Way,
    ) -> (MessageGroup<usize, L>, bool) {
        let mut served = served;
        let mut is_heard = true;
        for _ in 0..served.len() {
            if let Some((client, message, answered)) = served.next() {
                self.session.answered(way);
                let of_it = heard(&mut self.account, self.key, client, &message, answered);
                is_heard = is_heard && of_it;
            }
        }
        (served.into_group(), is_heard)
    }

    /// Its client departs, whose last request has this number. The next connection begins.
    pub(super) fn depart<D: Disk, R: Wait>(
        &mut self,
        rt: &R,
        shared: &Shared<D, L>,
        last: u64,
    ) -> Result<(), Wrong> {
        if !self.session.has_left() {
            return Err("the connection has not ended");
        }
        self.session = Session::new(self.alloc);
        self.key = self.key.saturating_add(1);
        let Some(account) = self.account.take() else {
            return Ok(());
        };
        let mut posted = Posted::new(self.alloc);
        let is_fine = parked(rt, shared, account, last, &mut posted);
        let is_silent = tell_all(&mut self.session, 0, posted);
        verdict(true, is_fine, is_silent)
    }
}

// Whether the server is up, all is as it was due, and nothing was sent to another client.
fn verdict(is_up: bool, is_due: bool, is_for_it: bool) -> Result<(), Wrong> {
    if !is_up {
        Err("the server is down")
    } else if !is_for_it {
        Err("something was sent to a client that is not here")
    } else if is_due {
        Ok(())
    } else {
        Err("an answer is not of this connection, or its account is not of the last request")
    }
}

// The account goes back. Says whether its last request has this number and all is answered, and the
// server is up.
fn parked<D: Disk, L: Ledger, R: Wait>(
    rt: &R,
    shared: &Shared<D, L>,
    account: Account<L>,
    last: u64,
    posted: &mut Posted,
) -> bool {
    let is_due = account.asked() == 0 && account.last_number() == last;
    shared.depart(rt, account, posted) && is_due
}

/// The server answers the Hello of a session so. Returns the account of a client that is welcome.
pub(super) fn greeted<L: Ledger>(
    session: &mut Session,
    answer: Admission<L>,
) -> Option<Account<L>> {
    match answer {
        Admission::Welcome(account, last) => {
            if let Phase::Greeting = session.phase() {
                session.welcome(last);
            }
            Some(account)
        }
        Admission::Refused(code, detail) => {
            if let Phase::Greeting = session.phase() {
                session.refuse(code, detail);
            }
            None
        }
    }
}

/// The message of this account joins the group. Says whether it could.
pub(super) fn joined<L: Ledger>(
    group: &mut MessageGroup<usize, L>,
    account: &mut Option<Account<L>>,
    key: usize,
    message: Message,
) -> bool {
    match account {
        Some(account) if account.asked() < MOST_ASKED && group.has_room() => {
            group.ask(account, key, message);
            true
        }
        _ => false,
    }
}

// The account hears the answer to a message of its client. Says whether it is one.
fn heard<L: Ledger>(
    account: &mut Option<Account<L>>,
    key: usize,
    client: u32,
    message: &Message,
    answered: Ack<usize, L>,
) -> bool {
    match account {
        Some(account)
            if account.asked() > 0 && account.client() == client && *answered.address() == key => {
            hear_answer(account, message, answered).is_ok()
        }
        _ => false,
    }
}

// The client of the account; 0 if there is none.
fn client_of<L: Ledger>(account: &Option<Account<L>>) -> u32 {
    match account {
        Some(account) => account.client(),
        None => 0,
    }
}
