//! Messages of many sessions that one thread serves as a group: who hears what, in which order, and
//! in how many records.

ghost use Rattle.std.specs.Prelude.{◌≡◌};
ghost use Rattle.linda_shared_accounts.specs.declared.limits.TheConstants.{PARTS};

use linda_disk::MemDisk;
use linda_shared::{
    Account, Admission, MAX_GROUP, MOST_ASKED, MessageGroup, ReplySink, Sent, ServedGroup, Shared,
    SharedFault, hear_answer,
};
use linda_shared_accounts::PARTS;
use linda_test_script::{read_batch, write_reply};
use linda_test_server::{ROOMY, Stand, hello, shared_on};
use linda_wire::Message;
use std::alloc::{AllocError, Global};
use std::marker::Brand;
use std::sync::Wait;
use std::sync::ledger::{Blank, Ledger};

/// The clients.
const CLIENTS: [u32; 3] = [7, 8, 9];

/// A put of 7 and one of 8, what 9 asks for after them, a wrong number of 7, and the put of 8 once
/// more.
pub(crate) const MIXED: &str =
    "7 out 1 (\"a\", 3); 8 out 1 (\"b\", 4); 9 in 1 (\"b\", ?i); 7 out 3 (\"a\", 5); \
     8 out 1 (\"b\", 4)";

/// What 9 does then: it accepts what it was offered; and 7 asks for what nobody put, and for what
/// it put.
const TAKEN: &str = "9 accept 1 1 2; 7 in 1 (\"c\", ?i); 7 in 2 (\"a\", ?i)";

/// What comes of both groups, and of the end.
pub(crate) const TOLD: &str = "7 has 1\n8 has 1\n9 has 0\n7 has 1\n8 has 1\n\
    > 7 stored 1 1\n> 7 refused 5 1\n> 8 stored 1 2\n> 8 stored 1 2\n> 9 offer 1 2 (\"b\", 4)\n\
    up, 1 records\n\
    9 has 1\n7 has 1\n7 has 1\n\
    > 7 offer 2 1 (\"a\", 3)\n> 9 taken 1 2 (\"b\", 4)\n\
    up, 2 records\n\
    all left, 3 deeds and 2 ids\n";

/// The left disk stops inside the first write of a record.
const STOPS: Stand = Stand {
    limit: 1_048_576,
    stops_in: Some(0),
};

/// What comes of the first group if the server goes down in it.
pub(crate) const DOWN: &str = "7 down\n8 down\n9 down\n7 down\n8 down\nnobody is up\n";

/// What was posted.
#[derive(Drop)]
pub(crate) struct Posted {
    pub(crate) sent: Vec<Sent>,
    pub(crate) is_lost: bool,
}

impl ReplySink for Posted {
    fn post<R: Wait>(&mut self, _rt: &R, sent: Sent) {
        let is_kept = self.sent.push(sent).is_ok();
        self.is_lost = self.is_lost || !is_kept;
    }
}

impl Posted {
    /// Nothing.
    pub(crate) fn new(alloc: Global) -> Posted {
        Posted {
            sent: Vec::new(alloc),
            is_lost: false,
        }
    }

    // Writes it, client by client: what goes to each is in order, and no order is promised between
    // them.
    fn tell(self, alloc: Global, told: &mut String) -> Result<(), AllocError> {
        let Posted { mut sent, is_lost } = self;
        sent.sort_by_key(|one| one.client())?;
        for one in sent {
            tell_sent(alloc, told, one)?;
        }
        if is_lost { Err(AllocError) } else { Ok(()) }
    }
}

// Writes what is sent to a client.
fn tell_sent(alloc: Global, told: &mut String, sent: Sent) -> Result<(), AllocError> {
    let client = sent.client();
    for reply in sent.into_replies() {
        let words = write_reply(alloc, &reply)?;
        writeln!(told, "> {client} {words}")?;
    }
    Ok(())
}

/// The accounts of the clients, by place.
pub(crate) fn admitted<L: Ledger, R: Wait>(
    rt: &R,
    alloc: Global,
    shared: &Shared<MemDisk, L>,
) -> Result<Vec<Account<L>>, AllocError> {
    let mut accounts = Vec::new(alloc);
    for client in CLIENTS {
        match shared.admit(rt, &hello(client, true)) {
            Ok(Admission::Welcome(account, 0)) => accounts.push(account)?,
            _ => return Err(AllocError),
        }
    }
    Ok(accounts)
}

// The place of the client's account.
fn place_of<L: Ledger>(accounts: &[Account<L>], client: u32) -> Option<usize> {
    accounts
        .iter()
        .position(|account| account.client() == client)
}

// Puts a message of a client into the group.
fn put_in<L: Ledger>(
    group: &mut MessageGroup<usize, L>,
    accounts: &mut [Account<L>],
    client: u32,
    message: Message,
) -> Result<(), AllocError> {
    let Some(key) = place_of(accounts, client) else {
        return Err(AllocError);
    };
    let Some(account) = accounts.get_mut(key) else {
        return Err(AllocError);
    };
    if !group.has_room() || account.asked() >= MOST_ASKED {
        return Err(AllocError);
    }
    group.ask(account, key, message);
    Ok(())
}

/// Serves what the words say as one group. Writes for each answer how many deeds were reported to
/// its client by then, or the fault; then what was posted.
pub(crate) fn play_group<L: Ledger, R: Wait>(
    rt: &R,
    alloc: Global,
    shared: &Shared<MemDisk, L>,
    accounts: &mut Vec<Account<L>>,
    words: &str,
    told: &mut String,
) -> Result<(), AllocError> {
    let Ok(messages) = read_batch(alloc, words) else {
        return Err(AllocError);
    };
    let mut group = MessageGroup::new(alloc, MAX_GROUP)?;
    for (client, message) in messages {
        put_in(&mut group, accounts, client, message)?;
    }
    let mut posted = Posted::new(alloc);
    let (served, is_up) = shared.serve_group(rt, group, &mut posted);
    let mut served = served;
    for _ in 0..served.len() {
        tell_answer(accounts, &mut served, told)?;
    }
    posted.tell(alloc, told)?;
    tell_state(rt, shared, is_up, told)
}

// Writes what comes of the next answer.
fn tell_answer<L: Ledger>(
    accounts: &mut Vec<Account<L>>,
    served: &mut ServedGroup<usize, L>,
    told: &mut String,
) -> Result<(), AllocError> {
    let Some((client, message, answered)) = served.next() else {
        return Err(AllocError);
    };
    let Some(account) = accounts.get_mut(*answered.address()) else {
        return Err(AllocError);
    };
    if account.client() != client || account.asked() == 0 {
        return Err(AllocError);
    }
    match hear_answer(account, &message, answered) {
        Ok(()) => Ok(writeln!(told, "{} has {}", account.client(), account.deeds())?),
        Err(SharedFault::Down) => Ok(writeln!(told, "{} down", account.client())?),
        Err(SharedFault::Memory) => Ok(writeln!(told, "{} memory", account.client())?),
        Err(_) => Err(AllocError),
    }
}

// Writes whether the server is up, and how many records it has.
fn tell_state<L: Ledger, R: Wait>(
    rt: &R,
    shared: &Shared<MemDisk, L>,
    is_up: bool,
    told: &mut String,
) -> Result<(), AllocError> {
    if is_up {
        let records = shared.gauge(rt).records;
        return Ok(writeln!(told, "up, {records} records")?);
    }
    Ok(told.push_str("nobody is up\n")?)
}

// All clients leave; then all seats are back, and what was reported to them is what was stored.
fn leave_all<L: Ledger, R: Wait>(
    rt: &R,
    alloc: Global,
    shared: &Shared<MemDisk, L>,
    accounts: Vec<Account<L>>,
    told: &mut String,
) -> Result<(), AllocError> {
    let mut posted = Posted::new(alloc);
    for account in accounts {
        if !shared.depart(rt, account, &mut posted) {
            return Err(AllocError);
        }
    }
    posted.tell(alloc, told)?;
    match shared.finish(rt, Vec::new(alloc)) {
        Ok(report) => Ok(writeln!(
            told,
            "all left, {} deeds and {} ids",
            report.deeds, report.ids
        )?),
        Err(_) => Err(AllocError),
    }
}

// What comes of both groups, and of the end.
fn told_of_groups<L: Ledger, R: Wait>(
    rt: &R,
    alloc: Global,
    blank: Blank,
) -> Result<String, AllocError>
    requires { (blank.name ≡ L.name) × (blank.parts ≡ L.parts) × (L.parts ≡ PARTS) }
{
    let shared: Shared<MemDisk, L> = shared_on(alloc, blank, ROOMY)?;
    let mut accounts = admitted(rt, alloc, &shared)?;
    let mut told = String::new(alloc);
    play_group(rt, alloc, &shared, &mut accounts, MIXED, &mut told)?;
    play_group(rt, alloc, &shared, &mut accounts, TAKEN, &mut told)?;
    leave_all(rt, alloc, &shared, accounts, &mut told)?;
    Ok(told)
}

// What comes of a group whose record stops.
fn told_of_a_stop<L: Ledger, R: Wait>(
    rt: &R,
    alloc: Global,
    blank: Blank,
) -> Result<String, AllocError>
    requires { (blank.name ≡ L.name) × (blank.parts ≡ L.parts) × (L.parts ≡ PARTS) }
{
    let shared: Shared<MemDisk, L> = shared_on(alloc, blank, STOPS)?;
    let mut accounts = admitted(rt, alloc, &shared)?;
    let mut told = String::new(alloc);
    play_group(rt, alloc, &shared, &mut accounts, MIXED, &mut told)?;
    Ok(told)
}

#[test]
fn a_group_is_one_record_and_each_is_answered_in_order(rt: HostRuntime) -> Result<(), AllocError> {
    let told = told_of_groups::<Brand, _>(&rt, rt.alloc(), Blank::new(PARTS))?;
    assert_eq!(rt; told.as_str(), TOLD);
    Ok(())
}

#[test]
fn nothing_is_posted_of_a_group_whose_record_stops(rt: HostRuntime) -> Result<(), AllocError> {
    let told = told_of_a_stop::<Brand, _>(&rt, rt.alloc(), Blank::new(PARTS))?;
    assert_eq!(rt; told.as_str(), DOWN);
    Ok(())
}
