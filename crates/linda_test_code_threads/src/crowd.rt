//! Many sessions that come and go.

use super::scene::{Scene, play};
use linda_test_server::{Host, Welcome, ask, hello, put};
use linda_tuple::{Atom, Pattern};
use linda_wire::{Message, Reply};
use std::alloc::{AllocError, Global};
use std::process::Abort;
use std::sync::Wait;
use std::test::Fail;
use std::thread;
use std::thread::Threads;

const CLIENTS: usize = 64;

const VISITS: u64 = 16;

// Comes, puts and takes, and goes; whether all of it went as it should. The client was there so
// often before.
fn visits<S: Drop, O: Drop, H: Host<S, O>, R: Wait>(
    rt: &R,
    alloc: Global,
    host: &H,
    client: u32,
    before: u64,
) -> Result<bool, AllocError> {
    let greeted = host.greet(rt, &hello(client, before == 0));
    let Ok(Welcome::Seated(seat, outlet, last)) = greeted else {
        return Ok(false);
    };
    let mut seat = seat;
    let mut outlet = outlet;
    let is_well = last == before.saturating_mul(2)
        && trades(
            rt,
            alloc,
            host,
            &mut seat,
            &mut outlet,
            before.saturating_add(1),
            last,
        )?;
    Ok(host.leave(rt, seat, outlet).is_ok() && is_well)
}

// Puts a tuple of the client's own, and takes it.
fn trades<S: Drop, O: Drop, H: Host<S, O>, R: Wait>(
    rt: &R,
    alloc: Global,
    host: &H,
    seat: &mut S,
    outlet: &mut O,
    ticket: u64,
    last: u64,
) -> Result<bool, AllocError> {
    let own = i64::from(H::client(seat));
    let message = put(alloc, last.saturating_add(1), "own", own)?;
    let did_put = did(rt, host, seat, &message);
    let did_ask = asks(rt, alloc, host, seat, ticket, own)?;
    let Some(id) = offered_own(&host.drain(rt, outlet)) else {
        return Ok(false);
    };
    let message = Message::Accept {
        n: last.saturating_add(2),
        ticket,
        id,
    };
    Ok(did_put && did_ask && did(rt, host, seat, &message))
}

// Asks for the tuple of the client's own: whether the call did not fail.
fn asks<S: Drop, O: Drop, H: Host<S, O>, R: Wait>(
    rt: &R,
    alloc: Global,
    host: &H,
    seat: &mut S,
    ticket: u64,
    own: i64,
) -> Result<bool, AllocError> {
    let message = ask(alloc, ticket, "own", Pattern::Value(Atom::Int(own)))?;
    Ok(host.submit(rt, seat, &message).is_ok())
}

// The id under which a tuple was stored that is offered then.
fn offered_own(replies: &[Reply]) -> Option<u64> {
    match replies {
        [Reply::Stored { id, .. }, Reply::Offer { id: offered, .. }] if id == offered => Some(*id),
        _ => None,
    }
}

// Whether a message makes a deed.
fn did<S: Drop, O: Drop, H: Host<S, O>, R: Wait>(
    rt: &R,
    host: &H,
    seat: &mut S,
    message: &Message,
) -> bool {
    match host.submit(rt, seat, message) {
        Ok(receipt) => receipt.is_some(),
        Err(_) => false,
    }
}

// All visits of a client: how many went as they should.
fn visits_of<S: Drop, O: Drop, H: Host<S, O>, R: Wait>(
    rt: &R,
    alloc: Global,
    host: &H,
    client: u32,
) -> u64 {
    let mut well: u64 = 0;
    for before in 0..VISITS {
        if let Ok(true) = visits(rt, alloc, host, client, before) {
            well = well.saturating_add(1);
        }
    }
    well
}

/// Each client, in a thread of its own, comes as often, puts a tuple of its own, takes it, and
/// goes.
pub(super) fn crowd_comes<
    S: Drop + Send,
    O: Drop + Send,
    H: Host<S, O> + Sync,
    R: Threads + Wait + Abort + Sync,
>(rt: &R, alloc: Global, host: H) -> Result<(), Fail> {
    let well = thread::map_indices(
        rt,
        alloc,
        CLIENTS,
        &|i| {
            let client = u32::try_from(i).unwrap_or(0);
            visits_of(rt, alloc, &host, client)
        },
    )?;
    assert_eq!(rt; well.len(), CLIENTS);
    assert!(rt; are_all(&well, VISITS));
    all_is_counted(rt, alloc, host);
    Ok(())
}

// Each visit was two deeds, and nothing is left of them but the clients.
fn all_is_counted<S: Drop, O: Drop, H: Host<S, O>, R: Wait + Abort>(
    rt: &R,
    alloc: Global,
    host: H,
) {
    let (deeds, ids) = match host.finish(rt, Vec::new(alloc)) {
        Ok(report) => (report.deeds, report.ids),
        Err(_) => (0, 0),
    };
    assert_eq!(rt; (deeds, ids), (2_048, 1_024));
    assert_eq!(rt; host.into_kept(), (1_025, 0, CLIENTS));
}

fn are_all(counts: &[u64], wanted: u64) -> bool {
    for count in counts {
        if *count != wanted {
            return false;
        }
    }
    true
}

#[test]
fn a_crowd_comes_and_goes_a_thousand_times(rt: HostRuntime) -> Result<(), Fail> {
    play(&rt, rt.alloc(), Scene::Crowd)
}
