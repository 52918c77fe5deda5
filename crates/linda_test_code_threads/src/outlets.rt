//! Outlets, read beside the threads that lead to the replies.

use super::scene::{Scene, play};
use linda_test_server::{Host, ask, put, seated};
use linda_tuple::Pattern;
use linda_wire::{Message, Reply};
use std::alloc::{AllocError, Global};
use std::process::Abort;
use std::sync::Wait;
use std::test::Fail;
use std::thread;
use std::thread::Threads;
use std::time::{Clock, Duration};

// Submits what has to be done.
fn done<S: Drop, O: Drop, H: Host<S, O>, R: Wait + Abort>(
    rt: &R,
    host: &H,
    seat: &mut S,
    message: &Message,
) {
    let told = host.submit(rt, seat, message);
    assert!(rt; told.is_ok());
}

// The ids under which something was stored, until no reply comes any more, as the digits of a
// number; none if another reply came.
fn ids_read<S: Drop, O: Drop, H: Host<S, O>, R: Wait>(
    rt: &R,
    host: &H,
    outlet: &mut O,
) -> Option<u64> {
    let mut ids: u64 = 0;
    for _ in rt.forever() {
        let replies = host.drain_wait(rt, outlet);
        if replies.is_empty() {
            return Some(ids);
        }
        for reply in &replies {
            match reply {
                Reply::Stored { id, .. } => ids = ids.saturating_mul(10).saturating_add(*id),
                _ => return None,
            }
        }
    }
    unreachable!()
}

// Puts three tuples, with some time in between, and hangs up.
fn puts<S: Drop, O: Drop, H: Host<S, O>, R: Wait + Clock + Abort>(
    rt: &R,
    alloc: Global,
    host: &H,
    seat: &mut S,
) -> Result<(), AllocError> {
    for n in 1..4u64 {
        thread::sleep(rt, Duration::from_millis(5));
        let message = put(alloc, n, "a", 3)?;
        done(rt, host, seat, &message);
    }
    host.hang_up(rt, seat);
    Ok(())
}

/// One thread of a session reads its replies, and another submits and hangs up.
pub(super) fn reads_beside<
    S: Drop + Send,
    O: Drop + Send,
    H: Host<S, O> + Sync,
    R: Threads + Wait + Clock + Abort + Sync,
>(rt: &R, alloc: Global, host: H) -> Result<(), Fail> {
    let (mut seat, mut outlet) = seated(rt, &host, 7)?;
    let (read, put) = thread::join(
        rt,
        || ids_read(rt, &host, &mut outlet),
        || puts(rt, alloc, &host, &mut seat),
    );
    put?;
    assert_eq!(rt; read, Some(123));
    assert!(rt; host.leave(rt, seat, outlet).is_ok());
    Ok(())
}

#[test]
fn a_thread_reads_the_replies_to_what_another_submits(rt: HostRuntime) -> Result<(), Fail> {
    play(&rt, rt.alloc(), Scene::Beside)
}

// Waits for news: whether a reply may come.
fn hears<S: Drop, O: Drop, H: Host<S, O>, R: Wait>(rt: &R, host: &H, outlet: &mut O) -> bool {
    host.wait_news(rt, outlet)
}

// Puts a tuple after some time.
fn puts_late<S: Drop, O: Drop, H: Host<S, O>, R: Wait + Clock + Abort>(
    rt: &R,
    alloc: Global,
    host: &H,
    seat: &mut S,
) -> Result<(), AllocError> {
    thread::sleep(rt, Duration::from_millis(20));
    let message = put(alloc, 1, "a", 3)?;
    done(rt, host, seat, &message);
    Ok(())
}

/// Client 8 asked, and one of its threads waits for news, which come once client 7 puts. Its other
/// outlet has what came, and ends once the client left.
pub(super) fn hears_of_others<
    S: Drop + Send,
    O: Drop + Send,
    H: Host<S, O> + Sync,
    R: Threads + Wait + Clock + Abort + Sync,
>(rt: &R, alloc: Global, host: H) -> Result<(), Fail> {
    let (mut seat, mut outlet) = seated(rt, &host, 8)?;
    asks(rt, alloc, &host, &mut seat, 1)?;
    let (mut other, _others) = seated(rt, &host, 7)?;
    let (is_heard, put) = thread::join(
        rt,
        || hears(rt, &host, &mut outlet),
        || puts_late(rt, alloc, &host, &mut other),
    );
    put?;
    assert!(rt; is_heard);
    let mut second = H::another(&outlet)?;
    assert!(rt; host.leave(rt, seat, outlet).is_ok());
    assert_eq!(rt; host.drain_wait(rt, &mut second).len(), 1);
    assert_eq!(rt; host.drain_wait(rt, &mut second).len(), 0);
    Ok(())
}

#[test]
fn whoever_waits_for_news_hears_of_them(rt: HostRuntime) -> Result<(), Fail> {
    play(&rt, rt.alloc(), Scene::News)
}

/// What a thread does.
#[derive(Drop)]
enum Part<S, O> {
    /// The session ends.
    Leaves(S, O),
    /// The client gives up its number for good.
    GivesUp(S, O),
    /// It waits for an offer.
    Waits(O),
}

// Plays a part: 0 for the one that leaves, the id of the one offer for the one that waits, and none
// if something else came.
fn played<S: Drop, O: Drop, H: Host<S, O>, R: Wait + Clock>(
    rt: &R,
    host: &H,
    part: Part<S, O>,
) -> Option<u64> {
    match part {
        Part::Leaves(seat, outlet) => {
            thread::sleep(rt, Duration::from_millis(20));
            match host.leave(rt, seat, outlet) {
                Ok(()) => Some(0),
                Err(_) => None,
            }
        }
        Part::GivesUp(seat, outlet) => {
            thread::sleep(rt, Duration::from_millis(20));
            given_up(rt, host, seat, outlet)
        }
        Part::Waits(outlet) => {
            let mut outlet = outlet;
            let replies = host.drain_wait(rt, &mut outlet);
            match replies.as_slice() {
                [Reply::Offer { ticket: 1, id, .. }] => Some(*id),
                _ => None,
            }
        }
    }
}

// Client 7 leaves for good by its message 5 and says one more: 0 if that is a deed and no more is,
// and it hears that it left, and then that it is refused.
fn given_up<S: Drop, O: Drop, H: Host<S, O>, R: Wait>(
    rt: &R,
    host: &H,
    seat: S,
    outlet: O,
) -> Option<u64> {
    let mut seat = seat;
    let mut outlet = outlet;
    let first = host.submit(rt, &mut seat, &Message::Leave { n: 5 });
    let later = host.submit(rt, &mut seat, &Message::Leave { n: 6 });
    let is_told = is_told_it_left(&host.drain(rt, &mut outlet));
    match (first, later, host.leave(rt, seat, outlet)) {
        (Ok(Some(_)), Ok(None), Ok(())) if is_told => Some(0),
        _ => None,
    }
}

// Whether these say that message 5 left, and then that a message is refused.
fn is_told_it_left(replies: &[Reply]) -> bool {
    match replies {
        [
            Reply::Left { n: 5 },
            Reply::Refused {
                code: 11,
                detail: 5,
            },
        ] => true,
        _ => false,
    }
}

/// Four sessions wait, and a fifth leaves with what they wait for, or its client does for good.
pub(super) fn leaves_what_others_wait_for<
    S: Drop + Send,
    O: Drop + Send,
    H: Host<S, O> + Sync,
    R: Threads + Wait + Clock + Abort + Sync,
>(rt: &R, alloc: Global, host: H, for_good: bool) -> Result<(), Fail> {
    let parts = parts_of(rt, alloc, &host, for_good)?;
    let got = thread::map_vec(rt, parts, &|part| played(rt, &host, part))?;
    let all = [Some(0), Some(1), Some(2), Some(3), Some(4)];
    assert_eq!(rt; got.as_slice(), &all[..]);
    Ok(())
}

// Client 7 has four tuples that it was offered, and 8 to 11 asked for one each.
fn parts_of<S: Drop, O: Drop, H: Host<S, O>, R: Wait + Abort>(
    rt: &R,
    alloc: Global,
    host: &H,
    for_good: bool,
) -> Result<Vec<Part<S, O>>, AllocError> {
    let mut parts = Vec::new(alloc);
    let (seat, outlet) = offered_four(rt, alloc, host)?;
    parts.push(if for_good {
        Part::GivesUp(seat, outlet)
    } else {
        Part::Leaves(seat, outlet)
    })?;
    for client in 8..12u32 {
        let (mut seat, outlet) = seated(rt, host, client)?;
        asks(rt, alloc, host, &mut seat, 1)?;
        parts.push(Part::Waits(outlet))?;
    }
    Ok(parts)
}

// Client 7 puts four tuples, and is offered each.
fn offered_four<S: Drop, O: Drop, H: Host<S, O>, R: Wait + Abort>(
    rt: &R,
    alloc: Global,
    host: &H,
) -> Result<(S, O), AllocError> {
    let (mut seat, mut outlet) = seated(rt, host, 7)?;
    for n in 1..5u64 {
        let message = put(alloc, n, "a", 3)?;
        done(rt, host, &mut seat, &message);
        asks(rt, alloc, host, &mut seat, n)?;
    }
    assert_eq!(rt; host.drain(rt, &mut outlet).len(), 8);
    Ok((seat, outlet))
}

// Asks for a tuple by this ticket.
fn asks<S: Drop, O: Drop, H: Host<S, O>, R: Wait + Abort>(
    rt: &R,
    alloc: Global,
    host: &H,
    seat: &mut S,
    ticket: u64,
) -> Result<(), AllocError> {
    let message = ask(alloc, ticket, "a", Pattern::IntFormal)?;
    done(rt, host, seat, &message);
    Ok(())
}

#[test]
fn whoever_waits_is_offered_what_is_left(rt: HostRuntime) -> Result<(), Fail> {
    play(&rt, rt.alloc(), Scene::Leaving { for_good: false })
}

#[test]
fn whoever_waits_is_offered_what_a_client_held_that_left(rt: HostRuntime) -> Result<(), Fail> {
    play(&rt, rt.alloc(), Scene::Leaving { for_good: true })
}
