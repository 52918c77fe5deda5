//! Workers in threads of their own.

ghost use Rattle.std.specs.Prelude.{◌≡◌};
ghost use Rattle.linda_shared_accounts.specs.declared.limits.TheConstants.{PARTS};

use super::jobs::{CounterValues, Jobs};
use linda_disk::{MemDisk, Torn};
use linda_shared::{Gate, Report, Seat, Shared, SharedFault, Worked, run_workers};
use linda_shared_accounts::PARTS;
use linda_test_server::{Host, Kept, ROOMY, Stand, kept_after_crash, seated, shared_on};
use std::alloc::{AllocError, Global};
use std::marker::Brand;
use std::process::Abort;
use std::sync::Wait;
use std::sync::atomic::{AtomicU64, Ordering};
use std::sync::ledger::{Blank, Ledger};
use std::test::Fail;
use std::thread;
use std::thread::Threads;
use std::time::{Clock, Duration};

/// The gates of tests.
#[derive(Drop)]
enum Gates {
    /// Lets all through.
    Open,
    /// Lets nothing through.
    Shut,
    /// Holds the first message of client 1 until that of client 2 was answered.
    Behind(AtomicU64),
    /// Lets the first message of each of two clients through once it was asked for the other's too.
    /// After ten thousand turns of a millisecond it says no for good.
    Together(Entered),
}

/// Of which clients' first messages the gate was asked, and whether it waited in vain.
#[derive(Drop)]
struct Entered {
    first: AtomicU64,
    second: AtomicU64,
    is_over: AtomicU64,
}

fn is_set(flag: &AtomicU64) -> bool {
    flag.load(Ordering::SeqCst) == 1
}

impl Entered {
    fn enter<R: Clock>(&self, rt: &R, client: u32) -> bool {
        if client == 1 {
            self.first.store(1, Ordering::SeqCst);
        } else {
            self.second.store(1, Ordering::SeqCst);
        }
        for _ in 0..10_000 {
            if is_set(&self.is_over) {
                return false;
            }
            if is_set(&self.first) && is_set(&self.second) {
                return true;
            }
            thread::sleep(rt, Duration::from_millis(1));
        }
        self.is_over.store(1, Ordering::SeqCst);
        false
    }
}

impl Gate for Gates {
    fn may<R: Wait + Clock>(&self, rt: &R, client: u32, call: u64) -> bool {
        match self {
            Gates::Open => true,
            Gates::Shut => false,
            Gates::Behind(second) => client != 1 || call != 1 || is_set(second),
            Gates::Together(entered) => call != 1 || entered.enter(rt, client),
        }
    }

    fn answered<R: Wait + Clock>(&self, _rt: &R, client: u32, call: u64) {
        if let Gates::Behind(second) = self {
            if client == 2 && call == 1 {
                second.store(1, Ordering::SeqCst);
            }
        }
    }
}

/// Clients from 1 on, each with as many jobs to put and take; what all of them end with, and the
/// gate before them.
#[derive(Drop)]
struct Crew {
    clients: u32,
    jobs: u64,
    end: Result<(), SharedFault>,
    gate: Gates,
}

// All work, and their seats come back.
fn work<L: Ledger + Send + Sync, R: Threads + Wait + Clock + Abort + Sync>(
    rt: &R,
    alloc: Global,
    shared: &Shared<MemDisk, L>,
    crew: &Crew,
    tally: &CounterValues,
) -> Result<Vec<Seat<L>>, AllocError> {
    let workers = workers_of(rt, alloc, shared, crew, tally)?;
    let Ok(Worked { seats, end }) = run_workers(rt, alloc, shared, workers, &crew.gate) else {
        return Err(AllocError);
    };
    assert_eq!(rt; end, crew.end);
    assert!(rt; are_of_all(&seats, crew.clients));
    Ok(seats)
}

// The workers of a crew, each with its seat and its outlet.
fn workers_of<'t, S: Drop, O: Drop, H: Host<S, O>, R: Wait>(
    rt: &R,
    alloc: Global,
    host: &H,
    crew: &Crew,
    tally: &'t CounterValues,
) -> Result<Vec<(S, O, Jobs<'t>)>, AllocError> {
    let mut workers = Vec::new(alloc);
    for client in 1..crew.clients.saturating_add(1) {
        let (seat, outlet) = seated(rt, host, client)?;
        workers.push((seat, outlet, Jobs::new(alloc, tally, crew.jobs)))?;
    }
    Ok(workers)
}

// Whether these are the seats of the clients from 1 on, in order, as many.
fn are_of_all<L: Ledger>(seats: &[Seat<L>], clients: u32) -> bool {
    let mut client: u32 = 0;
    for seat in seats {
        client = client.saturating_add(1);
        if seat.client() != client {
            return false;
        }
    }
    client == clients
}

// A crew works over a new server; if all end well each job was taken once.
fn play_crew<L: Ledger + Send + Sync, R: Threads + Wait + Clock + Abort + Sync>(
    rt: &R,
    alloc: Global,
    blank: Blank,
    crew: &Crew,
) -> Result<(), Fail>
    requires { (blank.name ≡ L.name) × (blank.parts ≡ L.parts) × (L.parts ≡ PARTS) }
{
    let shared: Shared<MemDisk, L> = shared_on(alloc, blank, ROOMY)?;
    let all = u64::from(crew.clients).saturating_mul(crew.jobs);
    do_all(rt, alloc, &shared, crew, all)?;
    if crew.end.is_ok() {
        let (next, tuples, _) = shared.into_kept();
        assert_eq!(rt; (next, tuples), (all.saturating_add(1), 0));
    }
    Ok(())
}

// A crew does so many jobs in all; if it ends well each was put once and taken once.
fn do_all<L: Ledger + Send + Sync, R: Threads + Wait + Clock + Abort + Sync>(
    rt: &R,
    alloc: Global,
    shared: &Shared<MemDisk, L>,
    crew: &Crew,
    all: u64,
) -> Result<(), AllocError> {
    let ids = usize::try_from(all).unwrap_or(0);
    let tally = CounterValues::new(alloc, ids.saturating_add(1))?;
    let seats = work(rt, alloc, shared, crew, &tally)?;
    if crew.end.is_ok() {
        let told = told_by(shared.finish(rt, seats));
        assert_eq!(rt; told, (all.saturating_mul(2), all));
        assert!(rt; tally.is_even());
    }
    Ok(())
}

// The deeds and the ids of a report, 0 of none.
fn told_by(report: Result<Report, SharedFault>) -> (u64, u64) {
    match report {
        Ok(report) => (report.deeds, report.ids),
        Err(_) => (0, 0),
    }
}

// Does what `play_crew` does, with a ledger of its own.
fn crew_works<R: Threads + Wait + Clock + Abort + Sync>(
    rt: &R,
    alloc: Global,
    crew: &Crew,
) -> Result<(), Fail> {
    play_crew::<Brand, R>(rt, alloc, Blank::new(PARTS), crew)
}

#[test]
fn a_day_of_work(rt: HostRuntime) -> Result<(), Fail> {
    let crew = Crew {
        clients: 4,
        jobs: 100,
        end: Ok(()),
        gate: Gates::Open,
    };
    crew_works(&rt, rt.alloc(), &crew)
}

#[test]
fn one_worker_waits_until_another_was_answered(rt: HostRuntime) -> Result<(), Fail> {
    let crew = Crew {
        clients: 2,
        jobs: 3,
        end: Ok(()),
        gate: Gates::Behind(AtomicU64::new(0)),
    };
    crew_works(&rt, rt.alloc(), &crew)
}

#[test]
fn workers_run_side_by_side(rt: HostRuntime) -> Result<(), Fail> {
    let entered = Entered {
        first: AtomicU64::new(0),
        second: AtomicU64::new(0),
        is_over: AtomicU64::new(0),
    };
    let crew = Crew {
        clients: 2,
        jobs: 3,
        end: Ok(()),
        gate: Gates::Together(entered),
    };
    crew_works(&rt, rt.alloc(), &crew)
}

#[test]
fn a_worker_at_a_shut_gate_is_stuck(rt: HostRuntime) -> Result<(), Fail> {
    let crew = Crew {
        clients: 1,
        jobs: 1,
        end: Err(SharedFault::Stuck(1)),
        gate: Gates::Shut,
    };
    crew_works(&rt, rt.alloc(), &crew)
}

// Four workers over a disk that stops inside this device call: all of them end, and the deeds that
// were reported to them are kept, with or without those that were on their way to them.
fn play_cut<L: Ledger + Send + Sync, R: Threads + Wait + Clock + Abort + Sync>(
    rt: &R,
    alloc: Global,
    blank: Blank,
    call: u64,
) -> Result<(), Fail>
    requires { (blank.name ≡ L.name) × (blank.parts ≡ L.parts) × (L.parts ≡ PARTS) }
{
    let stand = Stand {
        limit: ROOMY.limit,
        stops_in: Some(call),
    };
    let shared: Shared<MemDisk, L> = shared_on(alloc, blank, stand)?;
    let told = told_until_down(rt, alloc, &shared)?;
    let disks = shared.into_disks();
    let Some(kept) = kept_after_crash(alloc, disks, ROOMY.limit, Torn::Kept) else {
        panic!(rt; "no server opens on these disks")
    };
    let done = deeds_of(kept);
    assert!(rt;
        told <= done && done <= told.saturating_add(4),
        "{told} {done}"
    );
    Ok(())
}

// Four workers work until the server is down: of how many deeds they heard.
fn told_until_down<L: Ledger + Send + Sync, R: Threads + Wait + Clock + Abort + Sync>(
    rt: &R,
    alloc: Global,
    shared: &Shared<MemDisk, L>,
) -> Result<u64, AllocError> {
    let crew = Crew {
        clients: 4,
        jobs: 100,
        end: Err(SharedFault::Down),
        gate: Gates::Open,
    };
    let tally = CounterValues::new(alloc, 401)?;
    let seats = work(rt, alloc, shared, &crew, &tally)?;
    let told = deeds_told(&seats);
    assert!(rt; shared.is_down(rt));
    let end = shared.finish(rt, seats).err();
    assert_eq!(rt; end, Some(SharedFault::Down));
    Ok(told)
}

// Of how many deeds all of them heard.
fn deeds_told<L: Ledger>(seats: &[Seat<L>]) -> u64 {
    let mut told: u64 = 0;
    for seat in seats {
        told = told.saturating_add(seat.deeds());
    }
    told
}

// How many deeds led to what is kept, if each was a put or a take.
fn deeds_of(kept: Kept) -> u64 {
    let (next, tuples, _) = kept;
    let puts = next.saturating_sub(1);
    let takes = puts.saturating_sub(u64::try_from(tuples).unwrap_or(u64::MAX));
    puts.saturating_add(takes)
}

// Does what `play_cut` does, with a ledger of its own.
fn crew_is_cut<R: Threads + Wait + Clock + Abort + Sync>(
    rt: &R,
    alloc: Global,
    call: u64,
) -> Result<(), Fail> {
    play_cut::<Brand, R>(rt, alloc, Blank::new(PARTS), call)
}

#[test]
fn a_disk_that_stops_ends_all_workers(rt: HostRuntime) -> Result<(), Fail> {
    for call in [10, 100, 501, 502, 503, 504] {
        crew_is_cut(&rt, rt.alloc(), call)?;
    }
    Ok(())
}
