//! Sessions that work, each in a thread of its own.

mod running_worker;

ghost use Rattle.std.specs.Prelude.{◌≡◌, ◌+◌, ◌<◌, ◌≤◌, ◌++◌, ◌∷◌, [], map, vec_len, vec_capacity};
ghost use Rattle.std.specs.Prelude.{IfOk, IfErr};
ghost use Rattle.linda_shared.specs.Working as spec;
ghost use Rattle.linda_shared.specs.Working.{AllHaveWorked};

use crate::gate::Gate;
use crate::seat::Seat;
use crate::shared::Shared;
use crate::worker::Worker;
use linda_disk::Disk;
use linda_shared_accounts::SharedFault;
use linda_shared_queue::Outlet;
use running_worker::{RunningWorker, WorkerResult, begin};
use std::alloc::Global;
use std::sync::Wait;
use std::sync::atomic::AtomicU64;
use std::sync::ledger::Ledger;
use std::thread;
use std::thread::{Scope, Threads};
use std::time::Clock;

/// What came back of workers.
#[derive(Drop)]
pub struct Worked<L: Ledger> {
    /// Their seats, in order.
    pub seats: Vec<Seat<L>>,
    /// Whether all ended by themselves; else the fault of one, the one that comes first in
    /// `SharedFault`.
    pub end: Result<(), SharedFault>,
}

/// Lets each worker do its steps in a thread of its own, with a seat and an outlet. The seats come
/// back in order, also after a fault, each its client's and with all that was reported to it. If no
/// thread can be started for a worker, that is `NoThread`, and the others go on to their ends.
///
/// # Errors
///
/// There is no memory to begin: nobody worked, and all come back as they were given.
pub fn run_workers<
    D: Disk + Send,
    L: Ledger + Send + Sync,
    W: Worker + Send,
    G: Gate + Sync,
    R: Threads + Wait + Clock + Sync,
>(
    rt: &R,
    alloc: Global,
    shared: &Shared<D, L>,
    workers: Vec<(Seat<L>, Outlet<L>, W)>,
    gate: &G,
) -> Result<Worked<L>, Vec<(Seat<L>, Outlet<L>, W)>>
    ensures seats { IfOk result (λ w. AllHaveWorked (map (λ w. w.0) workers.items) w.seats.items) }
    ensures err { IfErr result (λ back. back ≡ workers) }
{
    let Ok(seats) = Vec::with_capacity(alloc, workers.len()) else {
        return Err(workers);
    };
    let Ok(begun) = Vec::with_capacity(alloc, workers.len()) else {
        return Err(workers);
    };
    let refused = AtomicU64::new(0);
    let worked = thread::scope(
        thread::scope_env(),
        rt,
        |scope| -> Worked<L>
            requires none { (begun.items ≡ []) × (seats.items ≡ []) }
            requires room { (vec_len workers ≤ vec_capacity begun)
                × (vec_len workers ≤ vec_capacity seats) }
            ensures { AllHaveWorked (map (λ w. w.0) workers.items) result.seats.items }
        {
            let begun = begin_all(scope, rt, alloc, shared, gate, &refused, workers, begun);
            join_all(rt, begun, seats)
        },
    );
    Ok(worked)
}

// Begins each, by numbers from 1 on.
fn begin_all<
    's,
    E,
    D: Disk + Send,
    L: Ledger + Send + Sync,
    W: Worker + Send + 's,
    G: Gate + Sync,
    R: Threads + Wait + Clock + Sync,
>(
    scope: &'s Scope<'s, E>,
    rt: &'s R,
    alloc: Global,
    shared: &'s Shared<D, L>,
    gate: &'s G,
    refused: &'s AtomicU64,
    workers: Vec<(Seat<L>, Outlet<L>, W)>,
    begun: Vec<RunningWorker<L>>,
) -> Vec<RunningWorker<L>>
    requires none { begun.items ≡ [] }
    requires room { vec_len workers ≤ vec_capacity begun }
    ensures { map (λ b. b.before.value) result.items ≡ map (λ w. w.0) workers.items }
{
    let mut begun = begun;
    let mut number: u64 = 0;
    for (seat, outlet, worker) in workers {
        number = number.saturating_add(1);
        let one = begin(
            scope, rt, alloc, shared, gate, refused, number, seat, outlet, worker,
        );
        begun.push_reserved(one);
    }
    begun
}

// Waits for the end of each.
fn join_all<L: Ledger, R: Threads>(
    rt: &R,
    begun: Vec<RunningWorker<L>>,
    seats: Vec<Seat<L>>,
) -> Worked<L>
    requires none { seats.items ≡ [] }
    requires room { vec_len begun ≤ vec_capacity seats }
    ensures { AllHaveWorked (map (λ b. b.before.value) begun.items) result.seats.items }
{
    let mut worked = Worked { seats, end: Ok(()) };
    for one in begun {
        worked.add(one.join(rt));
    }
    worked
}

impl<L: Ledger> Worked<L> {
    // One more has ended.
    fn add(&mut self, ended: WorkerResult<L>)
        requires { vec_len self.old.seats < vec_capacity self.old.seats }
        ensures seats { self.new.seats.items ≡ self.old.seats.items ++ ended.seat ∷ [] }
        ensures end { self.new.end ≡ spec.first_of self.old.end ended.end }
        ensures room { (vec_len self.new.seats ≡ vec_len self.old.seats + 1)
            × (vec_capacity self.new.seats ≡ vec_capacity self.old.seats) }
    {
        let WorkerResult { seat, end } = ended;
        self.seats.push_reserved(seat);
        self.end = first_of(self.end, end);
    }
}

// Of two ends the one that is returned: the fault that comes first in `SharedFault`, if there is
// one.
fn first_of(one: Result<(), SharedFault>, other: Result<(), SharedFault>) -> Result<(), SharedFault>
    ensures { result ≡ spec.first_of one other }
{
    match (one, other) {
        (Ok(()), _) => other,
        (Err(_), Ok(())) => one,
        (Err(a), Err(b)) => { if rank(b) < rank(a) { other } else { one } }
    }
}

// The position of the fault in `SharedFault`, from 0 on.
fn rank(fault: SharedFault) -> u8
    ensures { result ≡ spec.rank fault }
{
    match fault {
        SharedFault::Down => 0,
        SharedFault::Full => 1,
        SharedFault::SeatMissing => 2,
        SharedFault::Receipt { .. } => 3,
        SharedFault::Stuck(_) => 4,
        SharedFault::NoThread => 5,
        SharedFault::Memory => 6,
    }
}
