//! A worker in its thread.

ghost use Rattle.std.specs.Prelude.{◌≡◌};
ghost use Rattle.std.specs.Result.{ForOk, ForErr};
ghost use Rattle.linda_shared.specs.Working.{HasWorked};

use crate::gate::Gate;
use crate::seat::Seat;
use crate::shared::Shared;
use crate::worker::{Worker, work};
use linda_disk::Disk;
use linda_ghost::Moment;
use linda_shared_accounts::SharedFault;
use linda_shared_queue::Outlet;
use std::alloc::Global;
use std::sync::Wait;
use std::sync::atomic::{AtomicU64, Ordering};
use std::sync::ledger::Ledger;
use std::thread::{Promise, PromisedHandle, Scope, Threads};
use std::time::Clock;

/// What came of a worker.
#[derive(Drop)]
pub(crate) struct WorkerResult<L: Ledger> {
    pub(crate) seat: Seat<L>,
    pub(crate) end: Result<(), SharedFault>,
}

/// That the seat which comes back is this one, after its work.
#[derive(Drop)]
pub(crate) struct SeatPromise<L: Ledger> {
    before: Moment<Seat<L>>,
}

impl<L: Ledger> Promise<WorkerResult<L>> for SeatPromise<L> {
    ghost use Rattle.linda_shared.specs.Working.{HasWorked};

    ghost kept_by = { λ p r. HasWorked p.before.value r.seat };
}

/// A worker that was begun: its thread, or what came of it if no thread could be started.
#[derive(Drop)]
pub(crate) struct RunningWorker<L: Ledger> {
    before: Moment<Seat<L>>,
    thread: Result<PromisedHandle<WorkerResult<L>, SeatPromise<L>>, WorkerResult<L>>,
    ghost runs: { ForOk thread (λ h. h.promise.before.value ≡ before.value) },
    ghost ended: { ForErr thread (λ e. HasWorked before.value e.seat) },
}

impl<L: Ledger> RunningWorker<L> {
    /// Waits for its end.
    pub(crate) fn join<R: Threads>(self, rt: &R) -> WorkerResult<L>
        ensures { HasWorked self.before.value result.seat }
    {
        let RunningWorker { thread, .. } = self;
        match thread {
            Ok(handle) => handle.join(rt),
            Err(ended) => ended,
        }
    }
}

/// Starts a thread for the worker, which has this number among all. If none can be started, its
/// number is written into `refused`: so the worker does nothing, and gives its seat back at once.
pub(crate) fn begin<
    's,
    E,
    D: Disk + Send,
    L: Ledger + Send + Sync,
    W: Worker + Send + 's,
    G: Gate + Sync,
    R: Threads + Wait + Clock + Sync,
>(
    scope: &'s Scope<'s, E>,
    rt: &'s R,
    alloc: Global,
    shared: &'s Shared<D, L>,
    gate: &'s G,
    refused: &'s AtomicU64,
    number: u64,
    seat: Seat<L>,
    outlet: Outlet<L>,
    worker: W,
) -> RunningWorker<L>
    ensures { result.before.value ≡ seat }
{
    let before = Moment::of(&seat);
    let keeps = SeatPromise {
        before: Moment::of(&seat),
    };
    let job = move || -> WorkerResult<L>
        ensures { HasWorked seat result.seat }
    {
        run(
            rt, alloc, shared, gate, refused, number, seat, outlet, worker,
        )
    };
    match scope.spawn_with(keeps, job) {
        Ok(handle) => RunningWorker {
            before,
            thread: Ok(handle),
        },
        Err(error) => {
            refused.store(number, Ordering::SeqCst);
            let ended = (error.value)();
            RunningWorker {
                before,
                thread: Err(ended),
            }
        }
    }
}

// Lets the worker work, unless no thread could be started for it.
fn run<D: Disk, L: Ledger, W: Worker, G: Gate, R: Wait + Clock>(
    rt: &R,
    alloc: Global,
    shared: &Shared<D, L>,
    gate: &G,
    refused: &AtomicU64,
    number: u64,
    seat: Seat<L>,
    outlet: Outlet<L>,
    worker: W,
) -> WorkerResult<L>
    ensures { HasWorked seat result.seat }
{
    let mut seat = seat;
    let mut outlet = outlet;
    let mut worker = worker;
    if refused.load(Ordering::SeqCst) == number {
        return WorkerResult {
            seat,
            end: Err(SharedFault::NoThread),
        };
    }
    let end = work(rt, alloc, shared, gate, &mut seat, &mut outlet, &mut worker);
    WorkerResult { seat, end }
}
