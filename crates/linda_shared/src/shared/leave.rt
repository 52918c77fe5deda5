//! A client goes, and the end.

ghost use Rattle.std.specs.Prelude.{◌≡◌, ◌+◌, ◌≤◌, IfOk, IfSome, IsSome};
ghost use Rattle.linda_shared_queue.specs.Seat.{deeds_told};

use super::Shared;
use crate::seat::Seat;
use linda_disk::Disk;
use linda_shared_accounts::SharedFault;
use linda_shared_held::{Held, Report};
use linda_shared_queue::Outlet;
use std::sync::Wait;
use std::sync::ledger::Ledger;

impl<D: Disk, L: Ledger> Shared<D, L> {
    /// Ends the seat's outlet, as no more is submitted.
    pub fn hang_up<R: Wait>(&self, rt: &R, seat: &mut Seat<L>)
        ensures { seat.new ≡ seat.old }
    {
        seat.mailbox.end(rt);
    }

    /// The session ends: what its client asked is given up, and its seat is parked for its next
    /// connection, even if the call fails. What its leaving sends to others is given out.
    ///
    /// # Errors
    ///
    /// `Down`: the server is down.
    pub fn leave<R: Wait>(
        &self,
        rt: &R,
        seat: Seat<L>,
        outlet: Outlet<L>,
    ) -> Result<(), SharedFault> {
        let client = seat.client();
        let mut locked = self.locked.lock(rt);
        let answer = locked.held.leave(self.alloc, seat.into_account());
        let is_down = locked.held.is_down();
        let mut router = self.router.lock(rt);
        locked.take_posted(rt, self.alloc, &mut router);
        drop(locked);
        router.shut(rt, client);
        router.deliver(rt);
        if is_down {
            router.end_all(rt);
        }
        drop(router);
        drop(outlet);
        answer
    }

    /// Parks the given seats for good and returns, once all seats are back, what was reported to
    /// them, if that is what was stored.
    ///
    /// # Errors
    ///
    /// `Down`, then `SeatMissing` if a seat is out, then `Receipt` if the receipt of that number
    /// that was reported to a client differs from what was stored. The given seats stay parked.
    pub fn finish<R: Wait>(&self, rt: &R, seats: Vec<Seat<L>>) -> Result<Report, SharedFault>
        // All deeds that were reported to the given seats are counted.
        ensures { IfOk result (λ r. deeds_told seats.items ≤ r.deeds) }
    {
        let mut guard = self.locked.lock(rt);
        let told = park_all(&mut guard.held, seats);
        let report = guard.held.finish(Vec::new(self.alloc))?;
        counting(report, told)
    }
}

// The report, if it counts so many deeds.
fn counting(report: Report, told: Option<u64>) -> Result<Report, SharedFault>
    ensures { IfOk result (λ r. IfSome told (λ told. told ≤ r.deeds) × IsSome told) }
{
    match told {
        Some(told) if told <= report.deeds => Ok(report),
        _ => Err(SharedFault::SeatMissing),
    }
}

// Parks the seats for good. Returns how many deeds were reported to them in all, if that can be
// counted.
fn park_all<D: Disk, L: Ledger>(held: &mut Held<D, L>, seats: Vec<Seat<L>>) -> Option<u64>
    ensures { IfSome result (λ told. told ≡ deeds_told seats.items) }
{
    let mut told: Option<u64> = Some(0);
    for seat in seats {
        told = with_more(told, seat.deeds());
        held.park_for_good(seat.into_account());
    }
    told
}

// The sum, if it can be counted.
fn with_more(told: Option<u64>, more: u64) -> Option<u64>
    ensures { IfSome result (λ sum. IfSome told (λ one. sum ≡ one + more) × IsSome told) }
{
    told?.checked_add(more)
}
