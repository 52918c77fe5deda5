//! Results of a greeting.

use crate::seat::Seat;
use linda_shared_queue::Outlet;
use std::sync::ledger::Ledger;

/// What a greeting comes to.
#[derive(Drop)]
pub enum Greeted<L: Ledger> {
    /// The client has a seat, an outlet, and a last request of this number that is kept.
    Welcome(Seat<L>, Outlet<L>, u64),
    /// It has none, for this code and detail.
    Refused(u8, u64),
}
