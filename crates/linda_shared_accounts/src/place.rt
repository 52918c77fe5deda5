//! Places of clients in the accounts.

use crate::ring::Ring;

/// What the accounts have of a client that has or had a seat.
#[derive(Drop)]
pub enum Place {
    /// Its seat is out, and carries all that was reported to it.
    Out,
    /// Its seat is back.
    Parked {
        /// The last receipts that were reported to it.
        ring: Ring,
        /// How many deeds were reported to it.
        deeds: u64,
        /// Whether it goes out no more.
        for_good: bool,
    },
}
