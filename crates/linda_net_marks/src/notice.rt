//! Notices of what happens while connections are served.

use crate::refusals::RefusalReason;

/// What happened.
#[derive(Clone, Copy, Debug, PartialEq, Eq)]
pub enum Notice {
    /// A minute went by.
    Minute,
    /// A snapshot was taken, in so many milliseconds.
    Snapshot(u64),
    /// A snapshot was refused after so many milliseconds, since the new bank would be full.
    NoSnapshot(u64),
    /// Puts or takes are refused since the bank is full: reported once, and again only after a
    /// minute without.
    Full,
    /// A connection was closed since no thread could be had: reported as `Full` is.
    Closed,
    /// A connection could not be had: reported as `Full` is.
    Missed,
    /// Clients are refused for this reason: reported as `Full` is.
    Turned(RefusalReason),
    /// No thread could be had for the watcher: nothing more is reported.
    Unwatched,
    /// No thread could be had for snapshots: none is taken.
    NoThread,
    /// The system has no thread or no room for the status server: nothing is answered.
    NoStatus,
    /// The server went down.
    Down,
}
