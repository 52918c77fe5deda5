//! Torn writes: how a disk in memory comes out of a crash.

/// What a crash leaves of what was not synced. Each of the three is an outcome that the model of a
/// disk allows.
#[derive(Clone, Copy, Debug, PartialEq, Eq)]
pub enum Torn {
    /// All of it is there, as a read gave it.
    Kept,
    /// None of it is there: bytes and length are those of the last sync.
    Lost,
    /// Each byte that was written since the last sync is this one, the length is the greatest since
    /// then, and no cut since then has happened.
    Filled(u8),
}
