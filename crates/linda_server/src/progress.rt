//! Progress of a snapshot in steps.

/// What a step of a snapshot came to.
#[derive(Clone, Copy, Debug, PartialEq, Eq)]
pub enum Progress {
    /// None is begun, or the one that was has been given up.
    Idle,
    /// It goes on.
    Going,
    /// It came to its end: its bank is in use.
    Done,
}
