//! In which way a call does its lines.

/// In which way a call does its lines.
#[derive(Clone, Copy, Debug, PartialEq, Eq)]
pub struct Manner {
    /// The client goes on after the numbers that servers keep for it: it was used before.
    pub goes_on: bool,
    /// Lines that put tuples, and that can be read without waiting, go out together.
    pub together: bool,
}
