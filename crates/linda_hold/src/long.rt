//! Long waits and long holds.

use crate::asked::Asked;
use crate::request::Request;

/// A request that waits, and for how long it does.
#[derive(Drop)]
pub struct LongWait {
    pub request: Request,
    pub asked: Asked,
    /// In seconds. No contract says it.
    pub seconds: u64,
}

/// A tuple that is held, and for how long it is.
#[derive(Clone, Copy, Debug, PartialEq, Eq)]
pub struct LongHold {
    /// The id of the tuple.
    pub id: u64,
    /// For whom it is held.
    pub request: Request,
    /// In seconds. No contract says it.
    pub seconds: u64,
}
