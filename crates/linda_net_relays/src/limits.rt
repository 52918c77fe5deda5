//! Limits of connections while they are served.

/// How many connections are served, and for how long a client may hold a tuple and say nothing.
#[derive(Clone, Copy, Debug, PartialEq, Eq)]
pub struct Limits {
    /// So many connections are let in; any number if there is none.
    pub sessions: Option<u32>,
    /// For so many seconds a client that holds a tuple may send no message: then its connection is
    /// ended, three seconds later at most unless the machine is busy, so what it holds is free
    /// again. If there is none it may wait for ever.
    pub lease: Option<u32>,
}
