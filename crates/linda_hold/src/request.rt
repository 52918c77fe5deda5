//! The name of a request.

/// A request for a tuple, named by the client that asks and the ticket that it asks with.
#[derive(Clone, Copy, Debug, PartialEq, Eq)]
pub struct Request {
    pub client: u32,
    pub ticket: u64,
}
