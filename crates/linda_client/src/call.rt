//! The calls of a client, as one value.

use linda_event::Event;
use linda_tuple::Tuple;
use linda_wire::Reply;

/// A call of a client: what `Client::call` is given.
#[derive(Drop)]
pub enum Call {
    /// `Client::out`.
    Out(Tuple),
    /// `Client::sync`.
    Sync(Event),
    /// `Client::receive`: the server, and what it says.
    Receive(u32, Reply),
    /// `Client::tick`.
    Tick(u64),
    /// `Client::resend`.
    Resend,
    /// `Client::reconnected`.
    Reconnected(u32),
    /// `Client::abandon`.
    Abandon,
    /// `Client::leave`.
    Leave,
}
