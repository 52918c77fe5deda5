//! The client of the tuple space, as one machine without input and output.
//!
//! A `Client` puts tuples by `out` and waits for an event by `sync`, until it gives its number up
//! by `leave`. Replies of the servers come in by `receive` and the time by `tick`; each call gives
//! a `Reaction`: the packets to be sent, and the outcome if what was pending came to its end.
//! Packets may be lost, repeated and delayed: `resend` and `reconnected` give again what is not
//! answered yet.
//!
//! Contracts see a client as a record of `specs/Client`. What every call comes to is one function,
//! `react` of `specs/React`, of which each call of a client is a case. `laws` says what holds of it
//! over one call and over many, in words of its own.
//!
//! A call that may take memory has a fault for that; no other call takes any.
#![tactic(auto)]

mod arrived_tuple;
mod ask;
mod call;
mod client;
mod fault;
mod laws;
mod leaves;
mod limits;
mod outcome;
mod packet;
mod pending;
mod reaction;
mod ready;
mod task;

pub use call::Call;
pub use client::Client;
pub use fault::ClientFault;
pub use laws::{
    calls_keep_clients, clients_leave_for_good, no_number_is_used_twice, no_ticket_is_used_twice,
    numbers_go_on, offers_are_treated, offers_in_hand_are_kept, only_a_taken_takes,
    packets_are_sound, synchronizations_end_once, synchronizations_go_on,
};
pub use limits::MAX_SERVERS;
pub use outcome::{Bindings, Got, Numbers, Outcome};
pub use reaction::Reaction;
