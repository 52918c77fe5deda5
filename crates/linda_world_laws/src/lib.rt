//! Worlds of servers and clients over a network that loses, repeats and delays as it likes: what
//! may come of them, and what always holds.
//!
//! A world is its servers, its clients and all packets; `specs/World` says what is seen of one,
//! `specs/Steps` what each event comes to, and `specs/Reached` which worlds a run leads to.
//! `specs/Promises` says what holds in each of them, whatever is lost, repeated, delayed or
//! stopped, and `laws` proves it. There is no machine here: that is `linda_world`.
#![tactic(auto)]

mod event;
mod laws;
mod packet;
mod seen;

pub use event::WorldEvent;
pub use laws::{
    deeds_are_learned, deeds_stay, holds_have_reasons, servers_are_few, servers_stay_sound,
    what_is_handed_over_was_put, worlds_are_safe,
};
pub use packet::{Body, Packet};
pub use seen::Seen;
