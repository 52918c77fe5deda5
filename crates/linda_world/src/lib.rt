//! Servers and clients with a network between them that loses, repeats and delays as it likes, as
//! one machine that is driven event by event.
//!
//! A `World` is made of nodes of any kind. `step` does one event, exactly as
//! `linda_world_laws/specs/Steps` says of it; so what linda_world_laws proves of every run holds of
//! the machine: no tuple is taken twice, and whatever is held is held for a reason.
//!
//! A call that may take memory has a fault for that; no other call takes any.
#![tactic(auto)]

mod deeds;
mod fault;
mod mark;
mod member;
mod message;
mod post;
mod refusal;
mod scene;
mod server;
mod taken;
mod world;

pub use fault::WorldFault;
pub use linda_world_laws::{Body, Packet, Seen, WorldEvent};
pub use world::World;
