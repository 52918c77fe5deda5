//! Tests of sessions over one server in threads side by side, by public calls only: outlets, and
//! many that come and go.
#![tactic(auto)]

#[cfg(test)]
mod crowd;
#[cfg(test)]
mod outlets;
#[cfg(test)]
mod scene;
#[cfg(test)]
mod sockets;
