//! Packets on their way between clients and servers.

use linda_wire::{Message, Reply};

/// What a packet carries.
#[derive(Debug, Drop)]
pub enum Body {
    /// From its client to its server.
    Message(Message),
    /// From its server to its client.
    Reply(Reply),
}

/// A packet between a client and a server. It is never removed: it is lost if it is never
/// delivered, and repeated if it is delivered again.
#[derive(Debug, Drop)]
pub struct Packet {
    /// The server, from 0, that sent it or that it goes to.
    pub server: u32,
    /// The client that sent it or that it goes to.
    pub client: u32,
    pub body: Body,
    /// Whether it was delivered, or was in hand if its server was stopped.
    pub delivered: bool,
}
