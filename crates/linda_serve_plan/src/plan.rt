//! A `ServePlan`, with the places where a server listens.

/// What is served, where, and for how long.
#[derive(Debug, Drop)]
pub struct ServePlan {
    /// The port of this machine, or 0 for any that is free, if it listens on one.
    pub port: Option<u16>,
    /// The unix socket, if it listens on one.
    pub socket: Option<SocketFile>,
    /// The folder of the store.
    pub folder: String,
    /// After how many connections it ends, if it does.
    pub sessions: Option<u32>,
    /// For how many seconds a client may hold a tuple and say nothing, if that is limited.
    pub lease: Option<u32>,
    /// Whether it waits while another server has the folder open.
    pub waits: bool,
    /// Where the server gives its status over HTTP, if it does.
    pub status: Option<StatusPlace>,
    /// The texts for which it says there how many tuples have them for their tag.
    pub metrics: Vec<String>,
    /// The version of the program, which is said there.
    pub version: &'static str,
}

/// A unix socket on which a server listens: its path, and the mode of its file, which says who may
/// connect.
#[derive(Debug, Drop)]
pub struct SocketFile {
    /// Its path, which has one byte at least.
    pub path: String,
    /// The mode of its file: nine bits, as those of `chmod`.
    pub mode: u32,
}

/// Where a server gives its status over HTTP.
#[derive(Debug, Drop)]
pub enum StatusPlace {
    /// On this port of this machine, from 1.
    Port(u16),
    /// At a unix socket with this path, which has a slash, and which its owner may connect to.
    Path(String),
}
