//! Gauge of a server that sessions share: its numbers at one moment.

/// What a server that sessions share comes to at one moment, in numbers.
#[derive(Clone, Copy, Debug, PartialEq, Eq)]
pub struct Gauge {
    /// How many tuples it keeps.
    pub tuples: usize,
    /// How many of them are held for a client.
    pub holds: usize,
    /// For how many seconds the tuple is held that is held for longest; 0 if none is, or if that is
    /// not known.
    pub oldest_hold: u64,
    /// How many asks wait for a tuple.
    pub waits: usize,
    /// For how many seconds the ask waits that waits for longest; 0 if none does, or that is not
    /// known.
    pub oldest_wait: u64,
    /// For how many clients it keeps a reply.
    pub clients: usize,
    /// The id that the next tuple gets.
    pub next: u64,
    /// How many deeds were done since it was shared.
    pub deeds: u64,
    /// How many records the bank in use has: those since the last snapshot.
    pub records: usize,
    /// How many bytes of that bank are taken.
    pub used: usize,
    /// The most bytes that a bank may take.
    pub limit: usize,
    /// Whether the server is down.
    pub is_down: bool,
}
