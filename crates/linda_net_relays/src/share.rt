//! Shares of a turn: how many bytes and how much time a loop takes, before it looks at others. So
//! nobody waits long for those who send much, ask for much, or ask for what is long looked for.

ghost use Rattle.std.specs.Prelude.{◌≡◌, ◌+◌};
ghost use Rattle.linda_net_relays.specs.Share.{has_left, pace_after, weight_after};

/// How many bytes are read and answered in one turn, by about as many as one message more.
const MOST_BYTES: u64 = 1_048_576;

/// How many of them are those of one connection before others are looked at.
const MOST_OF_ONE: u64 = 131_072;

/// For how many microseconds Asks and Cancels are served in one turn, by one group more.
const MOST_MICROS: u64 = 5_000;

/// How many Asks and Cancels are served as one group at most.
pub const MOST_ASKS: usize = 16;

/// After so many groups, each faster than a millisecond, a group may have twice as many.
const MOST_CALM: u32 = 256;

/// A group that took so many microseconds or more is not fast.
const FAST: u64 = 1_000;

/// How many Asks and Cancels go as one group, and how many groups were fast since that changed.
#[derive(Clone, Copy)]
pub struct GroupPace {
    pub asks: usize,
    pub calm: u32,
}

/// What was taken in a turn.
#[derive(Clone, Copy)]
pub struct Share {
    // How many bytes were read.
    read: u64,
    // How many bytes those who sent something are answered with, by estimate.
    planned: u64,
    // How many bytes were answered.
    told: u64,
    // How many microseconds Asks and Cancels took.
    micros: u64,
    pace: GroupPace,
}

impl Share {
    /// Nothing was taken.
    pub fn new() -> Share {
        Share {
            read: 0,
            planned: 0,
            told: 0,
            micros: 0,
            pace: GroupPace {
                asks: MOST_ASKS,
                calm: 0,
            },
        }
    }

    /// A turn begins.
    pub fn begin_turn(&mut self) {
        self.read = 0;
        self.planned = 0;
        self.told = 0;
        self.micros = 0;
    }

    /// Whether more is taken in this turn.
    pub fn has_left(&self) -> bool {
        has_left(self.read, self.planned, self.told, self.micros)
    }

    /// How many Asks and Cancels are served as one group.
    pub fn asks(&self) -> usize {
        self.pace.asks
    }

    /// So many bytes were read.
    pub fn read(&mut self, bytes: u64) {
        self.read = self.read.saturating_add(bytes);
    }

    /// A message is answered with about so many bytes.
    pub fn plan(&mut self, bytes: u64) {
        self.planned = self.planned.saturating_add(bytes);
    }

    /// So many bytes were answered.
    pub fn tell(&mut self, bytes: u64) {
        self.told = self.told.saturating_add(bytes);
    }

    /// A group of Asks and Cancels took so many microseconds.
    pub fn end_asks(&mut self, micros: u64) {
        self.micros = self.micros.saturating_add(micros);
        self.pace = pace_after(self.pace, micros);
    }
}

// Whether more is taken in a turn in which so many bytes were read, are to be answered and were
// answered, and Asks took so long.
fn has_left(read: u64, planned: u64, told: u64, micros: u64) -> bool
    ensures { result ≡ has_left read planned told micros }
{
    read.saturating_add(planned.max(told)) < MOST_BYTES && micros < MOST_MICROS
}

// How many Asks and Cancels go as one group, after one that took so long.
fn pace_after(pace: GroupPace, micros: u64) -> GroupPace
    ensures { result ≡ pace_after pace micros }
{
    if micros >= MOST_MICROS {
        return GroupPace { asks: 1, calm: 0 };
    }
    if micros >= FAST {
        return GroupPace {
            asks: pace.asks,
            calm: 0,
        };
    }
    if pace.calm >= MOST_CALM {
        return GroupPace {
            asks: pace.asks.saturating_mul(2).min(MOST_ASKS),
            calm: 0,
        };
    }
    GroupPace {
        asks: pace.asks,
        calm: pace.calm + 1,
    }
}

/// What a message of a connection is answered with, by the bytes of its last replies: an estimate,
/// that falls by half with each smaller one.
pub fn weight_after(weight: u64, reply: u64) -> u64
    ensures { result ≡ weight_after weight reply }
{
    reply.max(weight / 2)
}

/// Whether a connection gave so many bytes, and is to be answered with so many, that others are
/// looked at first.
pub fn is_much(bytes: u64) -> bool {
    bytes >= MOST_OF_ONE
}
