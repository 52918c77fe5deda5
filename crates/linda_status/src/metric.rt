//! The numbers of a server.

ghost use Rattle.std.specs.Prelude.{◌≡◌, ◌-◌};
ghost use Rattle.linda_status.specs.Status.{value_of};

use linda_net_marks::CounterValues;
use linda_shared::Gauge;

/// A number of a server.
#[derive(Clone, Copy)]
pub(crate) enum MetricId {
    /// Whether the server is up.
    Up,
    Tuples,
    Waits,
    /// Seconds.
    OldestWait,
    Holds,
    /// Seconds.
    OldestHold,
    Clients,
    /// Clients that are away and took a tuple by their last message.
    TakenByAbsent,
    Connections,
    /// How many connections came.
    Came,
    Deeds,
    Used,
    Limit,
    Records,
    Next,
    Full,
    Busy,
    TooMany,
    Greetings,
    Malformed,
    Unserved,
    Late,
    Groups,
    Messages,
    /// Microseconds.
    Took,
}

impl MetricId {
    /// Whether it is a time, in microseconds, which is written in seconds.
    pub(crate) fn is_time(self) -> bool {
        matches!(self, MetricId::Took)
    }

    /// What it comes to; `absent` clients are away and took a tuple by their last message.
    pub(crate) fn value(self, gauge: &Gauge, tally: &CounterValues, absent: u64) -> u64
        ensures { result ≡ value_of self gauge.now tally.now absent }
    {
        match self {
            MetricId::Up => u64::from(!gauge.is_down),
            MetricId::Tuples => gauge.tuples as u64,
            MetricId::Waits => gauge.waits as u64,
            MetricId::OldestWait => gauge.oldest_wait,
            MetricId::Holds => gauge.holds as u64,
            MetricId::OldestHold => gauge.oldest_hold,
            MetricId::Clients => gauge.clients as u64,
            MetricId::TakenByAbsent => absent,
            MetricId::Connections => connected(tally),
            MetricId::Came => tally.came,
            MetricId::Deeds => gauge.deeds,
            MetricId::Used => gauge.used as u64,
            MetricId::Limit => gauge.limit as u64,
            MetricId::Records => gauge.records as u64,
            MetricId::Next => gauge.next,
            MetricId::Full => tally.refused,
            MetricId::Busy => tally.turned.busy,
            MetricId::TooMany => tally.turned.clients,
            MetricId::Greetings => tally.turned.greetings,
            MetricId::Malformed => tally.turned.malformed,
            MetricId::Unserved => tally.closed.saturating_add(tally.missed),
            MetricId::Late => tally.late,
            MetricId::Groups => tally.groups,
            MetricId::Messages => tally.messages,
            MetricId::Took => tally.took,
        }
    }
}

/// How many connections there are.
pub fn connected(tally: &CounterValues) -> u64
    ensures { result ≡ tally.now.came - tally.now.over }
{
    tally.came.saturating_sub(tally.over)
}
