//! Counts of a log, from one minute to the next.

ghost use Rattle.std.specs.Prelude.{◌≡◌};
ghost use Rattle.linda_serve.specs.Minutes.{counted, more_counted, none_counted};

use linda_net::{CounterValues, RefusalValues};

/// Deeds, puts and takes that were refused since the bank is full, connections that were not
/// served, clients that were refused, and connections of clients that were late.
#[derive(Clone, Copy)]
pub(super) struct Counted {
    pub(super) deeds: u64,
    pub(super) refused: u64,
    pub(super) unserved: u64,
    pub(super) turned: RefusalValues,
    pub(super) late: u64,
}

impl Counted {
    /// Nothing yet.
    pub(super) fn none() -> Counted
        ensures { result ≡ none_counted }
    {
        Counted {
            deeds: 0,
            refused: 0,
            unserved: 0,
            turned: RefusalValues::none(),
            late: 0,
        }
    }

    // All until now.
    fn of(deeds: u64, tally: &CounterValues) -> Counted
        ensures { result ≡ counted deeds tally.now }
    {
        Counted {
            deeds,
            refused: tally.refused,
            unserved: tally.closed.saturating_add(tally.missed),
            turned: tally.turned,
            late: tally.late,
        }
    }

    // How much more there is than before.
    fn since(&self, before: &Counted) -> Counted
        ensures { result ≡ more_counted self.now before.now }
    {
        Counted {
            deeds: self.deeds.saturating_sub(before.deeds),
            refused: self.refused.saturating_sub(before.refused),
            unserved: self.unserved.saturating_sub(before.unserved),
            turned: self.turned.since(&before.turned),
            late: self.late.saturating_sub(before.late),
        }
    }

    /// A minute ends, until whose end so many deeds were done. Returns what came in it; all until
    /// now is kept for the next one.
    pub(super) fn end_minute(&mut self, deeds: u64, tally: &CounterValues) -> Counted
        ensures more { result ≡ more_counted (counted deeds tally.now) self.old }
        ensures kept { self.new ≡ counted deeds tally.now }
    {
        let now = Counted::of(deeds, tally);
        let more = now.since(self);
        *self = now;
        more
    }
}
