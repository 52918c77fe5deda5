//! Memory of the watching thread: what it reported already.

ghost use Rattle.std.specs.Prelude.{◌≡◌};
ghost use Rattle.linda_net_marks.specs.Counting.{no_tally};
ghost use Rattle.linda_net_watch.specs.Alerts.{no_trouble, came_since, first_untold, with_first};

use crate::alerts::Alerts;
use linda_net_marks::{CounterValues, Notice};

/// The troubles that were reported and are not over, and the counts when the last minute began.
#[derive(Clone, Copy)]
pub(crate) struct AlertState {
    since: CounterValues,
    told: Alerts,
}

impl AlertState {
    /// Nothing was reported yet.
    pub(crate) fn new() -> AlertState
        ensures { (result.since ≡ no_tally) × (result.told ≡ no_trouble) }
    {
        AlertState {
            since: CounterValues::none(),
            told: Alerts::none(),
        }
    }

    /// A trouble that began, which is reported then and not again.
    pub(crate) fn next(&mut self, tally: &CounterValues, is_down: bool) -> Option<Notice>
        ensures first { result ≡ first_untold (came_since tally.now self.old.since is_down)
            self.old.told }
        ensures told { self.new.told ≡ with_first self.old.told result }
        ensures since { self.new.since ≡ self.old.since }
    {
        let came = Alerts::since(tally, &self.since, is_down);
        match came.first_untold(&self.told) {
            Some(notice) => {
                self.told.tell(notice);
                Some(notice)
            }
            None => None,
        }
    }

    /// A minute ends: a trouble of which nothing came in it is over. That the server is down is
    /// never over.
    pub(crate) fn end_minute(&mut self, tally: &CounterValues)
        ensures told { self.new.told ≡ came_since tally.now self.old.since self.old.told.down }
        ensures since { self.new.since ≡ tally.now }
    {
        self.told = Alerts::since(tally, &self.since, self.told.down);
        self.since = *tally;
    }
}
