//! The troubles, which are reported when they begin.

ghost use Rattle.std.specs.Prelude.{◌≡◌};
ghost use Rattle.linda_net_watch.specs.Alerts.{no_trouble, came_since, notice_or, first_turned};
ghost use Rattle.linda_net_watch.specs.Alerts.{first_untold, with_told};

use linda_net_marks::{CounterValues, Notice, RefusalReason};

/// Troubles, each of which is there or not.
#[derive(Clone, Copy)]
pub(crate) struct Alerts {
    pub(crate) full: bool,
    pub(crate) closed: bool,
    pub(crate) missed: bool,
    pub(crate) down: bool,
    pub(crate) busy: bool,
    pub(crate) clients: bool,
    pub(crate) greeting: bool,
    pub(crate) malformed: bool,
}

impl Alerts {
    /// None of them.
    pub(crate) fn none() -> Alerts
        ensures { result ≡ no_trouble }
    {
        Alerts {
            full: false,
            closed: false,
            missed: false,
            down: false,
            busy: false,
            clients: false,
            greeting: false,
            malformed: false,
        }
    }

    /// Those of which something came since then, and whether the server is down.
    pub(crate) fn since(now: &CounterValues, before: &CounterValues, is_down: bool) -> Alerts
        ensures { result ≡ came_since now.now before.now is_down }
    {
        Alerts {
            full: now.refused > before.refused,
            closed: now.closed > before.closed,
            missed: now.missed > before.missed,
            down: is_down,
            busy: now.turned.busy > before.turned.busy,
            clients: now.turned.clients > before.turned.clients,
            greeting: now.turned.greetings > before.turned.greetings,
            malformed: now.turned.malformed > before.turned.malformed,
        }
    }

    /// The first of them that was not reported.
    pub(crate) fn first_untold(&self, told: &Alerts) -> Option<Notice>
        ensures { result ≡ first_untold self.now told.now }
    {
        let notice = self.first_turned(told);
        let notice = notice_or(self.down, told.down, Notice::Down, notice);
        let notice = notice_or(self.missed, told.missed, Notice::Missed, notice);
        let notice = notice_or(self.closed, told.closed, Notice::Closed, notice);
        notice_or(self.full, told.full, Notice::Full, notice)
    }

    // The first of those of clients that was not reported.
    fn first_turned(&self, told: &Alerts) -> Option<Notice>
        ensures { result ≡ first_turned self.now told.now }
    {
        let notice = notice_or(
            self.malformed,
            told.malformed,
            Notice::Turned(RefusalReason::Malformed),
            None,
        );
        let notice = notice_or(
            self.greeting,
            told.greeting,
            Notice::Turned(RefusalReason::Greeting),
            notice,
        );
        let notice = notice_or(
            self.clients,
            told.clients,
            Notice::Turned(RefusalReason::Clients),
            notice,
        );
        notice_or(
            self.busy,
            told.busy,
            Notice::Turned(RefusalReason::Busy),
            notice,
        )
    }

    /// This notice is reported.
    pub(crate) fn tell(&mut self, notice: Notice)
        ensures { self.new ≡ with_told self.old notice }
    {
        match notice {
            Notice::Minute => {}
            Notice::Snapshot(_) => {}
            Notice::NoSnapshot(_) => {}
            Notice::Full => self.full = true,
            Notice::Closed => self.closed = true,
            Notice::Missed => self.missed = true,
            Notice::Turned(RefusalReason::Busy) => self.busy = true,
            Notice::Turned(RefusalReason::Clients) => self.clients = true,
            Notice::Turned(RefusalReason::Greeting) => self.greeting = true,
            Notice::Turned(RefusalReason::Malformed) => self.malformed = true,
            Notice::Unwatched => {}
            Notice::NoThread => {}
            Notice::NoStatus => {}
            Notice::Down => self.down = true,
        }
    }
}

// The notice, if its trouble came and was not reported; else the other one.
fn notice_or(came: bool, told: bool, notice: Notice, other: Option<Notice>) -> Option<Notice>
    ensures { result ≡ notice_or came told notice other }
{
    match (came, told) {
        (true, false) => Some(notice),
        (true, true) => other,
        (false, _) => other,
    }
}
