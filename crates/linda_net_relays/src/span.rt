//! For how long something is so at a connection. What counts is between two looks that both found
//! it so, and nothing ended it between them: so it is never more than what went by.

ghost use Rattle.std.specs.Prelude.{◌≡◌, None};
ghost use Rattle.linda_net_relays.specs.Spans.{is_over, since};

/// A second, in nanoseconds.
const SECOND: u64 = 1_000_000_000;

/// When a loop looks at its connections, in nanoseconds of its time.
#[derive(Clone, Copy)]
pub struct Look {
    /// What was sent before this moment is read by now.
    pub began: u64,
    /// The moment of the look.
    pub now: u64,
}

/// Since which moment something is so, if a loop saw that.
#[derive(Clone, Copy)]
pub struct Span {
    since: Option<u64>,
}

impl Span {
    /// It was not seen.
    pub fn new() -> Span
        ensures { result.since ≡ None }
    {
        Span { since: None }
    }

    /// It is not so.
    pub fn end(&mut self)
        ensures { self.new.since ≡ None }
    {
        self.since = None;
    }

    /// A loop sees that it is so. Returns whether it was for so many seconds.
    pub fn grow(&mut self, look: Look, seconds: u32) -> bool
        ensures over { result ≡ is_over seconds look.began self.old.since }
        ensures since { self.new.since ≡ since look.now self.old.since }
    {
        match self.since {
            Some(since) => look.began.saturating_sub(since) >= u64::from(seconds) * SECOND,
            None => {
                self.since = Some(look.now);
                false
            }
        }
    }
}
