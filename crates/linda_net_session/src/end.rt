//! Ends of sessions: whether one goes on, and how it ends.

ghost use Rattle.std.specs.Prelude.{◌≡◌};
ghost use Rattle.linda_net_session.specs.Session.{is_open, is_closed, ended_by, shut_by, rested};

use linda_wire::Refusal;

/// Whether a session goes on.
#[derive(Clone, Copy, Debug, PartialEq, Eq)]
pub enum SessionEnd {
    /// It goes on.
    Never,
    /// No more bytes come. What came is taken to its end.
    Shut,
    /// Nothing more is taken from it. Once all is answered, this word is queued, if there is one.
    Ending(Option<Refusal>),
    /// This word was queued last, if there was one, and nothing more is queued.
    Told(Option<Refusal>),
    /// It can be neither read nor written.
    Broken,
}

impl SessionEnd {
    /// Whether something may still be taken.
    pub fn is_open(self) -> bool
        ensures { result ≡ is_open self }
    {
        match self {
            SessionEnd::Never => true,
            SessionEnd::Shut => true,
            SessionEnd::Ending(_) => false,
            SessionEnd::Told(_) => false,
            SessionEnd::Broken => false,
        }
    }

    /// Whether nothing more is queued.
    pub fn is_closed(self) -> bool
        ensures { result ≡ is_closed self }
    {
        match self {
            SessionEnd::Never => false,
            SessionEnd::Shut => false,
            SessionEnd::Ending(_) => false,
            SessionEnd::Told(_) => true,
            SessionEnd::Broken => true,
        }
    }

    /// Nothing more is taken, and this word is queued last, unless there is another one.
    pub(crate) fn ended_by(self, word: Option<Refusal>) -> SessionEnd
        ensures { result ≡ ended_by word self }
    {
        match self {
            SessionEnd::Never => SessionEnd::Ending(word),
            SessionEnd::Shut => SessionEnd::Ending(word),
            SessionEnd::Ending(None) => SessionEnd::Ending(word),
            SessionEnd::Ending(Some(_)) => self,
            SessionEnd::Told(_) => self,
            SessionEnd::Broken => self,
        }
    }

    /// No more bytes come.
    pub(crate) fn shut(self) -> SessionEnd
        ensures { result ≡ shut_by self }
    {
        match self {
            SessionEnd::Never => SessionEnd::Shut,
            SessionEnd::Shut => self,
            SessionEnd::Ending(_) => self,
            SessionEnd::Told(_) => self,
            SessionEnd::Broken => self,
        }
    }

    /// No whole message is left: if no more bytes come, it ends.
    pub(crate) fn rested(self) -> SessionEnd
        ensures { result ≡ rested self }
    {
        match self {
            SessionEnd::Never => self,
            SessionEnd::Shut => SessionEnd::Ending(None),
            SessionEnd::Ending(_) => self,
            SessionEnd::Told(_) => self,
            SessionEnd::Broken => self,
        }
    }
}
