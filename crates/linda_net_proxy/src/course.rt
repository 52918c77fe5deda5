//! Course of a link: which Hello it sends, and what follows if a greeting fails.

ghost use Rattle.std.specs.Prelude.{◌≡◌};
ghost use Rattle.linda_net_proxy.specs.GreetingCourse as spec;

use crate::fault::ProxyFault;
use crate::server_events::ServerEvent;
use linda_wire::{Message, Refusal, Reply, VERSION};

/// How often a server is greeted whose connection was lost, a millisecond apart. A refusal Busy is
/// a try too: the server may not have seen yet that the old connection ended.
pub const MAX_TRIES: u32 = 10_000;

/// How often a server is greeted first for a client that was used before, a millisecond apart,
/// while it says that the client has another connection.
pub const FIRST_TRIES: u32 = 2_000;

/// What follows of a greeting that failed.
#[derive(Clone, Copy, Debug, PartialEq, Eq)]
pub(crate) enum RetryDecision {
    /// It is made again.
    Again,
    /// There is no connection. The server is greeted again once that is asked for.
    Later,
    /// The server is given up.
    Over,
}

/// What counts of the greetings so far.
#[derive(Clone, Copy, Debug, PartialEq, Eq)]
pub(crate) struct GreetingCourse {
    // The client was never used before.
    fresh: bool,
    // A Hello may have reached the server.
    is_met: bool,
    // So many greetings are made yet, if all of them fail.
    left: u32,
}

impl GreetingCourse {
    /// No greeting yet, of a client that was never used before, or of one that goes on.
    pub(crate) fn new(fresh: bool) -> GreetingCourse
        ensures { result ≡ spec.begun fresh }
    {
        GreetingCourse {
            fresh,
            is_met: false,
            left: FIRST_TRIES,
        }
    }

    /// Whether the next Hello says that the client was never used.
    pub(crate) fn says_fresh(&self) -> bool
        ensures { result ≡ spec.says_fresh self.now }
    {
        self.fresh && !self.is_met
    }

    /// The server has welcomed the client.
    pub(crate) fn welcome(&mut self)
        ensures { self.new ≡ spec.met self.old }
    {
        self.is_met = true;
        self.left = MAX_TRIES;
    }

    /// A greeting has failed so. What follows.
    pub(crate) fn fail(&mut self, fault: ProxyFault) -> RetryDecision
        ensures { (result, self.new) ≡ spec.after self.old fault }
    {
        if fault == ProxyFault::Lost && !self.is_met {
            self.welcome();
            return RetryDecision::Again;
        }
        if !self.may_try_again(fault) {
            return RetryDecision::Over;
        }
        self.count()
    }

    // Whether a greeting that failed so may be made again.
    fn may_try_again(&self, fault: ProxyFault) -> bool
        ensures { result ≡ spec.is_again self.now fault }
    {
        match fault {
            ProxyFault::Unreachable => self.is_met,
            ProxyFault::Lost => true,
            ProxyFault::Refused(code, _) => {
                code == Refusal::Busy.code() && (self.is_met || !self.fresh)
            }
            ProxyFault::NotAServer => false,
            ProxyFault::Memory => false,
        }
    }

    // One more greeting has failed. What follows.
    fn count(&mut self) -> RetryDecision
        ensures { (result, self.new) ≡ spec.failed self.old }
    {
        if self.left > 1 {
            self.left -= 1;
            return RetryDecision::Again;
        }
        if self.is_met {
            self.left = MAX_TRIES;
            return RetryDecision::Later;
        }
        RetryDecision::Over
    }
}

/// The Hello of a client, in the version that is spoken here.
pub(crate) fn hello_of(client: u32, fresh: bool) -> Message
    ensures { result ≡ spec.hello_of client fresh }
{
    Message::Hello {
        version: VERSION,
        client,
        fresh,
    }
}

/// What the answer to a Hello says: the last number that the server keeps, or why it does not go
/// on. What gives another reply is no server.
pub(crate) fn welcome_in(reply: &Reply) -> Result<u64, ProxyFault>
    ensures { result ≡ spec.welcome_in reply.now }
{
    match reply {
        Reply::Welcome { last } => Ok(*last),
        Reply::Refused { code, detail } => Err(ProxyFault::Refused(*code, *detail)),
        _ => Err(ProxyFault::NotAServer),
    }
}

/// What is brought of a server that is given up for this fault.
pub(crate) fn arrival_of(fault: ProxyFault) -> ServerEvent
    ensures { result ≡ spec.arrival_of fault }
{
    match fault {
        ProxyFault::Refused(code, detail) => ServerEvent::Refused(code, detail),
        ProxyFault::NotAServer => ServerEvent::NotAServer,
        ProxyFault::Memory => ServerEvent::Memory,
        ProxyFault::Unreachable | ProxyFault::Lost => ServerEvent::NoConnection,
    }
}
