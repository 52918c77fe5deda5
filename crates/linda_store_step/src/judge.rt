//! Verdicts on numbered messages, which follow from numbers only, and from whether the client left.

ghost use Rattle.std.specs.Prelude.{◌≡◌};
ghost use Rattle.linda_store_step.specs.Answer.{standing_of};
ghost use Rattle.linda_store_step.specs.Judge as spec;

use linda_bag::Bag;
use linda_book::{Class, class_of};
use linda_store_state::{NUMBER_LIMIT, State};
use linda_wire::{MAX_CLIENTS, Message, Refusal};

/// What a numbered message is for.
#[derive(Clone, Copy)]
pub(crate) enum What {
    /// To put a tuple.
    Put,
    /// To take a tuple.
    Take,
    /// To give the client's number up.
    Leave,
}

/// What a numbered message asks for.
#[derive(Clone, Copy)]
pub(crate) struct Demand {
    /// The number of the message.
    pub(crate) n: u64,
    /// What it is for.
    pub(crate) what: What,
}

impl Demand {
    /// Whether it puts a tuple.
    pub(crate) fn puts(self) -> bool
        ensures { result ≡ spec.puts self.what }
    {
        matches!(self.what, What::Put)
    }

    /// Whether it gives the client's number up.
    pub(crate) fn leaves(self) -> bool
        ensures { result ≡ spec.leaves self.what }
    {
        matches!(self.what, What::Leave)
    }
}

/// What a verdict depends on, beside the number of the message.
#[derive(Clone, Copy)]
pub(crate) struct Standing {
    /// The last number that is kept for the client, 0 if there is none.
    pub(crate) last: u64,
    /// Whether the client left by it.
    pub(crate) left: bool,
    /// How many clients are kept.
    pub(crate) clients: usize,
    /// The next id.
    pub(crate) next: u64,
}

impl Standing {
    /// The standing of the client in this state.
    pub(crate) fn of<B: Bag>(state: &State<B>, client: u32) -> Standing
        ensures { result ≡ standing_of state.now client }
    {
        let (last, left) = state.book.standing(client);
        Standing {
            last,
            left,
            clients: state.book.len(),
            next: state.next,
        }
    }
}

/// What is done about a numbered message.
#[derive(Clone, Copy)]
pub(crate) enum Verdict {
    /// Nothing is done, and the reply gives the reason.
    Refused(Refusal),
    /// It is the last message come again: the client gets the kept reply.
    Repeated,
    /// Its deed is done.
    Done,
}

/// What the message asks for, if it bears a number.
pub(crate) fn demand_of(message: &Message) -> Option<Demand>
    ensures { result ≡ spec.demand_of message.now }
{
    match message {
        Message::Out { n, .. } => Some(Demand {
            n: *n,
            what: What::Put,
        }),
        Message::Accept { n, .. } => Some(Demand {
            n: *n,
            what: What::Take,
        }),
        Message::Leave { n } => Some(Demand {
            n: *n,
            what: What::Leave,
        }),
        Message::Hello { .. } | Message::Ask { .. } | Message::Cancel { .. } => None,
    }
}

/// The verdict on a numbered message: the first case that holds.
pub(crate) fn judge(demand: Demand, at: Standing) -> Verdict
    ensures { result ≡ spec.judge demand at }
{
    match class_of(at.last, at.left, demand.n) {
        Class::Old(last) => Verdict::Refused(Refusal::Old(last)),
        Class::Kept => Verdict::Repeated,
        Class::Left(last) => Verdict::Refused(Refusal::Left(last)),
        Class::Gap(last) => Verdict::Refused(Refusal::Gap(last)),
        Class::Fresh => judge_fresh(demand, at),
    }
}

// The verdict if the number is the client's next.
fn judge_fresh(demand: Demand, at: Standing) -> Verdict
    ensures { result ≡ spec.judge_fresh demand at }
{
    if has_no_place(at) {
        Verdict::Refused(Refusal::TooManyClients)
    } else if is_spent_for(demand, at) {
        Verdict::Refused(Refusal::Spent)
    } else {
        Verdict::Done
    }
}

/// Whether the client is new and no more clients are kept.
pub(crate) fn has_no_place(at: Standing) -> bool
    ensures { result ≡ spec.has_no_place at }
{
    at.last == 0 && at.clients >= MAX_CLIENTS
}

// Whether numbers are spent for it, or ids, which an Out needs too.
fn is_spent_for(demand: Demand, at: Standing) -> bool
    ensures { result ≡ spec.is_spent_for demand at }
{
    demand.n == NUMBER_LIMIT || demand.puts() && at.next == NUMBER_LIMIT
}
