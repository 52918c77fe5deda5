//! The replies to a Hello, and to a numbered message that makes no deed.

ghost use Rattle.std.specs.Prelude.{◌≡◌, IfOk};
ghost use Rattle.std.specs.Option.{option_map};
ghost use Rattle.std.specs.FinMap as map;
ghost use Rattle.linda_book.specs.Entries.{Entry};
ghost use Rattle.linda_store_step.specs.Answer as spec;
ghost use Rattle.linda_store_step.specs.Answer.{reply_of_kept, reply_to_numbered};

use crate::judge::{Demand, Standing, Verdict, demand_of, has_no_place, judge};
use crate::kept;
use linda_bag::Bag;
use linda_store_state::State;
use linda_wire::{Message, Refusal, Reply, VERSION};
use std::alloc::{AllocError, Global};

/// The reply to a Hello.
pub(crate) fn greeting<B: Bag>(state: &State<B>, client: u32, version: u8, fresh: bool) -> Reply
    ensures { result ≡ spec.greeting state.now client version fresh }
{
    let last = state.book.last(client);
    if version != VERSION {
        Refusal::Version.reply()
    } else if fresh && last > 0 {
        Refusal::Known(last).reply()
    } else if has_no_place(Standing::of(state, client)) {
        Refusal::TooManyClients.reply()
    } else {
        Reply::Welcome { last }
    }
}

/// The reply to a numbered message that makes no deed; `None` if the message bears no number, or if
/// its deed is to be done.
pub(crate) fn to_numbered<B: Bag>(
    state: &State<B>,
    alloc: Global,
    client: u32,
    message: &Message,
) -> Result<Option<Reply>, AllocError>
    ensures { IfOk result (λ r. r ≡ reply_to_numbered state.now client message.now) }
{
    match demand_of(message) {
        Some(demand) => without_deed(state, alloc, client, demand),
        None => Ok(None),
    }
}

// The reply to a numbered message that makes no deed; `None` if its deed is to be done.
fn without_deed<B: Bag>(
    state: &State<B>,
    alloc: Global,
    client: u32,
    demand: Demand,
) -> Result<Option<Reply>, AllocError>
    ensures { IfOk result (λ r. r ≡ spec.without_deed state.now client demand) }
{
    match judge(demand, Standing::of(state, client)) {
        Verdict::Refused(refusal) => Ok(Some(refusal.reply())),
        Verdict::Repeated => kept_reply(state, alloc, client, demand.n),
        Verdict::Done => Ok(None),
    }
}

// The reply that is kept for the client, as it goes out for its message `n`.
fn kept_reply<B: Bag>(
    state: &State<B>,
    alloc: Global,
    client: u32,
    n: u64,
) -> Result<Option<Reply>, AllocError>
    ensures { IfOk result (λ r.
        r ≡ option_map (λ (e : Entry). reply_of_kept n e.1) (map.get state.now.book client)) }
{
    match state.book.kept(client) {
        Some((_, kept)) => Ok(Some(kept::to_reply(kept, alloc, n)?)),
        None => Ok(None),
    }
}
