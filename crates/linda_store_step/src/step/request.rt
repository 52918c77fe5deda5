//! The messages about a request, which do no deed: an Ask and a Cancel.

ghost use Rattle.std.specs.Prelude.{◌≡◌, [], IfOk, OnOk};
ghost use Rattle.linda_wire.specs.declared.message.Message.TheVariants as messages;
ghost use Rattle.linda_store_state.specs.State.{IsState};
ghost use Rattle.linda_bag.specs.SearchHints.{AreRight};
ghost use Rattle.linda_store_step.specs.Soft.{AreApart};
ghost use Rattle.linda_store_step.specs.Looking.{is_held};
ghost use Rattle.linda_store_step.specs.Answer.{IsStep};

use super::{Step, only_reply, only_sends};
use crate::soft::Soft;
use linda_bag::{Bag, SearchHints};
use linda_hold::Request;
use linda_store_state::State;
use linda_tuple::Template;
use linda_wire::{Refusal, Reply};
use std::alloc::{AllocError, Global};

/// Asks for a tuple that the template matches, unless the client left. Here and below the replies
/// are put into `room`, which has none yet.
///
/// # Errors
///
/// `AllocError` if memory runs out.
pub(crate) fn ask<B: Bag>(
    state: &State<B>,
    soft: &mut Soft,
    hints: &mut SearchHints,
    alloc: Global,
    client: u32,
    ticket: u64,
    remove: bool,
    template: &Template,
    room: Vec<(u32, Reply)>,
) -> Result<Step, AllocError>
    requires state { IsState state.now }
    requires room { room.items ≡ [] }
    requires right { AreRight state.now.bag (is_held soft.old.holds) state.now.next hints.old }
    ensures ok { IfOk result (λ s.
        IsStep state.now soft.old client (messages.Ask ticket remove template.now)
        (record { deed = s.deed; sends = s.sends.items; soft = soft.new }) state.now) }
    ensures right { OnOk result (AreRight state.now.bag (is_held soft.new.holds)
        state.now.next hints.new) }
{
    let (last, left) = state.book.standing(client);
    if left {
        return only_reply(room, client, Refusal::Left(last).reply());
    }
    let request = Request { client, ticket };
    Ok(only_sends(soft.ask(
        alloc, &state.bag, hints, state.next, request, remove, template, room,
    )?))
}

/// Gives the request up.
///
/// # Errors
///
/// `AllocError` if memory runs out.
pub(crate) fn cancel<B: Bag>(
    state: &State<B>,
    soft: &mut Soft,
    hints: &mut SearchHints,
    alloc: Global,
    client: u32,
    ticket: u64,
    room: Vec<(u32, Reply)>,
) -> Result<Step, AllocError>
    requires state { IsState state.now }
    requires room { room.items ≡ [] }
    requires apart { AreApart soft.old }
    requires right { AreRight state.now.bag (is_held soft.old.holds) state.now.next hints.old }
    ensures ok { IfOk result (λ s. IsStep state.now soft.old client (messages.Cancel ticket)
        (record { deed = s.deed; sends = s.sends.items; soft = soft.new }) state.now) }
    ensures right { OnOk result (AreRight state.now.bag (is_held soft.new.holds)
        state.now.next hints.new) }
{
    let request = Request { client, ticket };
    Ok(only_sends(soft.cancel(alloc, &state.bag, hints, request, room)?))
}
