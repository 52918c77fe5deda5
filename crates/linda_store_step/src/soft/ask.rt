//! Requests for a tuple, as a server answers them.

ghost use Rattle.std.specs.Prelude.{◌≡◌, [], if◌then◌else◌, ℕ, nat_le, false, None, Option, IfOk};
ghost use Rattle.std.specs.Prelude.{OnOk};
ghost use Rattle.linda_bag.specs.SearchHints.{AreRight};
ghost use Rattle.linda_wire.specs.declared.limits.TheConstants.{MAX_ASKS};
ghost use Rattle.linda_hold.specs.Holds.{IsHeldAt};
ghost use Rattle.linda_hold.specs.Waits.{is_waiting};
ghost use Rattle.linda_store_step.specs.Soft.{open_asks};
ghost use Rattle.linda_store_step.specs.Dispatch.{Sends};
ghost use Rattle.linda_store_step.specs.Looking.{IsLeast, is_held, passed_over};
ghost use Rattle.linda_store_step.specs.Asking.{AnswersAsk, offer_of, read_of, serve};

use super::Soft;
use crate::step::one_send;
use linda_bag::{Bag, SearchHints};
use linda_hold::{Asked, Request};
use linda_tuple::Template;
use linda_wire::{MAX_ASKS, Refusal, Reply};
use std::alloc::{AllocError, Global};
use std::collections::BTreeSet;

impl Soft {
    /// The request asks for a tuple that the template matches, to take it away or to copy it. One
    /// for which a tuple is held is offered that again, one that waits is sent nothing, and one of
    /// a client with 64 open asks is refused; nothing changes then. Else the least tuple that it
    /// can have is offered to an input, which holds it, or answers a read; if there is none, the
    /// request waits. What is sent, each reply to a client, in order: it is put into `room`, which
    /// has none yet.
    ///
    /// # Errors
    ///
    /// `AllocError` if memory runs out.
    pub(crate) fn ask<B: Bag>(
        &mut self,
        alloc: Global,
        bag: &B,
        hints: &mut SearchHints,
        next: u64,
        request: Request,
        remove: bool,
        template: &Template,
        room: Vec<(u32, Reply)>,
    ) -> Result<Vec<(u32, Reply)>, AllocError>
        requires room { room.items ≡ [] }
        requires right { AreRight (B.contents bag.now) (is_held self.old.holds) next hints.old }
        ensures sends { IfOk result (λ sends.
            AnswersAsk (B.contents bag.now) request remove template.now
            self.old (record { sends = sends.items; soft = self.new })) }
        ensures right { OnOk result (AreRight (B.contents bag.now) (is_held self.new.holds)
            next hints.new) }
    {
        if let Some(id) = self.holds.find(request) {
            with_tuple(alloc, bag, id, request, true, room)
        } else if self.waits.contains(request) {
            Ok(room)
        } else if self.asks_too_much(request.client) {
            one_send(
                room,
                request.client,
                Refusal::TooManyAsks(request.ticket).reply(),
            )
        } else {
            self.serve(alloc, bag, hints, next, request, remove, template, room)
        }
    }

    // Whether the client has as many open asks as it may have.
    fn asks_too_much(&self, client: u32) -> bool
        ensures { result ≡ nat_le MAX_ASKS (open_asks client self.now) }
    {
        let waiting = self.waits.count_of(client);
        let held = self.holds.count_of(client);
        waiting.saturating_add(held) >= MAX_ASKS
    }

    // Serves a new request: by the least tuple that it can have, or it waits.
    fn serve<B: Bag>(
        &mut self,
        alloc: Global,
        bag: &B,
        hints: &mut SearchHints,
        next: u64,
        request: Request,
        remove: bool,
        template: &Template,
        room: Vec<(u32, Reply)>,
    ) -> Result<Vec<(u32, Reply)>, AllocError>
        requires room { room.items ≡ [] }
        requires right { AreRight (B.contents bag.now) (is_held self.old.holds) next hints.old }
        requires held { IsHeldAt self.old.holds request None }
        requires waiting { is_waiting request self.old.waits ≡ false }
        ensures sends { IfOk result (λ sends. (least : Option ℕ)
            × IsLeast (B.contents bag.now) template.now (passed_over remove self.old.holds) least
            × (let t : Sends = record { sends = sends.items; soft = self.new }
            in t ≡ serve (B.contents bag.now) request remove template.now least self.old)) }
        ensures right { OnOk result (AreRight (B.contents bag.now) (is_held self.new.holds)
            next hints.new) }
    {
        match self.least_match(alloc, bag, hints, next, remove, template) {
            Some(id) if remove => {
                let sends = with_tuple(alloc, bag, id, request, true, room)?;
                self.holds.insert(id, request)?;
                hints.hold(id, template);
                Ok(sends)
            }
            Some(id) => with_tuple(alloc, bag, id, request, false, room),
            None => {
                let template = template.try_clone(alloc)?;
                self.waits.add(request, Asked { remove, template })?;
                Ok(room)
            }
        }
    }

    // The least id of a tuple that a request can have: an input passes over what is held.
    fn least_match<B: Bag>(
        &self,
        alloc: Global,
        bag: &B,
        hints: &mut SearchHints,
        next: u64,
        remove: bool,
        template: &Template,
    ) -> Option<u64>
        requires { AreRight (B.contents bag.now) (is_held self.now.holds) next hints.old }
        ensures least { IsLeast (B.contents bag.now) template.now
            (passed_over remove self.now.holds) result }
        ensures right { AreRight (B.contents bag.now) (is_held self.now.holds) next hints.new }
    {
        if remove {
            hints.least_match(alloc, bag, template, &self.holds, next)
        } else {
            hints.read_match(alloc, bag, template, &BTreeSet::new(alloc), next)
        }
    }
}

// The tuple under the id, if the bag has it: offered for a request that takes it away, or else the
// answer to a read. It is put into `room`, which has none yet.
fn with_tuple<B: Bag>(
    alloc: Global,
    bag: &B,
    id: u64,
    request: Request,
    remove: bool,
    room: Vec<(u32, Reply)>,
) -> Result<Vec<(u32, Reply)>, AllocError>
    requires { room.items ≡ [] }
    ensures { IfOk result (λ sends. sends.items
        ≡ (if remove then offer_of (B.contents bag.now) id request
        else read_of (B.contents bag.now) id request)) }
{
    let Request { client, ticket } = request;
    let Some(tuple) = bag.get(id) else {
        return Ok(room);
    };
    let tuple = tuple.try_clone(alloc)?;
    if remove {
        one_send(room, client, Reply::Offer { ticket, id, tuple })
    } else {
        one_send(room, client, Reply::Read { ticket, id, tuple })
    }
}
