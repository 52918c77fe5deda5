//! The messages that do a deed: an Out puts its tuple, an Accept takes one that is held, or finds
//! it gone, and a Leave gives up the client's number with all that it asked.
//!
//! All that may fail comes before the first change of the state.

ghost use Rattle.std.specs.Prelude.{◌≡◌, ◌∷◌, [], Some, None, ℕ, IfOk, OnOk, OnErr, option_to_list};
ghost use Rattle.linda_wire.specs.declared.reply.Reply.TheVariants as replies;
ghost use Rattle.linda_hold.specs.Request.{request_of};
ghost use Rattle.linda_store_state.specs.declared.deed.Deed.TheVariants as deeds;
ghost use Rattle.linda_store_state.specs.State.{IsState};
ghost use Rattle.linda_store_state.specs.After.{IsAfter};
ghost use Rattle.linda_store_state.specs.Proper.{IsAllowed};
ghost use Rattle.linda_store_step.specs.Soft.{AreApart};
ghost use Rattle.linda_bag.specs.SearchHints.{AreRight};
ghost use Rattle.linda_store_step.specs.Looking.{is_held};
ghost use Rattle.linda_store_step.specs.Answer as spec;
ghost use Rattle.linda_store_step.specs.Answer.{on_out, on_leave, held_tuple, take_or_pass};

use super::{Step, one_send};
use crate::soft::Soft;
use linda_bag::{Bag, SearchHints};
use linda_hold::Request;
use linda_store_state::{Deed, State};
use linda_tuple::Tuple;
use linda_wire::Reply;
use std::alloc::{AllocError, Global};

/// Puts the tuple under the next id, and answers those that wait for it. Here and below the replies
/// are put into `room`, which has none yet.
///
/// # Errors
///
/// `AllocError` if memory runs out, and then the state is as before.
pub(crate) fn put<B: Bag>(
    state: &mut State<B>,
    soft: &mut Soft,
    alloc: Global,
    client: u32,
    n: u64,
    tuple: &Tuple,
    room: Vec<(u32, Reply)>,
) -> Result<Step, AllocError>
    requires state { IsState state.old }
    requires room { room.items ≡ [] }
    requires allowed { IsAllowed state.old (deeds.Out client n tuple.now) }
    requires apart { AreApart soft.old }
    ensures answer { IfOk result (λ s.
        record { deed = s.deed; sends = s.sends.items; soft = soft.new }
        ≡ on_out state.old client n tuple.now None soft.old) }
    ensures after { OnOk result (IsAfter state.old (deeds.Out client n tuple.now ∷ []) state.new) }
    ensures err { OnErr result (state.new ≡ state.old) }
{
    let id = state.next;
    let mut sends = one_send(room, client, Reply::Stored { n, id })?;
    soft.dispatch(alloc, id, tuple, &mut sends)?;
    let noted = tuple.try_clone(alloc)?;
    let stored = tuple.try_clone(alloc)?;
    state.put(client, n, stored)?;
    Ok(Step {
        deed: Some(Deed::Out {
            client,
            n,
            tuple: noted,
        }),
        sends,
    })
}

/// Takes the tuple that the client accepts, if it is held for the client's request; else the offer
/// is gone.
///
/// # Errors
///
/// `AllocError` if memory runs out, and then the state is as before.
pub(crate) fn accept<B: Bag>(
    state: &mut State<B>,
    soft: &mut Soft,
    alloc: Global,
    client: u32,
    n: u64,
    ticket: u64,
    id: u64,
    room: Vec<(u32, Reply)>,
) -> Result<Step, AllocError>
    requires state { IsState state.old }
    requires room { room.items ≡ [] }
    ensures answer { IfOk result (λ s.
        record { deed = s.deed; sends = s.sends.items; soft = soft.new }
        ≡ take_or_pass client n id (held_tuple state.old (request_of client ticket) id soft.old)
        soft.old) }
    ensures after { IfOk result (λ s. IsAfter state.old (option_to_list s.deed) state.new) }
    ensures err { OnErr result (state.new ≡ state.old) }
{
    if !is_for(Request { client, ticket }, soft.holds.get(id)) {
        return pass(state, alloc, client, n, id, room);
    }
    let mut sends = room;
    sends.reserve(1)?;
    match state.take(alloc, client, n, id)? {
        Some(tuple) => {
            soft.holds.remove(id);
            sends.push_reserved((client, Reply::Taken { n, id, tuple }));
            Ok(Step {
                deed: Some(Deed::Take { client, n, id }),
                sends,
            })
        }
        None => pass(state, alloc, client, n, id, sends),
    }
}

// The offer is gone, and the book keeps that it is.
fn pass<B: Bag>(
    state: &mut State<B>,
    alloc: Global,
    client: u32,
    n: u64,
    id: u64,
    room: Vec<(u32, Reply)>,
) -> Result<Step, AllocError>
    requires state { IsState state.old }
    requires room { room.items ≡ [] }
    ensures deed { IfOk result (λ s. s.deed ≡ Some (deeds.Pass client n id)) }
    ensures sends { IfOk result (λ s. s.sends.items ≡ (client, replies.Gone n) ∷ []) }
    ensures after { OnOk result (IsAfter state.old (deeds.Pass client n id ∷ []) state.new) }
    ensures err { OnErr result (state.new ≡ state.old) }
{
    let sends = one_send(room, client, Reply::Gone { n })?;
    state.pass(client, n)?;
    Ok(Step {
        deed: Some(Deed::Pass { client, n, id }),
        sends,
    })
}

/// Gives up the client's number for good: what it asked is given up, and the book keeps that it
/// left.
///
/// # Errors
///
/// `AllocError` if memory runs out, and then the state is as before.
pub(crate) fn leave<B: Bag>(
    state: &mut State<B>,
    soft: &mut Soft,
    hints: &mut SearchHints,
    alloc: Global,
    client: u32,
    n: u64,
    room: Vec<(u32, Reply)>,
) -> Result<Step, AllocError>
    requires state { IsState state.old }
    requires room { room.items ≡ [] }
    requires apart { AreApart soft.old }
    ensures answer { IfOk result (λ s.
        record { deed = s.deed; sends = s.sends.items; soft = soft.new }
        ≡ on_leave state.old client n None soft.old) }
    ensures after { OnOk result (IsAfter state.old (deeds.Leave client n ∷ []) state.new) }
    ensures right { (next : ℕ) → AreRight state.old.bag (is_held soft.old.holds) next hints.old
        → OnOk result (AreRight state.old.bag (is_held soft.new.holds) next hints.new) }
    ensures err { OnErr result (state.new ≡ state.old) }
{
    let mut sends = one_send(room, client, Reply::Left { n })?;
    let mut freed = soft.close(alloc, &state.bag, hints, client)?;
    sends.append(&mut freed)?;
    state.leave(client, n)?;
    Ok(Step {
        deed: Some(Deed::Leave { client, n }),
        sends,
    })
}

// Whether this is the request that a tuple is held for.
fn is_for(request: Request, held_for: Option<Request>) -> bool
    ensures { result ≡ spec.is_for request held_for }
{
    match held_for {
        Some(other) => other == request,
        None => false,
    }
}
