//! The tuples of a state, a piece of a page at a time.

ghost use Rattle.std.specs.Prelude.{◌≡◌, ◌<◌, ◌+◌, ◌++◌, ◌∷◌, [], ℕ, IfOk, OnOk, All};
ghost use Rattle.std.specs.Prelude.{map, true};
ghost use Rattle.std.specs.FinMap as maps;
ghost use Rattle.std.specs.Option.{is_some};
ghost use Rattle.linda_wire.specs.declared.limits.TheConstants.{NUMBER_LIMIT};
ghost use Rattle.linda_store_state.specs.State.{IsState};
ghost use Rattle.linda_shared_listing.specs.Listing.{is_wanted, IsPage, IsRow};
ghost use Rattle.linda_shared_listing.specs.Shapes.{is_found, shapes_in};

use crate::found::next_found;
use crate::limits::{BYTES_AT_ONCE, MOST_AT_ONCE};
use crate::listed::{ListedTuple, TuplePage, TupleQuery};
use crate::shapes::shapes_for;
use linda_bag::{Bag, IndexBag};
use linda_codec::tuple_len;
use linda_hold::Holds;
use linda_store_state::State;
use linda_tuple::{Form, Template};
use std::alloc::{AllocError, Global};

/// The first tuples from an id on that are asked for, in rising order of ids, each with the request
/// that it is held for: as many as are asked for at most, and never more than 64. It ends with the
/// one by which they spell as many bytes as are asked for, or 65,536. Those of a tag are found by
/// the index: it takes no walk over others.
///
/// # Errors
///
/// `AllocError` if memory runs out.
pub fn list_tuples(
    alloc: Global,
    state: &State<IndexBag>,
    holds: &Holds,
    query: &TupleQuery,
) -> Result<TuplePage, AllocError>
    requires { IsState state.now }
    ensures { IfOk result (IsPage state.now.bag holds.now query.now) }
{
    let bag = &state.bag;
    let shapes = shapes_for(alloc, bag, query.tag())?;
    page_of(alloc, bag, holds, &shapes, query)
}

// The page of the tuples that the templates find.
fn page_of(
    alloc: Global,
    bag: &IndexBag,
    holds: &Holds,
    shapes: &Option<Vec<Template>>,
    query: &TupleQuery,
) -> Result<TuplePage, AllocError>
    requires low { (id : ℕ) → is_some (maps.get bag.now id) ≡ true → id < NUMBER_LIMIT }
    requires found { (id : ℕ) → is_found bag.now (shapes_in shapes.now) id
        ≡ is_wanted bag.now query.now.tag id }
    ensures { IfOk result (IsPage bag.now holds.now query.now) }
{
    let most = query.limit().min(MOST_AT_ONCE);
    let enough = query.bytes().min(BYTES_AT_ONCE);
    let mut rows = Vec::new(alloc);
    let mut bytes: usize = 0;
    let mut next = next_found(bag, shapes, query.from());
    for _ in 0..most {
        let Some(id) = next else {
            return Ok(TuplePage { rows, next: None });
        };
        let more = push_row(alloc, &mut rows, bag, holds, id)?;
        next = next_found(bag, shapes, id + 1);
        bytes = bytes.saturating_add(more);
        if bytes >= enough {
            return Ok(TuplePage { rows, next });
        }
    }
    Ok(TuplePage { rows, next })
}

// Puts the tuple of the id after the rows, with the request that it is held for. Returns how many
// bytes it spells in the second form.
fn push_row(
    alloc: Global,
    rows: &mut Vec<ListedTuple>,
    bag: &IndexBag,
    holds: &Holds,
    id: u64,
) -> Result<usize, AllocError>
    requires { is_some (maps.get bag.now id) ≡ true }
    ensures ids { OnOk result (map (λ row. row.id) rows.new.items
        ≡ map (λ row. row.id) rows.old.items ++ id ∷ []) }
    ensures rows { OnOk result (All (IsRow bag.now holds.now) rows.old.items
        → All (IsRow bag.now holds.now) rows.new.items) }
{
    let Some(tuple) = bag.get(id) else {
        unreachable!()
    };
    rows.push(ListedTuple {
        id,
        tuple: tuple.try_clone(alloc)?,
        held: holds.get(id),
        held_for: holds.age(id),
    })?;
    Ok(tuple_len(Form::Two, tuple))
}
