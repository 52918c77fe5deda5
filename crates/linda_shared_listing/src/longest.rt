//! Longest waits and holds.

ghost use Rattle.std.specs.Prelude.{◌≤◌, ◌+◌, IfOk, OnOk, All, length};
ghost use Rattle.linda_shared_listing.specs.Longest.{IsHeld, IsLongest};

use crate::limits::MOST_LOOKED;
use crate::listed::ListedTuple;
use linda_bag::{Bag, IndexBag};
use linda_hold::{Holds, LongHold, LongWait, Waits};
use std::alloc::{AllocError, Global};

/// Some of the requests that wait and of the tuples that are held, as they were at one moment.
#[derive(Drop)]
pub struct LongestWaitsAndHolds {
    /// The one that waits for longest first. No contract says this order.
    pub waits: Vec<LongWait>,
    /// The one that is held for longest first. No contract says this order.
    pub holds: Vec<ListedTuple>,
}

/// The requests that wait for longest, with what they asked, and the tuples that are held for
/// longest, with their requests: of both as many as are asked for at most, and never more than
/// 1,000. Those that began before the first second was set are not among them. It walks over no
/// others.
///
/// # Errors
///
/// `AllocError` if memory runs out.
pub fn list_longest(
    alloc: Global,
    bag: &IndexBag,
    holds: &Holds,
    waits: &Waits,
    limit: usize,
) -> Result<LongestWaitsAndHolds, AllocError>
    ensures { IfOk result (IsLongest bag.now holds.now waits.now limit) }
{
    let most = limit.min(MOST_LOOKED as usize);
    Ok(LongestWaitsAndHolds {
        waits: waits.longest_of_all(alloc, most)?,
        holds: longest_holds(alloc, bag, holds, most)?,
    })
}

// The tuples that are held for longest.
fn longest_holds(
    alloc: Global,
    bag: &IndexBag,
    holds: &Holds,
    most: usize,
) -> Result<Vec<ListedTuple>, AllocError>
    ensures held { IfOk result (λ rows. All (IsHeld bag.now holds.now) rows.items) }
    ensures few { IfOk result (λ rows. length rows.items ≤ most) }
{
    let found = holds.longest(alloc, most)?;
    let mut rows = Vec::new(alloc);
    for hold in &found {
        push_held(alloc, &mut rows, bag, holds, hold)?;
    }
    Ok(rows)
}

// Puts a tuple that is held after the rows.
fn push_held(
    alloc: Global,
    rows: &mut Vec<ListedTuple>,
    bag: &IndexBag,
    holds: &Holds,
    hold: &LongHold,
) -> Result<(), AllocError>
    ensures rows { OnOk result (All (IsHeld bag.now holds.now) rows.old.items
        → All (IsHeld bag.now holds.now) rows.new.items) }
    ensures one { OnOk result (length rows.new.items ≤ length rows.old.items + 1) }
{
    let Some(request) = holds.get(hold.id) else {
        return Ok(());
    };
    let Some(tuple) = bag.get(hold.id) else {
        return Ok(());
    };
    rows.push(ListedTuple {
        id: hold.id,
        tuple: tuple.try_clone(alloc)?,
        held: Some(request),
        held_for: Some(hold.seconds),
    })?;
    Ok(())
}
