//! A copy of the clients for a snapshot in steps, which is made in pieces before that begins. What
//! is done meanwhile is copied again; if memory runs out, the copy is given up, and nothing else
//! is.

ghost use Rattle.std.specs.Prelude.{◌≡◌, None, true};
ghost use Rattle.linda_store_state.specs.State as states;
ghost use Rattle.linda_store_state.specs.State.{IsState};
ghost use Rattle.linda_snap.specs.BookCopy.{Clients, Copies, IsCopyFor};
ghost use Rattle.linda_snap.specs.Replay.{GoesOn};

use linda_bag::IndexBag;
use linda_snap::BookCopy;
use linda_store_state::{Deed, State};
use std::alloc::Global;

/// The copy with the next clients of the state, so many at most; one is begun if there is none.
/// Returns `None` if memory runs out.
pub(crate) fn with_more(
    copy: Option<BookCopy>,
    alloc: Global,
    state: &State<IndexBag>,
    most: u32,
) -> Option<BookCopy>
    ensures { IsCopyFor copy state.now.book → IsCopyFor result state.now.book }
{
    begun(copy, alloc).go_on(alloc, &state.book, most)
}

// The copy, or one that is begun.
fn begun(copy: Option<BookCopy>, alloc: Global) -> BookCopy
    ensures { (book : Clients) → IsCopyFor copy book → Copies result book }
{
    match copy {
        None => BookCopy::new(alloc),
        Some(copy) => copy,
    }
}

/// The copy of what there is after these deeds, if it was one of what there was before. Returns
/// `None` if there is none, or if memory runs out.
pub(crate) fn renewed(
    copy: Option<BookCopy>,
    alloc: Global,
    state: &State<IndexBag>,
    deeds: &[Deed],
) -> Option<BookCopy>
    ensures { (old : states.State) → IsState old → GoesOn old deeds.now state.now
        → IsCopyFor copy old.book → IsCopyFor result state.now.book }
{
    match copy {
        None => None,
        Some(copy) => copy.renew(alloc, &state.book, deeds),
    }
}

/// Whether nothing is left to copy, or nothing is copied.
pub(crate) fn is_over(copy: Option<&BookCopy>) -> bool
    ensures { copy.entry ≡ None → result ≡ true }
{
    match copy {
        None => true,
        Some(copy) => copy.is_whole(),
    }
}
