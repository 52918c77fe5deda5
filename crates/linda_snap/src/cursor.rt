//! The tuples of a state and the clients of its book, one after the other in the order of their
//! numbers.

ghost use Rattle.std.specs.Prelude.{◌≡◌, ◌∷◌, [], ◌<◌, ◌≤◌, ◌+◌, ℕ, suc, None, Some};
ghost use Rattle.std.specs.Prelude.{IfSome, IfNone};
ghost use Rattle.std.specs.FinMap as maps;
ghost use Rattle.linda_wire.specs.declared.limits.TheConstants.{NUMBER_LIMIT};
ghost use Rattle.linda_store_state.specs.State.{IsState};
ghost use Rattle.linda_snap.specs.Rising.{entries_from, first_after};

use linda_bag::Bag;
use linda_book::{Book, KeptReply};
use linda_store_state::State;
use linda_tuple::Tuple;

/// The first tuple of the state from this id on, with its id; `None` if there is none.
pub fn tuple_from<B: Bag>(state: &State<B>, from: u64) -> Option<(u64, &Tuple)>
    requires { IsState state.now }
    ensures found { IfSome result (λ e. entries_from from state.now.bag
        ≡ (e.0, e.1.now) ∷ entries_from (e.0 + 1) state.now.bag) }
    ensures low { IfSome result (λ e. e.0 < NUMBER_LIMIT) }
    ensures none { IfNone result (entries_from from state.now.bag ≡ []) }
{
    let Some((id, tuple)) = state.bag.entry_from(from) else {
        return None;
    };
    Some((id, tuple))
}

/// The first client of the book above this one, or at all if none is given, with its number and
/// reply; `None` if there is none.
pub fn kept_after(book: &Book, last: Option<u32>) -> Option<(u32, (u64, &KeptReply))>
    ensures found { IfSome result (λ e. entries_from (first_after last) book.now
        ≡ (e.0, (e.1.0, e.1.1.now)) ∷ entries_from (suc e.0) book.now) }
    ensures above { IfSome result (λ e. first_after last ≤ e.0) }
    ensures none { IfNone result (entries_from (first_after last) book.now ≡ []) }
{
    let Some((client, entry)) = next_entry(book, last) else {
        return None;
    };
    Some((client, entry))
}

/// The same, as the map of the book has it.
pub fn next_entry(book: &Book, last: Option<u32>) -> Option<(u32, (u64, &KeptReply))>
    ensures found { IfSome result (λ e. maps.get book.now e.0 ≡ Some (e.1.0, e.1.1.now)) }
    ensures above { IfSome result (λ e. first_after last ≤ e.0) }
    ensures least { IfSome result (λ e. (c : ℕ) → first_after last ≤ c → c < e.0
        → maps.get book.now c ≡ None) }
    ensures none { IfNone result ((c : ℕ) → first_after last ≤ c → maps.get book.now c ≡ None) }
{
    match last {
        None => book.entry_from(0),
        Some(client) => book.entry_after(client),
    }
}
