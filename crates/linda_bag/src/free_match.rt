//! Free matches, looked up in the tree that has a bag's tuples by their ids.

ghost use Rattle.std.specs.Prelude.{◌≡◌, ◌≤◌, ◌<◌, ◌↔◌, ℕ, false, None, Some};
ghost use Rattle.std.specs.Prelude.{IfNone, IfSome, IsSome, IsTrue};
ghost use Rattle.std.specs.FinMap as map;
ghost use Rattle.linda_tuple.specs.Matching.{Matches};
ghost use Rattle.linda_bag.specs.FreeMatch.{rows_of};

use crate::id_set::IdSet;
use linda_tuple::{Template, Tuple, matches};
use std::collections::BTreeMap;

/// Whether the template matches the tuple of this id and the id is not passed over.
pub(crate) fn is_free_match<P: IdSet>(
    template: &Template,
    passed: &P,
    id: u64,
    tuple: &Tuple,
) -> bool
    ensures { IsTrue result
        ↔ (Matches template.now tuple.now × (P.has passed.now id ≡ false)) }
{
    matches(template, tuple) && !passed.has(id)
}

/// The least id of the tree that is not below `id`, with the value under it.
#[tactic(auto, using(crate::proofs::TreeLaws::get_is_lookup))]
pub(crate) fn next_entry<T>(rows: &BTreeMap<u64, T>, id: u64) -> Option<(u64, &T)>
    ensures found { IfSome result (λ e. map.get (rows_of rows.now) e.0 ≡ Some e.1.now) }
    ensures above { IfSome result (λ e. id ≤ e.0) }
    ensures least { IfSome result (λ e. (k : ℕ) → id ≤ k → k < e.0
        → map.get (rows_of rows.now) k ≡ None) }
    ensures none { IfNone result ((k : ℕ) → id ≤ k → map.get (rows_of rows.now) k ≡ None) }
{
    let (next, row) = rows.range(id..).next()?;
    Some((*next, row))
}

/// The least id of the tree that is not below `id`.
pub(crate) fn next_id<T>(rows: &BTreeMap<u64, T>, id: u64) -> Option<u64>
    ensures found { IfSome result (λ next. IsSome (map.get (rows_of rows.now) next)) }
    ensures above { IfSome result (λ next. id ≤ next) }
    ensures least { IfSome result (λ next. (k : ℕ) → id ≤ k → k < next
        → map.get (rows_of rows.now) k ≡ None) }
    ensures none { IfNone result ((k : ℕ) → id ≤ k → map.get (rows_of rows.now) k ≡ None) }
{
    let (next, _) = next_entry(rows, id)?;
    Some(next)
}
