//! The least free match among ids that an index has.

ghost use Rattle.std.specs.Prelude.{◌≡◌, ◌≤◌, ◌<◌, ◌↔◌, ℕ, None, true, IsTrue, IfSome, IfNone};
ghost use Rattle.std.specs.Prelude.{IsSome};
ghost use Rattle.std.specs.Option.{option_copied};
ghost use Rattle.std.specs.FinMap as map;
ghost use Rattle.linda_rising.specs.Rows.{at, ids_of, Rises};
ghost use Rattle.linda_bag.specs.FreeMatch.{Bagged, IsFreeMatch};
ghost use Rattle.linda_bag.specs.Ids.{has_any};

use crate::bag::{Bag, Found};
use crate::free_match::is_free_match;
use crate::id_set::IdSet;
use crate::ids::Ids;
use crate::tuples_by_id::TuplesById;
use linda_rising::RisingMap;
use linda_tuple::{Template, Tuple};

/// A source in which tuples are found by their ids.
pub(crate) trait TupleLookup {
    // the tuples by their ids
    ghost rows: { Self → Bagged };

    /// The tuple under the id, if there is one.
    fn tuple_at(&self, id: u64) -> Option<&Tuple>
        ensures { option_copied result ≡ map.get (rows self.now) id };
}

impl TupleLookup for TuplesById {
    ghost rows = { λ t. t };

    fn tuple_at(&self, id: u64) -> Option<&Tuple> {
        self.get(id)
    }
}

/// The tuples of a bag.
#[derive(Drop)]
pub(crate) struct BagLookup<'a, B> {
    pub(crate) bag: &'a B,
}

impl<'a, B: Bag> TupleLookup for BagLookup<'a, B> {
    ghost rows = { λ s. B.contents s.bag.now };

    fn tuple_at(&self, id: u64) -> Option<&Tuple> {
        self.bag.get(id)
    }
}

/// The least of these ids, from `from` on, whose tuple the template matches and which is not passed
/// over; and how many tuples were looked at in vain.
pub(crate) fn least_among<S: TupleLookup, P: IdSet>(
    tuples: &S,
    template: &Template,
    passed: &P,
    ids: Option<&Ids>,
    from: u64,
) -> Found
    ensures found { IfSome result.id
        (IsFreeMatch (S.rows tuples.now) template.now (P.has passed.now)) }
    ensures above { IfSome result.id (λ id. from ≤ id) }
    ensures least { IfSome result.id (λ id. (k : ℕ) → from ≤ k → k < id
        → has_any (option_copied ids.entry) k ≡ true
        → IsFreeMatch (S.rows tuples.now) template.now (P.has passed.now) k → ⊥) }
    ensures none { IfNone result.id ((k : ℕ) → from ≤ k
        → has_any (option_copied ids.entry) k ≡ true
        → IsFreeMatch (S.rows tuples.now) template.now (P.has passed.now) k → ⊥) }
{
    match ids {
        None => nothing_found(),
        Some(Ids::Nothing) => nothing_found(),
        Some(Ids::One(only)) => {
            if *only < from {
                return nothing_found();
            }
            if is_free(tuples, template, passed, *only) {
                return Found {
                    id: Some(*only),
                    passed: 0,
                };
            }
            nothing_found()
        }
        Some(Ids::Many(ids)) => least_free(tuples, template, passed, ids, from),
    }
}

// No tuple was looked at.
fn nothing_found() -> Found
    ensures { result.id ≡ None }
{
    Found {
        id: None,
        passed: 0,
    }
}

// The least of the ids from `from` on whose tuple may answer the template.
fn least_free<S: TupleLookup, P: IdSet>(
    tuples: &S,
    template: &Template,
    passed: &P,
    ids: &RisingMap<()>,
    from: u64,
) -> Found
    ensures found { IfSome result.id
        (IsFreeMatch (S.rows tuples.now) template.now (P.has passed.now)) }
    ensures above { IfSome result.id (λ id. from ≤ id) }
    ensures least { IfSome result.id
        (λ id. (k : ℕ) → from ≤ k → k < id → map.contains_key ids.now k ≡ true
        → IsFreeMatch (S.rows tuples.now) template.now (P.has passed.now) k → ⊥) }
    ensures none { IfNone result.id ((k : ℕ) → from ≤ k → map.contains_key ids.now k ≡ true
        → IsFreeMatch (S.rows tuples.now) template.now (P.has passed.now) k → ⊥) }
{
    let mut at = from;
    let mut looks: usize = 0;
    while let Some(part) = ids.rows_of_block_from(at) {
        let found = least_in(tuples, template, passed, part.rows);
        looks = looks.saturating_add(found.passed);
        if let Some(id) = found.id {
            return Found {
                id: Some(id),
                passed: looks,
            };
        }
        let Some(next) = part.next else {
            return Found {
                id: None,
                passed: looks,
            };
        };
        at = next;
    }
    Found {
        id: None,
        passed: looks,
    }
}

// The least of these ids whose tuple may answer the template.
fn least_in<S: TupleLookup, P: IdSet>(
    tuples: &S,
    template: &Template,
    passed: &P,
    rows: &[(u64, ())],
) -> Found
    requires { Rises (ids_of rows.now) }
    ensures found { IfSome result.id
        (IsFreeMatch (S.rows tuples.now) template.now (P.has passed.now)) }
    ensures there { IfSome result.id (λ id. IsSome (at rows.now id)) }
    ensures least { IfSome result.id (λ id. (k : ℕ) → IsSome (at rows.now k) → k < id
        → IsFreeMatch (S.rows tuples.now) template.now (P.has passed.now) k → ⊥) }
    ensures none { IfNone result.id ((k : ℕ) → IsSome (at rows.now k)
        → IsFreeMatch (S.rows tuples.now) template.now (P.has passed.now) k → ⊥) }
{
    let mut looks: usize = 0;
    for row in rows {
        if is_free(tuples, template, passed, row.0) {
            return Found {
                id: Some(row.0),
                passed: looks,
            };
        }
        looks = looks.saturating_add(1);
    }
    Found {
        id: None,
        passed: looks,
    }
}

// Whether there is a tuple under the id that may answer the template.
fn is_free<S: TupleLookup, P: IdSet>(tuples: &S, template: &Template, passed: &P, id: u64) -> bool
    ensures { IsTrue result
        ↔ IsFreeMatch (S.rows tuples.now) template.now (P.has passed.now) id }
{
    match tuples.tuple_at(id) {
        Some(tuple) => is_free_match(template, passed, id, tuple),
        None => false,
    }
}
