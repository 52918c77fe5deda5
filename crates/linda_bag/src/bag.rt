//! Bags of tuples: what each promises, however it keeps them.

ghost use Rattle.std.specs.Prelude.{◌≡◌, ◌≤◌, ◌<◌, ◌+◌, ℕ, None, Some, IfNone, IfSome, IsSome};
ghost use Rattle.std.specs.Prelude.{OnOk, OnErr};
ghost use Rattle.std.specs.Prelude.{option_copied};
ghost use Rattle.std.specs.Ordering.{nat_cmp};
ghost use Rattle.std.specs.BTreeSet.{contains};
ghost use Rattle.std.specs.FinMap as map;
ghost use Rattle.linda_tuple.specs.Tuple.{Tuple};
ghost use Rattle.linda_bag.specs.Bytes.{bytes_of};
ghost use Rattle.linda_bag.specs.FreeMatch.{IsFreeMatch};

use crate::id_set::IdSet;
use linda_tuple::{Template, Tuple};
use std::alloc::{AllocError, Global};
use std::collections::BTreeSet;

/// What a search for a tuple came to.
#[derive(Clone, Copy, Debug)]
pub struct Found {
    /// The id that was found; `None` only if there is none.
    pub id: Option<u64>,
    /// How many tuples were looked at in vain.
    pub passed: usize,
}

/// Tuples under ids, at most one under each. Any 64-bit number may be an id.
pub trait Bag: Drop {
    // the tuples by their ids
    ghost contents: { Self → map.FinMap nat_cmp Tuple };

    /// A bag of no tuples, which takes no memory until one is inserted.
    fn empty(alloc: Global) -> Self
        ensures { contents result ≡ map.empty };

    /// Puts the tuple under the id, in place of one that was there, which is dropped.
    ///
    /// # Errors
    ///
    /// `AllocError` if memory runs out, and then the bag is as before and the tuple is dropped.
    fn insert(&mut self, id: u64, tuple: Tuple) -> Result<(), AllocError>
        ensures ok { OnOk result (contents self.new ≡ map.insert (contents self.old) id tuple) }
        ensures err { OnErr result (contents self.new ≡ contents self.old) };

    /// Takes out the tuple under the id and returns it; if there is none, nothing changes.
    fn remove(&mut self, id: u64) -> Option<Tuple>
        ensures value { result ≡ map.get (contents self.old) id }
        ensures removed { contents self.new ≡ map.remove (contents self.old) id };

    /// The tuple under the id, if there is one.
    fn get(&self, id: u64) -> Option<&Tuple>
        ensures { option_copied result ≡ map.get (contents self.now) id };

    /// The least id outside `passed` whose tuple the template matches; `None` only if there is
    /// none.
    fn least_match(&self, template: &Template, passed: &BTreeSet<u64>) -> Option<u64>
        ensures found { IfSome result
            (IsFreeMatch (contents self.now) template.now (contains nat_cmp passed.now)) }
        ensures least { IfSome result (λ id. (k : ℕ) → k < id
            → IsFreeMatch (contents self.now) template.now (contains nat_cmp passed.now) k → ⊥) }
        ensures none { IfNone result ((k : ℕ)
            → IsFreeMatch (contents self.now) template.now (contains nat_cmp passed.now) k → ⊥) };

    /// As `least_match`, only among the ids from `from` on; and how many tuples were looked at in
    /// vain.
    fn least_match_from<P: IdSet>(&self, template: &Template, passed: &P, from: u64) -> Found
        ensures found { IfSome result.id
            (IsFreeMatch (contents self.now) template.now (P.has passed.now)) }
        ensures above { IfSome result.id (λ id. from ≤ id) }
        ensures least { IfSome result.id (λ id. (k : ℕ) → from ≤ k → k < id
            → IsFreeMatch (contents self.now) template.now (P.has passed.now) k → ⊥) }
        ensures none { IfNone result.id ((k : ℕ) → from ≤ k
            → IsFreeMatch (contents self.now) template.now (P.has passed.now) k → ⊥) };

    /// How many tuples there are.
    fn len(&self) -> usize
        ensures { result ≡ map.len (contents self.now) };

    /// What is left of so many bytes once all tuples are spelled in them, in the second form and
    /// without their ids; `None` if they spell more.
    fn room_after(&self, room: usize) -> Option<usize>
        ensures some { IfSome result (λ left. left + bytes_of (contents self.now) ≡ room) }
        ensures none { IfNone result (room < bytes_of (contents self.now)) };

    /// The least id of the bag that is not below `id`; `None` only if there is none.
    fn next_from(&self, id: u64) -> Option<u64>
        ensures found { IfSome result (λ next. IsSome (map.get (contents self.now) next)) }
        ensures above { IfSome result (λ next. id ≤ next) }
        ensures least { IfSome result (λ next. (k : ℕ) → id ≤ k → k < next
            → map.get (contents self.now) k ≡ None) }
        ensures none { IfNone result ((k : ℕ) → id ≤ k → map.get (contents self.now) k ≡ None) };

    /// The tuple of the least id that is not below `id`, with that id; `None` only if there is
    /// none.
    fn entry_from(&self, id: u64) -> Option<(u64, &Tuple)>
        ensures found { IfSome result (λ e. map.get (contents self.now) e.0 ≡ Some e.1.now) }
        ensures above { IfSome result (λ e. id ≤ e.0) }
        ensures least { IfSome result (λ e. (k : ℕ) → id ≤ k → k < e.0
            → map.get (contents self.now) k ≡ None) }
        ensures none { IfNone result ((k : ℕ) → id ≤ k → map.get (contents self.now) k ≡ None) };
}
