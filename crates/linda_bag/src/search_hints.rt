//! Hints and columns, by which a search leaves out tuples: those that are held, so that they are
//! not looked at again, and those that have another value where the template asks for one.
//!
//! They may be dropped at any time, and what is found is the same.

ghost use Rattle.std.specs.Prelude.{◌≡◌, ◌≤◌, ◌<◌, ℕ, Bool, true, false, Some, IfSome, IfNone};
ghost use Rattle.std.specs.FinMap as map;
ghost use Rattle.linda_bag.specs.Columns.{AreColumns};
ghost use Rattle.linda_bag.specs.FreeMatch.{Bagged, IsFreeMatch};
ghost use Rattle.linda_bag.specs.SearchHints.{AreRight};

use crate::bag::Bag;
use crate::columns::Columns;
use crate::id_set::IdSet;
use crate::tag_hints::TagHints;
use linda_tuple::{Template, Tuple};
use std::alloc::Global;

/// Where the searches for templates begin, and columns for the templates that begin with a formal
/// and have a value later.
pub struct SearchHints {
    tags: TagHints,
    columns: Columns,
}

impl Drop for SearchHints {
    fn drop(self) {
        let SearchHints {
            tags: _,
            columns: _,
        } = self;
    }
}

impl SearchHints {
    /// Nothing is left out.
    pub fn new(alloc: Global) -> SearchHints
        ensures { (bag : Bagged) (passed : ℕ → Bool) (next : ℕ) → AreRight bag passed next result }
    {
        SearchHints {
            tags: TagHints::new(alloc),
            columns: Columns::new(alloc),
        }
    }

    /// The least id of the bag outside `held` whose tuple the template matches; `None` only if
    /// there is none. Each id of the bag is below `next`. It needs no memory; if there is memory
    /// and this search looked at many tuples in vain, the next search for the template begins here.
    pub fn least_match<B: Bag, P: IdSet>(
        &mut self,
        alloc: Global,
        bag: &B,
        template: &Template,
        held: &P,
        next: u64,
    ) -> Option<u64>
        requires { AreRight (B.contents bag.now) (P.has held.now) next self.old }
        ensures found { IfSome result
            (IsFreeMatch (B.contents bag.now) template.now (P.has held.now)) }
        ensures least { IfSome result (λ id. (k : ℕ) → k < id
            → IsFreeMatch (B.contents bag.now) template.now (P.has held.now) k → ⊥) }
        ensures none { IfNone result ((k : ℕ)
            → IsFreeMatch (B.contents bag.now) template.now (P.has held.now) k → ⊥) }
        ensures right { AreRight (B.contents bag.now) (P.has held.now) next self.new }
    {
        let first = self.tags.first_for(template);
        let found = self
            .columns
            .least_match_from(alloc, bag, template, held, first, next);
        if found.passed > 0 {
            let from = below(found.id, next);
            self.tags.note(alloc, template, from, found.passed);
        }
        found.id
    }

    /// The least id of the bag outside `passed` whose tuple the template matches, as `least_match`
    /// of the bag finds it; held tuples are not left out. Each id of the bag is below `next`. It
    /// needs no memory.
    pub fn read_match<B: Bag, P: IdSet>(
        &mut self,
        alloc: Global,
        bag: &B,
        template: &Template,
        passed: &P,
        next: u64,
    ) -> Option<u64>
        requires { AreColumns (B.contents bag.now) next self.old.columns }
        ensures found { IfSome result
            (IsFreeMatch (B.contents bag.now) template.now (P.has passed.now)) }
        ensures least { IfSome result (λ id. (k : ℕ) → k < id
            → IsFreeMatch (B.contents bag.now) template.now (P.has passed.now) k → ⊥) }
        ensures none { IfNone result ((k : ℕ)
            → IsFreeMatch (B.contents bag.now) template.now (P.has passed.now) k → ⊥) }
        ensures right { (held : ℕ → Bool) → AreRight (B.contents bag.now) held next self.old
            → AreRight (B.contents bag.now) held next self.new }
    {
        self.columns
            .least_match_from(alloc, bag, template, passed, 0, next)
            .id
    }

    /// The tuple under the id is held no more.
    pub fn free(&mut self, id: u64, tuple: &Tuple)
        ensures { (bag : Bagged) (before after : ℕ → Bool) (next : ℕ)
            → map.get bag id ≡ Some tuple.now
            → ((k : ℕ) → (k ≡ id → ⊥) → after k ≡ false → before k ≡ false)
            → AreRight bag before next self.old → AreRight bag after next self.new }
    {
        self.tags.free(id, tuple);
    }

    /// The tuple under the id, which was found for the template, is held.
    pub fn hold(&mut self, id: u64, template: &Template)
        ensures { (bag : Bagged) (passed : ℕ → Bool) (next : ℕ) → passed id ≡ true
            → AreRight bag passed next self.old → AreRight bag passed next self.new }
    {
        self.tags.hold(id, template);
    }
}

// The id, or `next` if there is none below that.
fn below(id: Option<u64>, next: u64) -> u64
    ensures at_most { result ≤ next }
    ensures id { IfSome id (λ i. result ≤ i) }
{
    match id {
        Some(id) => { if id < next { id } else { next } }
        None => next,
    }
}
