//! Hints of searches for free tuples, so that tuples that are held are not looked at anew by each
//! search.
//!
//! A template for which a search looked at many tuples in vain gets a hint: an id, below which its
//! free matches are only those that came free again since. A hint says what a search may leave
//! out, and nothing else: it may go at any time.

ghost use Rattle.std.specs.Prelude.{◌≡◌, ◌≤◌, ℕ, Bool, true, false, Some};
ghost use Rattle.std.specs.FinMap as map;
ghost use Rattle.linda_bag.specs.FreeMatch.{IsFreeMatch};
ghost use Rattle.linda_bag.specs.SearchHints.{Bagged, Covers, AreBegun, Begins};

use linda_tuple::{Atom, Template, Tuple};
use std::alloc::{AllocError, Global};
use std::collections::{BTreeMap, BTreeSet};

// How many tuples a search looks at in vain before its template gets a hint.
const MANY: usize = 8;

// How many tags have a hint at most.
const MAX_STARTS: usize = 1_024;

/// Where the search for the tuples of a template begins.
#[derive(Drop)]
pub(crate) struct Hint {
    pub(crate) template: Template,
    pub(crate) from: u64,
    pub(crate) freed: BTreeSet<u64>,
}

/// The hints of templates, at most one for each tag.
pub(crate) struct TagHints {
    by_tag: BTreeMap<Atom, Hint>,
}

impl Drop for TagHints {
    fn drop(self) {
        let TagHints { by_tag: _ } = self;
    }
}

impl TagHints {
    /// No hints.
    pub(crate) fn new(alloc: Global) -> TagHints
        ensures { (bag : Bagged) (passed : ℕ → Bool) (next : ℕ) → AreBegun bag passed next result }
    {
        TagHints {
            by_tag: BTreeMap::new(alloc),
        }
    }

    /// The tuple under the id is held no more.
    pub(crate) fn free(&mut self, id: u64, tuple: &Tuple)
        ensures { (bag : Bagged) (before after : ℕ → Bool) (next : ℕ)
            → map.get bag id ≡ Some tuple.now
            → ((k : ℕ) → (k ≡ id → ⊥) → after k ≡ false → before k ≡ false)
            → AreBegun bag before next self.old → AreBegun bag after next self.new }
    {
        if let Some(hint) = self.by_tag.get_mut(tuple.tag()) {
            hint.free(id);
        }
    }

    /// The tuple under the id, which was found for the template, is held.
    pub(crate) fn hold(&mut self, id: u64, template: &Template)
        ensures { (bag : Bagged) (passed : ℕ → Bool) (next : ℕ) → passed id ≡ true
            → AreBegun bag passed next self.old → AreBegun bag passed next self.new }
    {
        if let Some(hint) = self.by_tag.get_mut(template.tag()) {
            hint.hold(id);
        }
    }

    /// No free match of the template is below this.
    pub(crate) fn first_for(&self, template: &Template) -> u64
        ensures { (bag : Bagged) (passed : ℕ → Bool) (next : ℕ) → AreBegun bag passed next self.now
            → (k : ℕ) → IsFreeMatch bag template.now passed k → result ≤ k }
    {
        match self.by_tag.get(template.tag()) {
            Some(hint) => {
                if hint.template == *template {
                    hint.first()
                } else {
                    0
                }
            }
            None => 0,
        }
    }

    /// A search that found no free match below `from` looked at so many tuples in vain.
    pub(crate) fn note(&mut self, alloc: Global, template: &Template, from: u64, passed: usize)
        ensures { Begins template.now from self.old self.new }
    {
        if self.advance(template, from) {
            return;
        }
        if passed >= MANY {
            self.begin(alloc, template, from);
        }
    }

    // The template's hint, if it has one, moves on; whether it has one.
    fn advance(&mut self, template: &Template, from: u64) -> bool
        ensures { Begins template.now from self.old self.new }
    {
        match self.by_tag.get_mut(template.tag()) {
            Some(hint) => {
                if hint.template == *template {
                    hint.advance(from);
                    true
                } else {
                    false
                }
            }
            None => false,
        }
    }

    // The template gets a hint, in place of another one of its tag, if there is memory for it. If
    // there are too many hints, all of them are dropped.
    fn begin(&mut self, alloc: Global, template: &Template, from: u64)
        ensures { Begins template.now from self.old self.new }
    {
        if self.by_tag.len() < MAX_STARTS {
            let _ = self.try_begin(alloc, template, from);
        } else {
            self.by_tag = BTreeMap::new(alloc);
        }
    }

    fn try_begin(&mut self, alloc: Global, template: &Template, from: u64) -> Result<(), AllocError>
        ensures { Begins template.now from self.old self.new }
    {
        let tag = template.tag().try_clone(alloc)?;
        let hint = Hint {
            template: template.try_clone(alloc)?,
            from,
            freed: BTreeSet::new(alloc),
        };
        self.by_tag.insert(tag, hint)?;
        Ok(())
    }
}

impl Hint {
    // No match that is reached is below this.
    fn first(&self) -> u64
        ensures { (k : ℕ) → Covers self.now k → result ≤ k }
    {
        match self.freed.first() {
            Some(first) => {
                if *first < self.from {
                    *first
                } else {
                    self.from
                }
            }
            None => self.from,
        }
    }

    // No free match is below `from`.
    fn advance(&mut self, from: u64)
        ensures template { self.new.template ≡ self.old.template }
        ensures below { (next : ℕ) → from ≤ next → self.old.from ≤ next → self.new.from ≤ next }
        ensures covers { (k : ℕ) → from ≤ k → Covers self.old k → Covers self.new k }
    {
        if from >= self.from {
            self.from = from;
            self.freed.clear();
        }
    }

    // The id is free again.
    fn free(&mut self, id: u64)
        ensures template { self.new.template ≡ self.old.template }
        ensures below { self.new.from ≤ self.old.from }
        ensures covers { (k : ℕ) → Covers self.old k → Covers self.new k }
        ensures here { Covers self.new id }
    {
        if id < self.from {
            match self.freed.insert(id) {
                Ok(_) => {}
                Err(_) => {
                    self.from = id;
                }
            }
        }
    }

    // The id is free no more.
    fn hold(&mut self, id: u64)
        ensures template { self.new.template ≡ self.old.template }
        ensures from { self.new.from ≡ self.old.from }
        ensures covers { (k : ℕ) → (k ≡ id → ⊥) → Covers self.old k → Covers self.new k }
    {
        self.freed.remove(&id);
    }
}
