//! Sets of ids, however they are kept: those that a search passes over.

ghost use Rattle.std.specs.Prelude.{◌≡◌, ℕ, Bool};
ghost use Rattle.std.specs.BTreeSet.{contains};
ghost use Rattle.std.specs.Ordering.{nat_cmp};

use std::collections::BTreeSet;

/// A set of ids.
pub trait IdSet {
    // whether the id is one of them
    ghost has: { Self → ℕ → Bool };

    /// Whether the id is one of them.
    fn has(&self, id: u64) -> bool
        ensures { result ≡ has self.now id };
}

impl IdSet for BTreeSet<u64> {
    ghost has = { contains nat_cmp };

    fn has(&self, id: u64) -> bool {
        self.contains(&id)
    }
}
