//! Since when each of some numbers is there.

ghost use Rattle.std.specs.Prelude.{◌≡◌, ◌<◌, ℕ, [], None, IfOk, max, take};
ghost use Rattle.std.specs.List.{flat_map};
ghost use Rattle.linda_hold.specs.Ages.{IsForgotten, IsNoted, age_at, aged_at, in_order};
ghost use Rattle.linda_hold.specs.Ages.{oldest_of};

use std::alloc::{AllocError, Global};
use std::collections::BTreeMap;

/// In which second each number was noted, and in which order they were. Seconds are set from
/// outside, and never fall. Until one is set nothing is noted, which takes no memory and one
/// comparison.
///
/// It is for people who look on: no contract of this crate's callers sees it, and no answer of a
/// server depends on it.
#[derive(Drop)]
pub(crate) struct Ages {
    // The present second; 0 until one is set.
    second: u64,
    noted: BTreeMap<u64, Noted>,
    // The numbers that are noted, in the order in which they were.
    order: BTreeMap<u64, u64>,
    // The place in this order of the number that is noted next.
    next: u64,
}

// When a number was noted.
#[derive(Clone, Copy)]
struct Noted {
    second: u64,
    // Its place in the order.
    place: u64,
}

/// A number that is noted, and for how long it is.
#[derive(Clone, Copy)]
pub(crate) struct Age {
    pub(crate) number: u64,
    pub(crate) seconds: u64,
}

impl Ages {
    /// Nothing is noted, and no second is set.
    pub(crate) fn none(alloc: Global) -> Ages
        ensures second { result.second ≡ 0 }
        ensures none { (number : ℕ) → age_at result number ≡ None }
        ensures order { in_order result ≡ [] }
    {
        Ages {
            second: 0,
            noted: BTreeMap::new(alloc),
            order: BTreeMap::new(alloc),
            next: 0,
        }
    }

    /// Sets the present second. An earlier one than before changes nothing.
    pub(crate) fn set_second(&mut self, second: u64)
        ensures { self.new ≡ record self.old { second = max self.old.second second } }
    {
        self.second = self.second.max(second);
    }

    /// Notes the number in the present second, also if it was noted before. If memory runs out, it
    /// is not noted.
    pub(crate) fn note(&mut self, number: u64)
        ensures unset { self.old.second ≡ 0 → self.new ≡ self.old }
        ensures noted { 0 < self.old.second → IsNoted self.old self.new number }
    {
        if self.second == 0 {
            return;
        }
        self.forget(number);
        let place = self.next;
        if self.order.insert(place, number).is_err() {
            return;
        }
        self.next = place.saturating_add(1);
        let noted = Noted {
            second: self.second,
            place,
        };
        if self.noted.insert(number, noted).is_err() {
            self.order.remove(&place);
        }
    }

    /// Notes the number no more.
    pub(crate) fn forget(&mut self, number: u64)
        ensures unset { self.old.second ≡ 0 → self.new ≡ self.old }
        ensures forgotten { 0 < self.old.second → IsForgotten self.old self.new number }
    {
        if self.second == 0 {
            return;
        }
        if let Some(noted) = self.noted.remove(&number) {
            self.order.remove(&noted.place);
        }
    }

    /// How many seconds ago the number was noted; `None` if it is not.
    pub(crate) fn age(&self, number: u64) -> Option<u64>
        ensures { result ≡ age_at self.now number }
    {
        let noted = self.noted.get(&number).copied()?;
        Some(self.second.saturating_sub(noted.second))
    }

    /// How many seconds ago the number was noted that is noted for longest. It walks over none of
    /// them.
    pub(crate) fn oldest(&self) -> Option<u64>
        ensures { result ≡ oldest_of self.now }
    {
        let (_, number) = self.order.first_key_value()?;
        self.age(*number)
    }

    /// The numbers that are noted for longest, the oldest first, as many as are asked for at most.
    /// It walks over those only.
    ///
    /// # Errors
    ///
    /// `AllocError` if memory runs out.
    pub(crate) fn longest(&self, alloc: Global, most: usize) -> Result<Vec<Age>, AllocError>
        ensures { IfOk result (λ found.
            found.items ≡ take most (flat_map (aged_at self.now) (in_order self.now))) }
    {
        let mut found = Vec::new(alloc);
        for number in self.order.values() {
            if found.len() >= most {
                return Ok(found);
            }
            if let Some(seconds) = self.age(*number) {
                found.push(Age {
                    number: *number,
                    seconds,
                })?;
            }
        }
        Ok(found)
    }
}
