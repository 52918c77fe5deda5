//! The plain bag: an ordered list of ids with their tuples.

ghost use Rattle.std.specs.Prelude.{◌≡◌};
ghost use Rattle.std.specs.Ordering.{nat_cmp};
ghost use Rattle.std.specs.FinMap as map;

use crate::bag::{Bag, Found};
use crate::free_match::{is_free_match, next_entry, next_id};
use crate::id_set::IdSet;
use linda_codec::tuple_len;
use linda_tuple::{Form, Template, Tuple};
use std::alloc::{AllocError, Global};
use std::collections::{BTreeMap, BTreeSet};

/// A bag that keeps its tuples in the order of their ids.
pub struct ListBag {
    tuples: BTreeMap<u64, Tuple>,
}

impl Drop for ListBag {
    fn drop(self) {
        let ListBag { tuples: _ } = self;
    }
}

impl ListBag {
    /// A bag of no tuples, which takes no memory until one is inserted.
    pub fn new(alloc: Global) -> ListBag
        ensures { ⟦<ListBag as Bag>⟧.contents result ≡ map.empty }
    {
        ListBag {
            tuples: BTreeMap::new(alloc),
        }
    }
}

impl Bag for ListBag {
    ghost contents = { λ b. map.from_entries {R = nat_cmp} b.tuples.entries };

    fn empty(alloc: Global) -> ListBag {
        ListBag::new(alloc)
    }

    #[tactic(auto, using(crate::proofs::TreeLaws::one_set, crate::proofs::TreeLaws::get_is_lookup))]
    fn insert(&mut self, id: u64, tuple: Tuple) -> Result<(), AllocError> {
        self.tuples.insert(id, tuple)?;
        Ok(())
    }

    #[tactic(auto, using(crate::proofs::TreeLaws::one_gone, crate::proofs::TreeLaws::get_is_lookup))]
    fn remove(&mut self, id: u64) -> Option<Tuple> {
        self.tuples.remove(&id)
    }

    #[tactic(auto, using(crate::proofs::TreeLaws::get_is_lookup))]
    fn get(&self, id: u64) -> Option<&Tuple> {
        self.tuples.get(&id)
    }

    fn least_match(&self, template: &Template, passed: &BTreeSet<u64>) -> Option<u64> {
        self.least_match_from(template, passed, 0).id
    }

    fn least_match_from<P: IdSet>(&self, template: &Template, passed: &P, from: u64) -> Found {
        let mut looks: usize = 0;
        for (id, tuple) in &self.tuples {
            if *id >= from {
                if is_free_match(template, passed, *id, tuple) {
                    return Found {
                        id: Some(*id),
                        passed: looks,
                    };
                }
                looks = looks.saturating_add(1);
            }
        }
        Found {
            id: None,
            passed: looks,
        }
    }

    #[tactic(auto, using(crate::proofs::TreeLaws::len_entries))]
    fn len(&self) -> usize {
        self.tuples.len()
    }

    fn room_after(&self, room: usize) -> Option<usize> {
        let mut left = room;
        for (_, tuple) in &self.tuples {
            left = left.checked_sub(tuple_len(Form::Two, tuple))?;
        }
        Some(left)
    }

    fn next_from(&self, id: u64) -> Option<u64> {
        next_id(&self.tuples, id)
    }

    fn entry_from(&self, id: u64) -> Option<(u64, &Tuple)> {
        next_entry(&self.tuples, id)
    }
}
