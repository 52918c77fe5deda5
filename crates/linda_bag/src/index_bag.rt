//! The bag of a server that has many tuples: a look-up looks only at the tuples that have the
//! template's head, its tag, its number of fields and the value that it begins with.

ghost use Rattle.std.specs.Prelude.{◌≡◌};
ghost use Rattle.std.specs.FinMap as map;

use crate::among::least_among;
use crate::bag::{Bag, Found};
use crate::id_index::IdIndex;
use crate::id_set::IdSet;
use crate::index::{Index, candidates};
use crate::tuples_by_id::TuplesById;
use linda_codec::tuple_len;
use linda_tuple::{Form, Template, Tuple};
use std::alloc::{AllocError, Global};
use std::collections::BTreeSet;
use std::marker::Model;

mod kind;

pub use kind::Kind;

/// A bag that keeps, beside its tuples in the order of their ids, an index of the ids by tag,
/// number of fields and first field.
pub struct IndexBag {
    alloc: Global,
    tuples: TuplesById,
    // How many bytes they spell.
    bytes: usize,
    index: Index,
}

impl Drop for IndexBag {
    fn drop(self) {
        let IndexBag {
            alloc: _,
            tuples: _,
            bytes: _,
            index: _,
        } = self;
    }
}

impl Model for IndexBag {
    ghost use Rattle.std.specs.Prelude.{◌≡◌};
    ghost use Rattle.std.specs.Coded.{coded_ℕ};
    ghost use Rattle.std.specs.Ordering.{nat_cmp};
    ghost use Rattle.std.specs.FinMap as map;
    ghost use Rattle.linda_tuple.specs.Tuple.{Tuple};
    ghost use Rattle.linda_tuple.specs.Codes.{tuple_code};
    ghost use Rattle.linda_bag.specs.Bytes.{bytes_of};

    ghost Value = { map.FinMap nat_cmp Tuple };

    ghost coded = { map.code coded_ℕ tuple_code };

    ghost view = { λ b. b.tuples };

    ghost invariant = { λ b. ⟦<Index as IdIndex<Tuple>>⟧.has b.index (map.get b.tuples)
        × (b.bytes ≡ bytes_of b.tuples) };
}

impl IndexBag {
    /// A bag of no tuples, which takes no memory until one is inserted.
    pub fn new(alloc: Global) -> IndexBag
        ensures { ⟦<IndexBag as Bag>⟧.contents result ≡ map.empty }
    {
        IndexBag {
            alloc,
            tuples: TuplesById::new(alloc),
            bytes: 0,
            index: IdIndex::<Tuple>::empty(alloc),
        }
    }
}

impl Bag for IndexBag {
    ghost contents = { λ b. b };

    fn empty(alloc: Global) -> IndexBag {
        IndexBag::new(alloc)
    }

    fn insert(&mut self, id: u64, tuple: Tuple) -> Result<(), AllocError> {
        // As many bytes as a number counts have no room in memory.
        let Some(bytes) = self.bytes.checked_add(tuple_len(Form::Two, &tuple)) else {
            return Err(AllocError);
        };
        let tuple = Box::new(self.alloc, tuple)?;
        let freed = self.tuples.insert(self.alloc, &mut self.index, id, tuple)?;
        self.bytes = bytes - freed;
        Ok(())
    }

    fn remove(&mut self, id: u64) -> Option<Tuple> {
        let tuple = self.tuples.remove(id)?;
        self.index.remove(id, &tuple);
        self.bytes -= tuple_len(Form::Two, &tuple);
        Some(tuple)
    }

    fn get(&self, id: u64) -> Option<&Tuple> {
        self.tuples.get(id)
    }

    fn least_match(&self, template: &Template, passed: &BTreeSet<u64>) -> Option<u64> {
        self.least_match_from(template, passed, 0).id
    }

    fn least_match_from<P: IdSet>(&self, template: &Template, passed: &P, from: u64) -> Found {
        let ids = candidates(&self.index, template);
        least_among(&self.tuples, template, passed, ids, from)
    }

    fn len(&self) -> usize {
        self.tuples.len()
    }

    fn room_after(&self, room: usize) -> Option<usize> {
        room.checked_sub(self.bytes)
    }

    fn next_from(&self, id: u64) -> Option<u64> {
        self.tuples.next_from(id)
    }

    fn entry_from(&self, id: u64) -> Option<(u64, &Tuple)> {
        self.tuples.entry_from(id)
    }
}
