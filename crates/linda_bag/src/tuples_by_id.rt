//! Tuples by their ids, each in a box: so the map's nodes are small, and a removal moves little.

ghost use Rattle.std.specs.Prelude.{◌≡◌, ◌≤◌, ◌<◌, ℕ, None, Some, IfNone, IfSome, IsSome, OnOk};
ghost use Rattle.std.specs.Prelude.{OnErr, IfOk};
ghost use Rattle.std.specs.Option.{option_copied};
ghost use Rattle.std.specs.FinMap as map;
ghost use Rattle.linda_bag.specs.Bytes.{bytes_at};
ghost use Rattle.linda_bag.specs.Filing.{Refiles};

use crate::id_index::IdIndex;
use linda_codec::tuple_len;
use linda_rising::RisingMap;
use linda_tuple::{Form, Tuple};
use std::alloc::{AllocError, Global};
use std::marker::Model;

/// The tuples of a bag. Contracts see the finite map from their ids.
#[derive(Drop)]
pub(crate) struct TuplesById {
    by_id: RisingMap<Box<Tuple>>,
}

impl Model for TuplesById {
    ghost use Rattle.std.specs.Coded.{coded_ℕ};
    ghost use Rattle.std.specs.Ordering.{nat_cmp};
    ghost use Rattle.std.specs.FinMap as map;
    ghost use Rattle.linda_tuple.specs.Tuple.{Tuple};
    ghost use Rattle.linda_tuple.specs.Codes.{tuple_code};
    ghost use Rattle.linda_bag.specs.TuplesById.{unboxed};

    ghost Value = { map.FinMap nat_cmp Tuple };

    ghost coded = { map.code coded_ℕ tuple_code };

    ghost view = { λ t. map.from_entries (unboxed (map.entries t.by_id)) };
}

impl TuplesById {
    /// No tuples. Takes no memory until one is inserted.
    pub(crate) fn new(alloc: Global) -> TuplesById
        ensures { result ≡ map.empty }
    {
        TuplesById {
            by_id: RisingMap::new(alloc),
        }
    }

    /// Puts the tuple under the id, in place of one that was there, which is dropped, and files the
    /// id in the index by the new tuple, no longer by the old one. Returns how many bytes the old
    /// one spelled in the second form, 0 if there was none.
    ///
    /// # Errors
    ///
    /// `AllocError` if memory runs out, and then all is as before, and the tuple is dropped.
    pub(crate) fn insert<S: IdIndex<Tuple>>(
        &mut self,
        alloc: Global,
        id_index: &mut S,
        id: u64,
        tuple: Box<Tuple>,
    ) -> Result<usize, AllocError>
        ensures freed { IfOk result (λ freed. freed ≡ bytes_at (map.get self.old id)) }
        ensures ok { OnOk result (self.new ≡ map.insert self.old id tuple.value) }
        ensures filed { OnOk result (Refiles (S.has id_index.old) (S.has id_index.new)
            id (map.get self.old id) (Some tuple.value)) }
        ensures err { OnErr result (self.new ≡ self.old) }
        ensures unfiled { OnErr result (Refiles (S.has id_index.old) (S.has id_index.new)
            id (map.get self.old id) (map.get self.old id)) }
    {
        match self.by_id.get(id) {
            Some(old) => {
                id_index.put(alloc, id, Some(&**old), &*tuple)?;
                let freed = tuple_len(Form::Two, &**old);
                self.by_id.replace(id, tuple);
                Ok(freed)
            }
            None => {
                add(&mut self.by_id, id_index, alloc, id, tuple)?;
                Ok(0)
            }
        }
    }

    /// Takes out the tuple under the id and returns it; if there is none, nothing changes.
    pub(crate) fn remove(&mut self, id: u64) -> Option<Tuple>
        ensures value { result ≡ map.get self.old id }
        ensures removed { self.new ≡ map.remove self.old id }
    {
        let tuple = self.by_id.remove(id)?;
        Some(Box::into_inner(tuple))
    }

    /// The tuple under the id, if there is one.
    pub(crate) fn get(&self, id: u64) -> Option<&Tuple>
        ensures { option_copied result ≡ map.get self.now id }
    {
        let tuple = self.by_id.get(id)?;
        Some(&**tuple)
    }

    /// How many tuples there are.
    pub(crate) fn len(&self) -> usize
        ensures { result ≡ map.len self.now }
    {
        self.by_id.len()
    }

    /// The least id that is not below `id`; `None` only if there is none.
    pub(crate) fn next_from(&self, id: u64) -> Option<u64>
        ensures found { IfSome result (λ next. IsSome (map.get self.now next)) }
        ensures above { IfSome result (λ next. id ≤ next) }
        ensures least { IfSome result (λ next. (k : ℕ) → id ≤ k → k < next
            → map.get self.now k ≡ None) }
        ensures none { IfNone result ((k : ℕ) → id ≤ k → map.get self.now k ≡ None) }
    {
        self.by_id.next_from(id)
    }

    /// The tuple of the least id that is not below `id`, with that id; `None` only if there is
    /// none.
    pub(crate) fn entry_from(&self, id: u64) -> Option<(u64, &Tuple)>
        ensures found { IfSome result (λ e. map.get self.now e.0 ≡ Some e.1.now) }
        ensures above { IfSome result (λ e. id ≤ e.0) }
        ensures least { IfSome result (λ e. (k : ℕ) → id ≤ k → k < e.0
            → map.get self.now k ≡ None) }
        ensures none { IfNone result ((k : ℕ) → id ≤ k → map.get self.now k ≡ None) }
    {
        let (next, tuple) = self.by_id.entry_from(id)?;
        Some((next, &**tuple))
    }
}

// Puts the tuple under an id that has none, and files the id by it; if memory runs out all stays as
// it is.
fn add<S: IdIndex<Tuple>>(
    by_id: &mut RisingMap<Box<Tuple>>,
    id_index: &mut S,
    alloc: Global,
    id: u64,
    tuple: Box<Tuple>,
) -> Result<(), AllocError>
    requires { map.get by_id.old id ≡ None }
    ensures ok { OnOk result (by_id.new ≡ map.insert by_id.old id tuple) }
    ensures filed { OnOk result
        (Refiles (S.has id_index.old) (S.has id_index.new) id None (Some tuple.value)) }
    ensures err { OnErr result (by_id.new ≡ by_id.old) }
    ensures unfiled { OnErr result
        (Refiles (S.has id_index.old) (S.has id_index.new) id None None) }
{
    by_id.insert(id, tuple)?;
    let Some(kept) = by_id.get(id) else {
        return Ok(());
    };
    match id_index.put(alloc, id, None, &**kept) {
        Ok(()) => Ok(()),
        Err(error) => {
            by_id.remove(id);
            Err(error)
        }
    }
}
