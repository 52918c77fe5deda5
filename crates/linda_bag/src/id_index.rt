//! Ids that are filed under what their rows have: what each part of an index promises, and how a
//! part is made of indexes that are under keys. A row may be of any type: in a bag it is a tuple.

ghost use Rattle.std.specs.Prelude.{◌≡◌, ◌↔◌, Option, None, Some, OnOk, OnErr, IfOk, IsTrue};
ghost use Rattle.std.specs.Option.{option_copied};
ghost use Rattle.linda_bag.specs.Filing.{Rows, no_rows, place, IsBare};
ghost use Rattle.linda_bag.specs.Filing.{Refiles, RefilesBy, RefilesAt};

use linda_tuple::Atom;
use std::alloc::{AllocError, Global};
use std::cmp::Ordering;
use std::collections::BTreeMap;

/// What ids may be filed under.
pub trait Key: Ord + Drop {
    /// A copy with memory of its own.
    fn copy(&self, alloc: Global) -> Result<Self, AllocError>
        ensures { IfOk result (λ key. key ≡ self.now) };
}

impl Key for Atom {
    fn copy(&self, alloc: Global) -> Result<Atom, AllocError> {
        self.try_clone(alloc)
    }
}

impl Key for usize {
    fn copy(&self, _alloc: Global) -> Result<usize, AllocError> {
        Ok(*self)
    }
}

/// A part of an index: ids of rows.
pub trait IdIndex<T>: Drop {
    // the index has the ids of these rows and no others, each filed by its row
    ghost has: { Self → Rows T → Type 0 };

    /// An index without ids.
    fn empty(alloc: Global) -> Self
        ensures { has result no_rows };

    /// Files the id by the row `new`, and no longer by the row `old` that it was filed by before.
    ///
    /// # Errors
    ///
    /// `AllocError` if memory runs out, and then each id is filed as before.
    fn put<'a>(
        &mut self,
        alloc: Global,
        id: u64,
        old: Option<&'a T>,
        new: &'a T,
    ) -> Result<(), AllocError>
        ensures ok { OnOk result (Refiles (has self.old) (has self.new)
            id (option_copied old.entry) (Some new.now)) }
        ensures err { OnErr result (Refiles (has self.old) (has self.new)
            id (option_copied old.entry) (option_copied old.entry)) };

    /// Takes out the id, which is filed by the row.
    fn remove(&mut self, id: u64, row: &T)
        ensures { Refiles (has self.old) (has self.new) id (Some row.now) None };

    /// Whether there is no id.
    fn is_empty(&self) -> bool
        ensures { (rows : Rows T) → has self.now rows → (IsTrue result ↔ IsBare rows) };
}

/// Files the id under one key in place of another: by `old` it was filed before, by `new` it is
/// filed now. Each is a key and the row that has it, or `None` if the row has no such key, or if
/// there is no row.
///
/// # Errors
///
/// `AllocError` if memory runs out, and then each id is filed as before.
pub fn refile<'a, K: Key, T, S: IdIndex<T>>(
    id_indexes: &mut BTreeMap<K, S>,
    alloc: Global,
    id: u64,
    old: Option<(&'a K, &'a T)>,
    new: Option<(&'a K, &'a T)>,
) -> Result<(), AllocError>
    ensures ok { OnOk result (RefilesBy K.cmp S.has id_indexes.old id_indexes.new
        id (place old.entry) (place new.entry)) }
    ensures err { OnErr result (RefilesBy K.cmp S.has id_indexes.old id_indexes.new
        id (place old.entry) (place old.entry)) }
{
    let Some((key, row)) = new else {
        unfile_if_any(id_indexes, id, old);
        return Ok(());
    };
    let Some((old_key, old_row)) = old else {
        return file(id_indexes, alloc, id, key, None, row);
    };
    if let Ordering::Equal = old_key.cmp(key) {
        return file(id_indexes, alloc, id, key, Some(old_row), row);
    }
    file(id_indexes, alloc, id, key, None, row)?;
    take(id_indexes, id, old_key, old_row);
    Ok(())
}

/// Files the id by the row `new` under its key, in place of the row `old`, if it was filed by that;
/// on a new index if there is none under the key.
fn file<'a, K: Key, T, S: IdIndex<T>>(
    id_indexes: &mut BTreeMap<K, S>,
    alloc: Global,
    id: u64,
    key: &K,
    old: Option<&'a T>,
    new: &'a T,
) -> Result<(), AllocError>
    ensures ok { OnOk result (RefilesAt K.cmp S.has id_indexes.old id_indexes.new key.now
        id (option_copied old.entry) (Some new.now)) }
    ensures err { OnErr result (RefilesAt K.cmp S.has id_indexes.old id_indexes.new key.now
        id (option_copied old.entry) (option_copied old.entry)) }
{
    if let Some(id_index) = id_indexes.get_mut(key) {
        return id_index.put(alloc, id, old, new);
    }
    let mut id_index = S::empty(alloc);
    id_index.put(alloc, id, None, new)?;
    id_indexes.insert(key.copy(alloc)?, id_index)?;
    Ok(())
}

/// Takes out the id, which is filed under the key of the row; and the index under that key, if it
/// is empty then.
pub fn unfile<K: Key, T, S: IdIndex<T>>(id_indexes: &mut BTreeMap<K, S>, id: u64, key: &K, row: &T)
    ensures { RefilesBy K.cmp S.has id_indexes.old id_indexes.new id
        (Some (key.now, row.now)) None }
{
    take(id_indexes, id, key, row);
}

/// Takes out the id, which is filed by `old`, if it is filed at all.
pub(crate) fn unfile_if_any<'a, K: Key, T, S: IdIndex<T>>(
    id_indexes: &mut BTreeMap<K, S>,
    id: u64,
    old: Option<(&'a K, &'a T)>,
)
    ensures { RefilesBy K.cmp S.has id_indexes.old id_indexes.new id (place old.entry) None }
{
    if let Some((key, row)) = old {
        unfile(id_indexes, id, key, row);
    }
}

// Takes the id from the index under the key, and removes that index if it is empty then.
fn take<K: Key, T, S: IdIndex<T>>(id_indexes: &mut BTreeMap<K, S>, id: u64, key: &K, row: &T)
    ensures { RefilesAt K.cmp S.has id_indexes.old id_indexes.new key.now id (Some row.now) None }
{
    let mut is_bare = false;
    if let Some(id_index) = id_indexes.get_mut(key) {
        id_index.remove(id, row);
        is_bare = id_index.is_empty();
    }
    if is_bare {
        id_indexes.remove(key);
    }
}
