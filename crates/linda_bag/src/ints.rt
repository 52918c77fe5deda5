//! Sets of ids under integers, in blocks by the order of the integers. Most rows begin with
//! integers that rise: so a new one goes to the end, without a search.

ghost use Rattle.std.specs.Prelude.{◌≡◌, ℤ, pos, ◌↔◌, None, Some, OnOk, OnErr};
ghost use Rattle.std.specs.Prelude.{IsSome, IsTrue};
ghost use Rattle.std.specs.Option.{option_copied};
ghost use Rattle.std.specs.Ordering.{nat_cmp, int_cmp};
ghost use Rattle.std.specs.FinMap as map;
ghost use Rattle.linda_bag.specs.Filing.{place, RefilesFound, RefilesUnder};
ghost use Rattle.linda_bag.specs.Ids.{IsOf};
ghost use Rattle.linda_bag.specs.Ints.{counted, ids_at};

use crate::id_index::IdIndex;
use crate::ids::Ids;
use linda_rising::RisingMap;
use std::alloc::{AllocError, Global};
use std::cmp::Ordering;

/// The set under the integer.
pub(crate) fn find<'a>(sets: &'a RisingMap<Ids>, int: &i64) -> Option<&'a Ids>
    ensures { option_copied result ≡ ids_at sets.now int.now }
{
    sets.get(code_of(int))
}

/// Whether there is no set.
pub(crate) fn is_empty(sets: &RisingMap<Ids>) -> bool
    ensures { IsTrue result ↔ ((q : ℤ) → ids_at sets.now q ≡ None) }
{
    sets.len() == 0
}

/// Files the id under one integer in place of another: by `old` it was filed before, if at all, and
/// now it is filed by the row, under its integer.
///
/// # Errors
///
/// `AllocError` if memory runs out, and then each id is filed as before.
pub(crate) fn refile<'a, T>(
    sets: &mut RisingMap<Ids>,
    alloc: Global,
    id: u64,
    old: Option<(&'a i64, &'a T)>,
    int: &'a i64,
    row: &'a T,
) -> Result<(), AllocError>
    ensures ok { OnOk result (RefilesFound int_cmp IsOf (ids_at sets.old) (ids_at sets.new)
        id (place old.entry) (Some (int.now, row.now))) }
    ensures err { OnErr result (RefilesFound int_cmp IsOf (ids_at sets.old) (ids_at sets.new)
        id (place old.entry) (place old.entry)) }
{
    let Some((old_int, old_row)) = old else {
        return file(sets, alloc, id, int, None, row);
    };
    if let Ordering::Equal = old_int.cmp(int) {
        return file(sets, alloc, id, int, Some(old_row), row);
    }
    file(sets, alloc, id, int, None, row)?;
    take(sets, id, old_int, old_row);
    Ok(())
}

/// Takes out the id, which is filed by `old`, if it is filed at all.
pub(crate) fn unfile_if_any<'a, T>(
    sets: &mut RisingMap<Ids>,
    id: u64,
    old: Option<(&'a i64, &'a T)>,
)
    ensures { RefilesFound int_cmp IsOf (ids_at sets.old) (ids_at sets.new)
        id (place old.entry) None }
{
    if let Some((int, row)) = old {
        take(sets, id, int, row);
    }
}

// Files the id by the row `new` under the integer, in place of the row `old`, if it was filed by
// that.
fn file<'a, T>(
    sets: &mut RisingMap<Ids>,
    alloc: Global,
    id: u64,
    int: &i64,
    old: Option<&'a T>,
    new: &'a T,
) -> Result<(), AllocError>
    ensures ok { OnOk result (RefilesUnder int_cmp IsOf (ids_at sets.old) (ids_at sets.new)
        int.now id (option_copied old.entry) (Some new.now)) }
    ensures err { OnErr result (RefilesUnder int_cmp IsOf (ids_at sets.old) (ids_at sets.new)
        int.now id (option_copied old.entry) (option_copied old.entry)) }
{
    let code = code_of(int);
    if sets.contains(code) {
        return put_at(sets, alloc, id, code, old, new);
    }
    sets.insert(code, Ids::One(id))
}

// The same in the set that is there under the code.
fn put_at<'a, T>(
    sets: &mut RisingMap<Ids>,
    alloc: Global,
    id: u64,
    code: u64,
    old: Option<&'a T>,
    new: &'a T,
) -> Result<(), AllocError>
    requires { IsSome (map.get sets.old code) }
    ensures ok { OnOk result (RefilesUnder nat_cmp IsOf (map.get sets.old) (map.get sets.new)
        code id (option_copied old.entry) (Some new.now)) }
    ensures err { OnErr result (RefilesUnder nat_cmp IsOf (map.get sets.old) (map.get sets.new)
        code id (option_copied old.entry) (option_copied old.entry)) }
{
    let mut ids = sets.replace(code, Ids::Nothing);
    let done = ids.put(alloc, id, old, new);
    sets.replace(code, ids);
    done
}

// Takes the id, which is filed by the row, from the set under the integer, and the set away if it
// is empty then.
fn take<T>(sets: &mut RisingMap<Ids>, id: u64, int: &i64, row: &T)
    ensures { RefilesUnder int_cmp IsOf (ids_at sets.old) (ids_at sets.new)
        int.now id (Some row.now) None }
{
    let code = code_of(int);
    let Some(ids) = sets.get(code) else {
        return;
    };
    if ids.is_only(id) {
        sets.remove(code);
        return;
    }
    take_at(sets, id, code, row);
}

// The same from the set that is there under the code.
fn take_at<T>(sets: &mut RisingMap<Ids>, id: u64, code: u64, row: &T)
    requires { IsSome (map.get sets.old code) }
    ensures { RefilesUnder nat_cmp IsOf (map.get sets.old) (map.get sets.new)
        code id (Some row.now) None }
{
    let mut ids = sets.replace(code, Ids::Nothing);
    ids.remove(id, row);
    if IdIndex::<T>::is_empty(&ids) {
        sets.remove(code);
    } else {
        sets.replace(code, ids);
    }
}

// The place of the integer among those of 64 bits.
fn code_of(int: &i64) -> u64
    ensures { pos result ≡ counted int.now }
{
    int.abs_diff(i64::MIN)
}
