//! The map from ids that rise.

ghost use Rattle.std.specs.Prelude.{◌≡◌, ◌<◌, ◌≤◌, ℕ, Some, None, OnOk, OnErr, IsSome};
ghost use Rattle.std.specs.Prelude.{IfSome, IfNone};
ghost use Rattle.std.specs.Option.{option_copied};
ghost use Rattle.std.specs.Ordering.{nat_cmp};
ghost use Rattle.std.specs.FinMap as map;
ghost use Rattle.linda_rising.specs.Rows.{Begins};

use crate::block::Block;
use crate::blocks;
use crate::blocks::Run;
use std::alloc::{AllocError, Global};
use std::collections::VecDeque;
use std::marker::Model;

/// A map from ids whose rows are put at the end, as a rule. Contracts see the finite map.
#[derive(Drop)]
pub struct RisingMap<T> {
    alloc: Global,
    len: usize,
    // No row has an id above this one: so a look-up past all rows reads none.
    most: u64,
    blocks: VecDeque<Block<T>>,
}

impl<T> Model for RisingMap<T> {
    ghost use Rattle.std.specs.Prelude.{◌≡◌};
    ghost use Rattle.std.specs.Coded.{coded_ℕ};
    ghost use Rattle.std.specs.Ordering.{nat_cmp};
    ghost use Rattle.std.specs.FinMap as map;
    ghost use Rattle.linda_rising.specs.Rows.{all_rows, IsRising, AreUpTo};

    ghost Value = { map.FinMap nat_cmp T };

    ghost coded = { map.code coded_ℕ T.code };

    ghost view = { λ m. map.from_entries (all_rows m.blocks.items) };

    ghost invariant = { λ m. IsRising m.blocks.items
        × (m.len ≡ map.len (map.from_entries {R = nat_cmp} (all_rows m.blocks.items)))
        × AreUpTo (all_rows m.blocks.items) m.most };
}

impl<T> RisingMap<T> {
    /// How many rows there are.
    pub fn len(&self) -> usize
        ensures { result ≡ map.len self.now }
    {
        self.len
    }

    /// Whether there is a row under the id.
    pub fn contains(&self, id: u64) -> bool
        ensures { result ≡ map.contains_key self.now id }
    {
        self.get(id).is_some()
    }

    /// The row under the id, if there is one.
    pub fn get(&self, id: u64) -> Option<&T>
        ensures { option_copied result ≡ map.get self.now id }
    {
        if id > self.most {
            return None;
        }
        blocks::get(&self.blocks, id)
    }

    /// Some rows from the id on: the first of them, and all that follow it in its block. Takes one
    /// search, so a walk takes one for some hundred rows.
    pub fn rows_of_block_from(&self, id: u64) -> Option<Run<'_, T>>
        ensures run { IfSome result (λ run. Begins (map.get self.now) id run.rows.now run.next) }
        ensures none { IfNone result ((q : ℕ) → id ≤ q → map.get self.now q ≡ None) }
    {
        blocks::rows_of_block_from(&self.blocks, id)
    }

    /// The least id that is not below `id` and has a row, with that row.
    pub fn entry_from(&self, id: u64) -> Option<(u64, &T)>
        ensures found { IfSome result (λ e. map.get self.now e.0 ≡ Some e.1.now) }
        ensures above { IfSome result (λ e. id ≤ e.0) }
        ensures least { IfSome result (λ e. (k : ℕ) → id ≤ k → k < e.0
            → map.get self.now k ≡ None) }
        ensures none { IfNone result ((k : ℕ) → id ≤ k → map.get self.now k ≡ None) }
    {
        match self.rows_of_block_from(id) {
            Some(found) => {
                let first = &found.rows[0];
                Some((first.0, &first.1))
            }
            None => None,
        }
    }

    /// The least id that is not below `id` and has a row.
    pub fn next_from(&self, id: u64) -> Option<u64>
        ensures found { IfSome result (λ next. IsSome (map.get self.now next)) }
        ensures above { IfSome result (λ next. id ≤ next) }
        ensures least { IfSome result (λ next. (k : ℕ) → id ≤ k → k < next
            → map.get self.now k ≡ None) }
        ensures none { IfNone result ((k : ℕ) → id ≤ k → map.get self.now k ≡ None) }
    {
        match self.entry_from(id) {
            Some((next, _)) => Some(next),
            None => None,
        }
    }
}

impl<T: Drop> RisingMap<T> {
    /// No rows. Takes no memory until one is put.
    pub fn new(alloc: Global) -> RisingMap<T>
        ensures { result ≡ map.empty }
    {
        RisingMap {
            alloc,
            len: 0,
            most: 0,
            blocks: VecDeque::new(alloc),
        }
    }

    /// Puts a row under an id that has none.
    ///
    /// # Errors
    ///
    /// `AllocError` if memory runs out, and then nothing changes, and the row is dropped.
    pub fn insert(&mut self, id: u64, row: T) -> Result<(), AllocError>
        requires { map.get self.old id ≡ None }
        ensures ok { OnOk result (self.new ≡ map.insert self.old id row) }
        ensures err { OnErr result (self.new ≡ self.old) }
    {
        let Some(len) = self.len.checked_add(1) else {
            return Err(AllocError);
        };
        blocks::insert(self.alloc, &mut self.blocks, id, row)?;
        self.len = len;
        self.most = greater(self.most, id);
        Ok(())
    }

    /// Puts a row in the place of the one under the id, and gives that one. Takes no memory.
    pub fn replace(&mut self, id: u64, row: T) -> T
        requires { IsSome (map.get self.old id) }
        ensures value { Some result ≡ map.get self.old id }
        ensures row { self.new ≡ map.insert self.old id row }
    {
        blocks::replace(&mut self.blocks, id, row)
    }

    /// Takes out the row under the id and gives it; if there is none, nothing changes. Takes no
    /// memory.
    pub fn remove(&mut self, id: u64) -> Option<T>
        ensures value { result ≡ map.get self.old id }
        ensures removed { self.new ≡ map.remove self.old id }
    {
        match blocks::remove(&mut self.blocks, id) {
            Some(row) => {
                self.len -= 1;
                Some(row)
            }
            None => None,
        }
    }
}

// The greater of both.
fn greater(one: u64, other: u64) -> u64
    ensures one { one ≤ result }
    ensures other { other ≤ result }
{
    if one < other { other } else { one }
}
