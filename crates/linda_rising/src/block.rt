//! Rows under ids that rise, in one piece of memory.

ghost use Rattle.std.specs.Prelude.{◌≡◌, ◌<◌, ◌≤◌, ◌∷◌, ℕ, [], length, true};
ghost use Rattle.std.specs.Prelude.{Some, None, OnOk, OnErr, IfOk, IsSome};
ghost use Rattle.std.specs.Option.{option_copied};
ghost use Rattle.std.specs.List.{insert};
ghost use Rattle.linda_rising.specs.Rows.{at, ids_of, Rises, IsPlace, Sets, Halves, IsRun};

use std::alloc::{AllocError, Global};
use std::marker::Model;
use std::mem;

/// Some rows of a map, and an id that none of theirs is below. The id is kept beside the pointer to
/// the rows, so that a search for a block reads memory that lies together.
#[derive(Drop)]
pub(crate) struct Block<T> {
    from: u64,
    rows: Vec<(u64, T)>,
}

impl<T> Model for Block<T> {
    ghost use Rattle.std.specs.Prelude.{ℕ, List};
    ghost use Rattle.linda_rising.specs.Rows.{Rises, ids_of};

    ghost Value = { ℕ × List (ℕ × T) };

    ghost view = { λ b. (b.from, b.rows.items) };

    ghost invariant = { λ b. Rises (ids_of b.rows.items) };
}

impl<T: Drop> Block<T> {
    /// A block of one row, with room for so many.
    pub(crate) fn of(alloc: Global, room: usize, id: u64, row: T) -> Result<Block<T>, AllocError>
        ensures { IfOk result (λ block. block ≡ (id, (id, row) ∷ [])) }
    {
        let mut rows = Vec::with_capacity(alloc, room)?;
        rows.push((id, row))?;
        Ok(Block { from: id, rows })
    }

    /// Puts a row under an id that has none.
    ///
    /// # Errors
    ///
    /// `AllocError` if memory runs out, and then nothing changes.
    pub(crate) fn insert(&mut self, id: u64, row: T) -> Result<(), AllocError>
        requires { at self.old.1 id ≡ None }
        ensures ok { OnOk result (Sets self.old.1 self.new.1 id (Some row)) }
        ensures from { OnOk result (self.new.0 ≤ self.old.0) }
        ensures above { OnOk result (self.old.0 ≤ id → self.new.0 ≡ self.old.0) }
        ensures below { OnOk result (self.new.0 ≤ id) }
        ensures err { OnErr result (self.new ≡ self.old) }
    {
        let place = place(self.rows.as_slice(), id);
        insert_at(&mut self.rows, place, (id, row))?;
        self.from = self.from.min(id);
        Ok(())
    }

    /// Puts a row in the place of the one under the id, and gives that one.
    pub(crate) fn replace(&mut self, id: u64, row: T) -> T
        requires { IsSome (at self.old.1 id) }
        ensures value { Some result ≡ at self.old.1 id }
        ensures rows { Sets self.old.1 self.new.1 id (Some row) }
        ensures from { self.new.0 ≡ self.old.0 }
    {
        let place = place(self.rows.as_slice(), id);
        let (_, old) = mem::replace(&mut self.rows[place], (id, row));
        old
    }

    /// Takes out the row under the id.
    pub(crate) fn remove(&mut self, id: u64) -> Option<T>
        ensures value { result ≡ at self.old.1 id }
        ensures rows { Sets self.old.1 self.new.1 id None }
        ensures from { self.new.0 ≡ self.old.0 }
    {
        let place = place(self.rows.as_slice(), id);
        if place < self.rows.len() && self.rows[place].0 == id {
            let (_, row) = self.rows.remove(place);
            trim(&mut self.rows);
            return Some(row);
        }
        None
    }

    /// Moves the upper half of the rows into a block of their own.
    ///
    /// # Errors
    ///
    /// `AllocError` if memory runs out, and then nothing changes.
    pub(crate) fn split(&mut self) -> Result<Block<T>, AllocError>
        requires { 1 < length self.old.1 }
        ensures ok { IfOk result (λ upper. Halves self.old self.new upper) }
        ensures err { OnErr result (self.new ≡ self.old) }
    {
        let half = self.rows.len() / 2;
        let rows = self.rows.split_off(half)?;
        let from = rows[0].0;
        Ok(Block { from, rows })
    }
}

impl<T> Block<T> {
    /// The id that no row's is below.
    pub(crate) fn from(&self) -> u64
        ensures { result ≡ self.now.0 }
    {
        self.from
    }

    /// How many rows there are.
    pub(crate) fn len(&self) -> usize
        ensures { result ≡ length self.now.1 }
    {
        self.rows.len()
    }

    /// Whether the id is above those of all rows.
    pub(crate) fn is_past(&self, id: u64) -> bool
        ensures { result ≡ true → (q : ℕ) → IsSome (at self.now.1 q) → q < id }
    {
        place(self.rows.as_slice(), id) == self.rows.len()
    }

    /// The row under the id.
    pub(crate) fn get(&self, id: u64) -> Option<&T>
        ensures { option_copied result ≡ at self.now.1 id }
    {
        let rows = self.rows.as_slice();
        let place = place(rows, id);
        if place < rows.len() && rows[place].0 == id {
            return Some(&rows[place].1);
        }
        None
    }

    /// The rows from the id on.
    pub(crate) fn rows_of_block_from(&self, id: u64) -> &[(u64, T)]
        ensures run { IsRun id result.now }
        ensures all { (q : ℕ) → id ≤ q → at result.now q ≡ at self.now.1 q }
    {
        let rows = self.rows.as_slice();
        &rows[place(rows, id)..]
    }
}

// How many of the rows have lower ids.
fn place<T>(rows: &[(u64, T)], id: u64) -> usize
    requires { Rises (ids_of rows.now) }
    ensures { IsPlace (ids_of rows.now) id result }
{
    match rows.last() {
        Some(last) => {
            if last.0 < id {
                return rows.len();
            }
            if last.0 == id {
                return rows.len() - 1;
            }
        }
        None => return 0,
    }
    rows.partition_point(|row| row.0 < id)
}

// Puts the row at the place: at the end without moving any other.
fn insert_at<T: Drop>(
    rows: &mut Vec<(u64, T)>,
    place: usize,
    row: (u64, T),
) -> Result<(), AllocError>
    requires { place ≤ length rows.old.items }
    ensures ok { OnOk result (rows.new.items ≡ insert rows.old.items place row) }
    ensures err { OnErr result (rows.new.items ≡ rows.old.items) }
{
    if place == rows.len() {
        rows.push(row)?;
        return Ok(());
    }
    rows.insert(place, row)?;
    Ok(())
}

// Gives memory back if the rows need a quarter of it at most.
fn trim<T>(rows: &mut Vec<(u64, T)>)
    ensures { rows.new.items ≡ rows.old.items }
{
    let len = rows.len();
    if len <= rows.capacity() / 4 {
        rows.shrink_to(len.saturating_mul(2));
    }
}
