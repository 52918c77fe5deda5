//! Blocks of rows, one after another by rising ids. Each has a row: one that is emptied goes.

ghost use Rattle.std.specs.Prelude.{◌≡◌, ◌<◌, ℕ, length, Some, None, OnOk, OnErr, IsSome};
ghost use Rattle.std.specs.Prelude.{◌≤◌, slice_index_or, [], ◌∷◌, IfSome, IfNone};
ghost use Rattle.std.specs.Option.{option_copied};
ghost use Rattle.linda_rising.specs.Rows.{at, all_rows, IsRising, IsFor, IsFrom, Sets, Begins};

use crate::block::Block;
use std::alloc::{AllocError, Global};
use std::collections::VecDeque;

/// So many rows a block has at most.
const FULL: usize = 128;

/// The row under the id.
pub(crate) fn get<T>(blocks: &VecDeque<Block<T>>, id: u64) -> Option<&T>
    requires { IsRising blocks.now.items }
    ensures { option_copied result ≡ at (all_rows blocks.now.items) id }
{
    if blocks.is_empty() {
        return None;
    }
    let block = &blocks[place_of(blocks, id)];
    block.get(id)
}

/// Rows of one block, and the id from which on those of the next one are.
#[derive(Drop)]
pub struct Run<'a, T> {
    pub rows: &'a [(u64, T)],
    pub next: Option<u64>,
}

/// The rows from the id on that are in one block with the first of them.
pub(crate) fn rows_of_block_from<T>(blocks: &VecDeque<Block<T>>, id: u64) -> Option<Run<'_, T>>
    requires { IsRising blocks.now.items }
    ensures run { IfSome result (λ run.
        Begins (at (all_rows blocks.now.items)) id run.rows.now run.next) }
    ensures none { IfNone result ((q : ℕ) → id ≤ q → at (all_rows blocks.now.items) q ≡ None) }
{
    if blocks.is_empty() {
        return None;
    }
    let place = place_of(blocks, id);
    let block = &blocks[place];
    let rows = block.rows_of_block_from(id);
    if !rows.is_empty() {
        let next = from_of(blocks, place + 1);
        return Some(Run { rows, next });
    }
    if place + 1 < blocks.len() {
        let block = &blocks[place + 1];
        let rows = block.rows_of_block_from(id);
        let next = from_of(blocks, place + 2);
        return Some(Run { rows, next });
    }
    None
}

// The id that no row of the block is below, if there is a block at the place.
fn from_of<T>(blocks: &VecDeque<Block<T>>, place: usize) -> Option<u64>
    ensures { IsFrom blocks.now.items place result }
{
    match blocks.get(place) {
        Some(block) => Some(block.from()),
        None => None,
    }
}

/// Puts a row under an id that has none.
///
/// # Errors
///
/// `AllocError` if memory runs out, and then the rows are as before.
pub(crate) fn insert<T: Drop>(
    alloc: Global,
    blocks: &mut VecDeque<Block<T>>,
    id: u64,
    row: T,
) -> Result<(), AllocError>
    requires rising { IsRising blocks.old.items }
    requires absent { at (all_rows blocks.old.items) id ≡ None }
    ensures ok { OnOk result
        (Sets (all_rows blocks.old.items) (all_rows blocks.new.items) id (Some row)) }
    ensures rising { IsRising blocks.new.items }
    ensures err { OnErr result (all_rows blocks.new.items ≡ all_rows blocks.old.items) }
{
    if blocks.is_empty() {
        return begin(alloc, blocks, id, row);
    }
    let place = place_of(blocks, id);
    if blocks[place].len() < FULL {
        return insert_at(blocks, place, id, row);
    }
    if place + 1 == blocks.len() && blocks[place].is_past(id) {
        return add(alloc, blocks, id, row);
    }
    split(blocks, place)?;
    let place = place_of(blocks, id);
    insert_at(blocks, place, id, row)
}

/// Puts a row in the place of the one under the id, and gives that one.
pub(crate) fn replace<T: Drop>(blocks: &mut VecDeque<Block<T>>, id: u64, row: T) -> T
    requires rising { IsRising blocks.old.items }
    requires there { IsSome (at (all_rows blocks.old.items) id) }
    ensures value { Some result ≡ at (all_rows blocks.old.items) id }
    ensures rows { Sets (all_rows blocks.old.items) (all_rows blocks.new.items) id (Some row) }
    ensures rising { IsRising blocks.new.items }
{
    let place = place_of(blocks, id);
    let block = &mut blocks[place];
    block.replace(id, row)
}

/// Takes out the row under the id.
pub(crate) fn remove<T: Drop>(blocks: &mut VecDeque<Block<T>>, id: u64) -> Option<T>
    requires { IsRising blocks.old.items }
    ensures value { result ≡ at (all_rows blocks.old.items) id }
    ensures rows { Sets (all_rows blocks.old.items) (all_rows blocks.new.items) id None }
    ensures rising { IsRising blocks.new.items }
{
    if blocks.is_empty() {
        return None;
    }
    let place = place_of(blocks, id);
    remove_at(blocks, place, id)
}

// The place of the block that may have a row under the id, or get it: the last one that begins at
// or below the id, else the first. The last one and the first are tried before a search.
fn place_of<T>(blocks: &VecDeque<Block<T>>, id: u64) -> usize
    requires rising { IsRising blocks.now.items }
    requires some { 0 < length blocks.now.items }
    ensures { IsFor blocks.now.items id result }
{
    let last = blocks.len() - 1;
    if blocks[last].from() <= id {
        return last;
    }
    if last == 0 || id < blocks[1].from() {
        return 0;
    }
    search(blocks, id)
}

// The same by a search.
fn search<T>(blocks: &VecDeque<Block<T>>, id: u64) -> usize
    requires rising { IsRising blocks.now.items }
    requires some { 0 < length blocks.now.items }
    ensures { IsFor blocks.now.items id result }
{
    let begun = blocks.partition_point(|block| block.from() <= id);
    begun.saturating_sub(1)
}

// Puts the first row.
fn begin<T: Drop>(
    alloc: Global,
    blocks: &mut VecDeque<Block<T>>,
    id: u64,
    row: T,
) -> Result<(), AllocError>
    requires { blocks.old.items ≡ [] }
    ensures ok { OnOk result (blocks.new.items ≡ (id, (id, row) ∷ []) ∷ []) }
    ensures err { OnErr result (blocks.new.items ≡ []) }
{
    blocks.reserve_exact(1)?;
    let block = Block::of(alloc, 0, id, row)?;
    blocks.push_back(block)?;
    Ok(())
}

// Puts a row at the end, in a block of its own.
fn add<T: Drop>(
    alloc: Global,
    blocks: &mut VecDeque<Block<T>>,
    id: u64,
    row: T,
) -> Result<(), AllocError>
    requires rising { IsRising blocks.old.items }
    requires past { (q : ℕ) → IsSome (at (all_rows blocks.old.items) q) → q < id }
    ensures ok { OnOk result
        (Sets (all_rows blocks.old.items) (all_rows blocks.new.items) id (Some row)) }
    ensures rising { IsRising blocks.new.items }
    ensures err { OnErr result (all_rows blocks.new.items ≡ all_rows blocks.old.items) }
{
    let block = Block::of(alloc, FULL, id, row)?;
    blocks.push_back(block)?;
    Ok(())
}

// Puts a row into the block that is there for it.
fn insert_at<T: Drop>(
    blocks: &mut VecDeque<Block<T>>,
    place: usize,
    id: u64,
    row: T,
) -> Result<(), AllocError>
    requires rising { IsRising blocks.old.items }
    requires place { IsFor blocks.old.items id place }
    requires absent { at (all_rows blocks.old.items) id ≡ None }
    ensures ok { OnOk result
        (Sets (all_rows blocks.old.items) (all_rows blocks.new.items) id (Some row)) }
    ensures rising { IsRising blocks.new.items }
    ensures err { OnErr result (all_rows blocks.new.items ≡ all_rows blocks.old.items) }
{
    let block = &mut blocks[place];
    block.insert(id, row)?;
    Ok(())
}

// Takes the row from the block that may have it, and that block away if it is empty then.
fn remove_at<T: Drop>(blocks: &mut VecDeque<Block<T>>, place: usize, id: u64) -> Option<T>
    requires rising { IsRising blocks.old.items }
    requires place { IsFor blocks.old.items id place }
    ensures value { result ≡ at (all_rows blocks.old.items) id }
    ensures rows { Sets (all_rows blocks.old.items) (all_rows blocks.new.items) id None }
    ensures rising { IsRising blocks.new.items }
{
    let block = &mut blocks[place];
    let row = block.remove(id);
    let is_bare = block.len() == 0;
    if is_bare {
        blocks.remove(place);
    }
    row
}

// Makes two blocks of one.
fn split<T: Drop>(blocks: &mut VecDeque<Block<T>>, place: usize) -> Result<(), AllocError>
    requires rising { IsRising blocks.old.items }
    requires within { place < length blocks.old.items }
    requires many { 1 < length (slice_index_or blocks.old.items place (0, [])).1 }
    ensures same { all_rows blocks.new.items ≡ all_rows blocks.old.items }
    ensures rising { IsRising blocks.new.items }
    ensures some { 0 < length blocks.new.items }
{
    blocks.reserve(1)?;
    let block = &mut blocks[place];
    let upper = block.split()?;
    blocks.insert(place + 1, upper)?;
    Ok(())
}
