//! `linda_rising` beside std's tree: rows that are put at the end, between others, in falling
//! order, and taken out.

use linda_rising::RisingMap;
use std::alloc::{AllocError, Global};
use std::collections::BTreeMap;

/// Puts a row into both, or in the place of another; whether both say the same.
fn put(
    map: &mut RisingMap<u64>,
    tree: &mut BTreeMap<u64, u64>,
    id: u64,
    row: u64,
) -> Result<bool, AllocError> {
    let old = tree.insert(id, row)?;
    if map.contains(id) {
        return Ok(old == Some(map.replace(id, row)));
    }
    map.insert(id, row)?;
    Ok(old.is_none())
}

/// Whether a walk by one row after the other finds the same in both.
fn walks_alike(map: &RisingMap<u64>, tree: &BTreeMap<u64, u64>) -> bool {
    let mut at: u64 = 0;
    for (id, row) in tree.iter() {
        match map.entry_from(at) {
            Some((next, found)) => {
                if next != *id || *found != *row {
                    return false;
                }
            }
            None => return false,
        }
        at = id.saturating_add(1);
    }
    map.next_from(at).is_none()
}

/// How many rows a walk by runs finds.
fn count_by_runs(map: &RisingMap<u64>) -> usize {
    let mut at: u64 = 0;
    let mut count: usize = 0;
    for _ in 0..10_000 {
        match map.rows_of_block_from(at) {
            Some(run) => {
                count = count.saturating_add(run.rows.len());
                match run.next {
                    Some(next) => at = next,
                    None => return count,
                }
            }
            None => return count,
        }
    }
    count
}

fn are_alike(map: &RisingMap<u64>, tree: &BTreeMap<u64, u64>) -> bool {
    map.len() == tree.len() && walks_alike(map, tree) && count_by_runs(map) == tree.len()
}

/// Ids in rising order, then in falling order from above, so that blocks are made two; then
/// some taken out and put again; then all taken out.
fn play(alloc: Global) -> Result<bool, AllocError> {
    let mut map: RisingMap<u64> = RisingMap::new(alloc);
    let mut tree: BTreeMap<u64, u64> = BTreeMap::new(alloc);
    let mut same = true;
    for id in 0..1_000 {
        same = put(&mut map, &mut tree, id, id)? && same;
    }
    for id in 0..1_000 {
        same = put(&mut map, &mut tree, 3_000 - id, id)? && same;
    }
    same = are_alike(&map, &tree) && same;
    let mut state: u64 = 42;
    for round in 0..4_000 {
        state = state
            .wrapping_mul(6364136223846793005)
            .wrapping_add(1442695040888963407);
        let id = (state >> 33) % 4_096;
        if state % 7 < 4 {
            same = map.remove(id) == tree.remove(&id) && same;
        } else {
            same = put(&mut map, &mut tree, id, round)? && same;
        }
    }
    same = are_alike(&map, &tree) && same;
    for id in 0..4_096 {
        same = map.remove(id) == tree.remove(&id) && same;
    }
    Ok(same && are_alike(&map, &tree) && map.len() == 0)
}

#[test]
fn a_map_answers_as_an_ordered_tree(rt: HostRuntime) -> Result<(), AllocError> {
    assert!(rt; play(rt.alloc())?);
    Ok(())
}
