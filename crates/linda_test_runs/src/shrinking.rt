//! Shrinking of a run that differs: events are left out as long as it still does.

use crate::course::Course;
use crate::playing::Player;
use std::alloc::{AllocError, Global};

/// How often a run is played at most.
const MOST_PLAYS: u32 = 20_000;

/// A run that differs with few events, if the whole one differs.
pub fn shrink<P: Player>(
    player: &mut P,
    alloc: Global,
    course: &Course,
) -> Result<Option<Course>, AllocError> {
    let Some(count) = difference(player, alloc, course)? else {
        return Ok(None);
    };
    let mut list = course.first(alloc, count)?;
    let mut start: usize = 0;
    let mut piece = list.len() / 2;
    for _ in 0..MOST_PLAYS {
        if start >= list.len() {
            if piece <= 1 {
                break;
            }
            start = 0;
            piece /= 2;
        }
        let shorter = course.with(without(alloc, &list, start, piece.max(1))?);
        match difference(player, alloc, &shorter)? {
            Some(count) => list = shorter.first(alloc, count)?,
            None => start = start.saturating_add(piece.max(1)),
        }
    }
    Ok(Some(course.with(list)))
}

// After how many events the run differs, if it does.
fn difference<P: Player>(
    player: &mut P,
    alloc: Global,
    course: &Course,
) -> Result<Option<u64>, AllocError> {
    let (tally, fault) = player.play(alloc, course)?;
    Ok(fault.map(|_| tally.events))
}

// The events but for so many from this place on.
fn without(
    alloc: Global,
    list: &[u64],
    start: usize,
    count: usize,
) -> Result<Vec<u64>, AllocError> {
    let mut shorter = Vec::new(alloc);
    let end = start.saturating_add(count);
    let mut at: usize = 0;
    for number in list {
        if at < start || at >= end {
            shorter.push(*number)?;
        }
        at = at.saturating_add(1);
    }
    Ok(shorter)
}
