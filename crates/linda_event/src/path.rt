//! Paths to a base: its labels, and the nack numbers that are raised.

ghost use Rattle.std.specs.Prelude.{◌≡◌, ◌++◌, map, option_map, IfOk};
ghost use Rattle.linda_event.specs.Trees.{tree_of};
ghost use Rattle.linda_event.specs.Paths.{leaves, place_of, labels_above, nacks_beside};
ghost use Rattle.linda_event.specs.Paths.{labels, raised, all_nacks};
ghost use Rattle.linda_event.specs.Ways.{IsFound, leaf_under, way_under};

use crate::event::Event;
use std::alloc::{AllocError, Global};

/// The labels above the base of this number, innermost first; none if there is no such base. Time
/// is linear in the event.
///
/// # Errors
///
/// `AllocError` if memory runs out.
pub fn labels_of(alloc: Global, event: &Event, base: usize) -> Result<Vec<u64>, AllocError>
    ensures { IfOk result (λ v. v.items ≡ labels (tree_of event.now) base) }
{
    let place = find(alloc, event, base)?;
    let mut found = Vec::new(alloc);
    push_labels(event, way_to(&place), &mut found)?;
    found.reverse();
    Ok(found)
}

/// What a commitment to the base of this number raises: the numbers of all nack nodes that are not
/// above it, one for each node, in tree order, a node before those below it. If there is no such
/// base, all of them. Time is linear in the event.
///
/// # Errors
///
/// `AllocError` if memory runs out.
pub fn nacks_of(alloc: Global, event: &Event, base: usize) -> Result<Vec<u64>, AllocError>
    ensures { IfOk result (λ v. v.items ≡ raised (tree_of event.now) base) }
{
    let place = find(alloc, event, base)?;
    let mut found = Vec::new(alloc);
    push_raised(event, way_to(&place), &mut found)?;
    Ok(found)
}

/// What is raised if nothing is chosen: the numbers of all nack nodes, one for each node, in tree
/// order, a node before those below it.
///
/// # Errors
///
/// `AllocError` if memory runs out.
pub fn all_nacks(alloc: Global, event: &Event) -> Result<Vec<u64>, AllocError>
    ensures { IfOk result (λ v. v.items ≡ all_nacks (tree_of event.now)) }
{
    let mut found = Vec::new(alloc);
    push_raised(event, None, &mut found)?;
    Ok(found)
}

// The place of the base of this number: the member numbers that lead there from the root.
fn find(alloc: Global, event: &Event, base: usize) -> Result<Option<Vec<usize>>, AllocError>
    ensures { IfOk result (λ o. option_map (λ v. v.items) o ≡ place_of (tree_of event.now) base) }
{
    let mut place = Vec::new(alloc);
    let rest = descend(event, base, &mut place)?;
    Ok(if rest.is_none() { Some(place) } else { None })
}

// Appends the way to the base after so many others, and answers `None`; or appends nothing, and
// answers how many of them are still to be passed after all bases of the event.
#[cycle(descent)]
fn descend(
    event: &Event,
    mut left: usize,
    place: &mut Vec<usize>,
) -> Result<Option<usize>, AllocError>
    ensures { IfOk result (λ rest.
        IsFound (leaves (tree_of event.now)) left place.old.items place.new.items rest) }
{
    match event {
        Event::Choose(members) => {
            for (number, member) in members.iter().enumerate() {
                match enter(member, number, left, place)? {
                    None => return Ok(None),
                    Some(rest) => left = rest,
                }
            }
            Ok(Some(left))
        }
        Event::Wrap(_, below) => enter(below, 0, left, place),
        Event::Nack(_, below) => enter(below, 0, left, place),
        _ => Ok(left.checked_sub(1)),
    }
}

#[cycle(descent)]
fn enter(
    member: &Event,
    number: usize,
    left: usize,
    place: &mut Vec<usize>,
) -> Result<Option<usize>, AllocError>
    ensures { IfOk result (λ rest.
        IsFound (map (leaf_under number) (leaves (tree_of member.now)))
        left place.old.items place.new.items rest) }
{
    place.push(number)?;
    let rest = descend(member, left, place)?;
    if rest.is_some() {
        place.pop();
    }
    Ok(rest)
}

fn way_to(place: &Option<Vec<usize>>) -> Option<&[usize]>
    ensures { option_map (λ s. s.now) result ≡ option_map (λ v. v.items) place.now }
{
    match place {
        Some(place) => Some(place.as_slice()),
        None => None,
    }
}

// What is left of the way to a place after the member of this number, if it leads there.
fn way_in<'a>(way: Option<&'a [usize]>, number: usize) -> Option<&'a [usize]>
    ensures { option_map (λ s. s.now) result
        ≡ way_under number (option_map (λ s. s.now) way.entry) }
{
    match way {
        Some([first, rest @ ..]) if number == *first => Some(rest),
        _ => None,
    }
}

fn push_labels(event: &Event, way: Option<&[usize]>, found: &mut Vec<u64>) -> Result<(), AllocError>
    ensures { IfOk result (λ _.
        found.new.items ≡ found.old.items
        ++ labels_above (option_map (λ s. s.now) way.entry) (tree_of event.now)) }
{
    if way.is_none() {
        return Ok(());
    }
    match event {
        Event::Choose(members) => {
            for (number, member) in members.iter().enumerate() {
                push_labels(member, way_in(way, number), found)?;
            }
        }
        Event::Wrap(label, below) => {
            found.push(*label)?;
            push_labels(below, way_in(way, 0), found)?;
        }
        Event::Nack(_, below) => push_labels(below, way_in(way, 0), found)?,
        _ => {}
    }
    Ok(())
}

fn push_raised(event: &Event, way: Option<&[usize]>, found: &mut Vec<u64>) -> Result<(), AllocError>
    ensures { IfOk result (λ _.
        found.new.items ≡ found.old.items
        ++ nacks_beside (option_map (λ s. s.now) way.entry) (tree_of event.now)) }
{
    match event {
        Event::Choose(members) => {
            for (number, member) in members.iter().enumerate() {
                push_raised(member, way_in(way, number), found)?;
            }
        }
        Event::Wrap(_, below) => push_raised(below, way_in(way, 0), found)?,
        Event::Nack(number, below) => {
            if way.is_none() {
                found.push(*number)?;
            }
            push_raised(below, way_in(way, 0), found)?;
        }
        _ => {}
    }
    Ok(())
}
