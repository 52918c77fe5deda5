//! Checks that an event is within its limits.

ghost use Rattle.std.specs.Prelude.{◌≡◌, ◌↔◌, ◌+◌, min, length, ltb, true, count_by, IsOk, IsErrOf};
ghost use Rattle.std.specs.List.{list_any};
ghost use Rattle.linda_event.specs.declared.limits.TheConstants.{MAX_DEPTH};
ghost use Rattle.linda_event.specs.Trees.{tree_of};
ghost use Rattle.linda_event.specs.Paths.{leaves, bases_of};
ghost use Rattle.linda_event.specs.Limits.{is_ask, is_too_deep, IsWithinLimits};

use crate::event::Event;
use crate::limits::{MAX_ASKS, MAX_BASES, MAX_DEPTH};
use thiserror::Error;

/// Why an event is refused. Its depth is judged first.
#[derive(Clone, Copy, Debug, PartialEq, Eq, Error)]
pub enum EventFault {
    /// A leaf is under more than 64 choices, labels and nack numbers.
    #[error("an event that is nested too deeply")]
    TooDeep,
    /// The event has more than 256 bases, or more than 64 of them are inputs or reads.
    #[error("too many bases")]
    TooManyBases,
}

/// Whether an event is within its limits. Takes no memory, and time linear in the event.
///
/// # Errors
///
/// `TooDeep` if a leaf is under more than 64 choices, labels and nack numbers, however many are
/// above no leaf; else `TooManyBases` if the event has more than 256 bases, or more than 64 of them
/// are inputs or reads.
pub fn check(event: &Event) -> Result<(), EventFault>
    ensures within { IsOk result ↔ IsWithinLimits (tree_of event.now) }
    ensures deep { IsErrOf result EventFault.TooDeep ↔ (is_too_deep (tree_of event.now) ≡ true) }
{
    if is_deep(event, 0) {
        return Err(EventFault::TooDeep);
    }
    if base_count(event) > MAX_BASES || ask_count(event) > MAX_ASKS {
        return Err(EventFault::TooManyBases);
    }
    Ok(())
}

/// How many bases the event has, or `usize::MAX` if it has more. Takes no memory.
pub fn base_count(event: &Event) -> usize
    ensures { result ≡ min (length (bases_of (tree_of event.now))) usize.MAX }
{
    match event {
        Event::Choose(members) => {
            let mut count: usize = 0;
            for member in members {
                count = count.saturating_add(base_count(member));
            }
            count
        }
        Event::Wrap(_, below) => base_count(below),
        Event::Nack(_, below) => base_count(below),
        _ => 1,
    }
}

/// How many of the event's bases are inputs or reads, or `usize::MAX` if there are more. Takes no
/// memory.
pub fn ask_count(event: &Event) -> usize
    ensures { result ≡ min (count_by is_ask (bases_of (tree_of event.now))) usize.MAX }
{
    match event {
        Event::Input(_) => 1,
        Event::Read(_) => 1,
        Event::Choose(members) => {
            let mut count: usize = 0;
            for member in members {
                count = count.saturating_add(ask_count(member));
            }
            count
        }
        Event::Wrap(_, below) => ask_count(below),
        Event::Nack(_, below) => ask_count(below),
        _ => 0,
    }
}

// Whether some leaf of the event is under more than 64 nodes, of which so many are above the event.
fn is_deep(event: &Event, above: usize) -> bool
    ensures { result ≡ list_any (λ leaf. ltb MAX_DEPTH (above + length leaf.0))
        (leaves (tree_of event.now)) }
{
    match event {
        Event::Choose(members) => {
            for member in members {
                if is_deep(member, above.saturating_add(1)) {
                    return true;
                }
            }
            false
        }
        Event::Wrap(_, below) => is_deep(below, above.saturating_add(1)),
        Event::Nack(_, below) => is_deep(below, above.saturating_add(1)),
        _ => above > MAX_DEPTH,
    }
}
