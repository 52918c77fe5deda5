//! Events at the front of bytes, node by node.

ghost use Rattle.std.specs.Prelude.{map};
ghost use Rattle.linda_event.specs.Trees.{alarm, always, choose, input, leaf, members_of, nack};
ghost use Rattle.linda_event.specs.Trees.{read, tree_of, wrap};
ghost use Rattle.linda_text.specs.Reading.{after_blanks, made, natural_at, spaced_atom_at};
ghost use Rattle.linda_text.specs.Reading.{template_at};
ghost use Rattle.linda_shell_text.specs.Reading.{event_at, members_at, under_at};
ghost use Rattle.linda_shell_text.specs.Steps.{Gives, lifted};

use crate::fault::EventTextFault;
use crate::keyword::{Keyword, read_keyword};
use crate::token::{open_list, read_label, read_mark};
use linda_event::Event;
use linda_text::{TextFault, skip_blanks, split_number, split_spaced_atom, split_template};
use std::alloc::Global;

/// The event at the front, of at most so many nested nodes, and the bytes after it; `Memory` may
/// be returned before a fault.
#[cycle(node)]
#[tactic(auto, unfolding(crate::specs::Reading::event_at))]
pub(crate) fn build_event(
    alloc: Global,
    bytes: &[u8],
    room: usize,
) -> Result<(Event, &[u8]), EventTextFault>
    ensures { Gives (λ x. (tree_of x.0, x.1.now)) result (event_at room bytes.now) }
{
    if room == 0 {
        return Err(EventTextFault::TooManyNested);
    }
    let (keyword, rest) = read_keyword(bytes)?;
    match keyword {
        Keyword::In => build_input(alloc, rest),
        Keyword::Rd => build_read(alloc, rest),
        Keyword::Alarm => build_alarm(rest),
        Keyword::Always => build_always(alloc, rest),
        Keyword::Never => Ok((Event::Never, rest)),
        Keyword::Choose => build_choice(alloc, rest, room - 1),
        Keyword::Wrap => build_wrap(alloc, rest, room - 1),
        Keyword::Nack => build_nack(alloc, rest, room - 1),
    }
}

// What comes after the keyword of an input, and the bytes after that.
fn build_input(alloc: Global, bytes: &[u8]) -> Result<(Event, &[u8]), EventTextFault>
    ensures { Gives (λ x. (tree_of x.0, x.1.now)) result
        (made (λ t. leaf (input t)) (lifted (template_at bytes.now))) }
{
    let (template, rest) = split_template(alloc, bytes)?;
    Ok((Event::Input(template), rest))
}

// The same for a read.
fn build_read(alloc: Global, bytes: &[u8]) -> Result<(Event, &[u8]), EventTextFault>
    ensures { Gives (λ x. (tree_of x.0, x.1.now)) result
        (made (λ t. leaf (read t)) (lifted (template_at bytes.now))) }
{
    let (template, rest) = split_template(alloc, bytes)?;
    Ok((Event::Read(template), rest))
}

// The same for an alarm.
fn build_alarm(bytes: &[u8]) -> Result<(Event, &[u8]), EventTextFault>
    ensures { Gives (λ x. (tree_of x.0, x.1.now)) result
        (made (λ time. leaf (alarm time)) (lifted (natural_at (after_blanks bytes.now)))) }
{
    let (time, rest) = split_number(skip_blanks(bytes))?;
    Ok((Event::Alarm(time), rest))
}

// The same for a value that is always there.
fn build_always(alloc: Global, bytes: &[u8]) -> Result<(Event, &[u8]), EventTextFault>
    ensures { Gives (λ x. (tree_of x.0, x.1.now)) result
        (made (λ a. leaf (always a)) (lifted (spaced_atom_at bytes.now))) }
{
    let (value, rest) = split_spaced_atom(alloc, bytes)?;
    Ok((Event::Always(value), rest))
}

// The same for a choice.
#[cycle(node)]
fn build_choice(alloc: Global, bytes: &[u8], room: usize) -> Result<(Event, &[u8]), EventTextFault>
    ensures { Gives (λ x. (tree_of x.0, x.1.now)) result
        (made (λ members. choose (members_of members)) (members_at (event_at room) bytes.now)) }
{
    let (members, rest) = build_members(alloc, bytes, room)?;
    Ok((Event::Choose(members), rest))
}

// The same for an event with a label.
#[cycle(node)]
#[tactic(auto, unfolding(crate::specs::Reading::under_at))]
fn build_wrap(alloc: Global, bytes: &[u8], room: usize) -> Result<(Event, &[u8]), EventTextFault>
    ensures { Gives (λ x. (tree_of x.0, x.1.now)) result
        (under_at (λ label event. wrap label event) (event_at room) bytes.now) }
{
    let (label, rest) = read_label(bytes)?;
    let (below, rest) = build_event(alloc, skip_blanks(rest), room)?;
    Ok((Event::Wrap(label, Box::new(alloc, below)?), rest))
}

// The same for an event with a nack.
#[cycle(node)]
#[tactic(auto, unfolding(crate::specs::Reading::under_at))]
fn build_nack(alloc: Global, bytes: &[u8], room: usize) -> Result<(Event, &[u8]), EventTextFault>
    ensures { Gives (λ x. (tree_of x.0, x.1.now)) result
        (under_at (λ number event. nack number event) (event_at room) bytes.now) }
{
    let (number, rest) = read_label(bytes)?;
    let (below, rest) = build_event(alloc, skip_blanks(rest), room)?;
    Ok((Event::Nack(number, Box::new(alloc, below)?), rest))
}

// The members of a choice between brackets, and the bytes after them.
#[cycle(node)]
fn build_members(
    alloc: Global,
    bytes: &[u8],
    room: usize,
) -> Result<(Vec<Event>, &[u8]), EventTextFault>
    ensures { Gives (λ x. (map tree_of x.0.items, x.1.now)) result
        (members_at (event_at room) bytes.now) }
{
    let mut members = Vec::new(alloc);
    let (some, mut rest) = open_list(bytes)?;
    if !some {
        return Ok((members, rest));
    }
    for _ in 0..rest.len() {
        let (member, after) = build_event(alloc, skip_blanks(rest), room)?;
        members.push(member)?;
        let (more, after) = read_mark(after)?;
        if !more {
            return Ok((members, after));
        }
        rest = after;
    }
    Err(EventTextFault::Text(TextFault::SyntaxAt(rest.len())))
}
