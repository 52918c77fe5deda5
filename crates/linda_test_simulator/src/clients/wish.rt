//! Wishes: what a client waits for, as a list of members of a choice.

use crate::clients::words::{Form, template_of};
use linda_event::Event;
use linda_tuple::Atom;
use std::alloc::{AllocError, Global};

/// The value that is always there.
pub const GIVEN: i64 = 7;

/// What a member waits for.
#[derive(Clone, Copy, PartialEq, Eq)]
pub enum What {
    Input(Form),
    Read(Form),
    Alarm(u64),
    Always,
    Never,
}

/// A member of a choice, below a label and a nack number; 0 is none.
#[derive(Clone, Copy, PartialEq, Eq)]
pub struct Leaf {
    pub what: What,
    pub label: u64,
    pub nack: u64,
}

/// The choice of these members; of one it may be that one.
pub fn event_of(alloc: Global, wish: &[Leaf]) -> Result<Event, AllocError> {
    if let [leaf] = wish {
        return member_of(alloc, *leaf);
    }
    let mut members = Vec::new(alloc);
    for leaf in wish {
        members.push(member_of(alloc, *leaf)?)?;
    }
    Ok(Event::Choose(members))
}

// A member, with what is above it.
fn member_of(alloc: Global, leaf: Leaf) -> Result<Event, AllocError> {
    let labelled = label(alloc, leaf.label, base_of(alloc, leaf.what)?)?;
    if leaf.nack == 0 {
        return Ok(labelled);
    }
    Ok(Event::Nack(leaf.nack, Box::new(alloc, labelled)?))
}

fn label(alloc: Global, label: u64, below: Event) -> Result<Event, AllocError> {
    if label == 0 {
        return Ok(below);
    }
    Ok(Event::Wrap(label, Box::new(alloc, below)?))
}

fn base_of(alloc: Global, what: What) -> Result<Event, AllocError> {
    match what {
        What::Input(form) => Ok(Event::Input(template_of(alloc, form)?)),
        What::Read(form) => Ok(Event::Read(template_of(alloc, form)?)),
        What::Alarm(time) => Ok(Event::Alarm(time)),
        What::Always => Ok(Event::Always(Atom::Int(GIVEN))),
        What::Never => Ok(Event::Never),
    }
}

/// The first member that is ready without a server.
pub fn first_ready(wish: &[Leaf], clock: u64) -> Option<usize> {
    let mut at: usize = 0;
    for leaf in wish {
        let is_ready = match leaf.what {
            What::Always => true,
            What::Alarm(time) => time <= clock,
            _ => false,
        };
        if is_ready {
            return Some(at);
        }
        at = at.saturating_add(1);
    }
    None
}

/// How many members ask servers.
pub fn count_asks(wish: &[Leaf]) -> usize {
    let mut count: usize = 0;
    for leaf in wish {
        if matches!(leaf.what, What::Input(_) | What::Read(_)) {
            count = count.saturating_add(1);
        }
    }
    count
}

/// Whether these are the labels above a member.
pub fn has_labels(leaf: Leaf, labels: &[u64]) -> bool {
    match labels {
        [] => leaf.label == 0,
        [label] => leaf.label != 0 && leaf.label == *label,
        _ => false,
    }
}

/// Whether these are the nack numbers of all members but the chosen one, in order.
pub fn has_raised(wish: &[Leaf], chosen: Option<usize>, raised: &[u64]) -> bool {
    let mut rest = raised;
    let mut at: usize = 0;
    for leaf in wish {
        if leaf.nack != 0 && Some(at) != chosen {
            match rest {
                [first, later @ ..] => {
                    if *first != leaf.nack {
                        return false;
                    }
                    rest = later;
                }
                [] => return false,
            }
        }
        at = at.saturating_add(1);
    }
    rest.is_empty()
}
