//! The bases of an event: its leaves, numbered from 0 in tree order.

ghost use Rattle.std.specs.Prelude.{◌≡◌, ◌++◌, map, IfOk};
ghost use Rattle.linda_event.specs.Trees.{tree_of};
ghost use Rattle.linda_event.specs.Paths.{bases_of};
ghost use Rattle.linda_event.specs.Bases.{kind_of};

use crate::event::Event;
use linda_tuple::{Atom, Template};
use std::alloc::{AllocError, Global};

/// What a base of an event waits for.
#[derive(Clone, Copy, Debug)]
pub enum Base<'a> {
    Input(&'a Template),
    Read(&'a Template),
    Alarm(u64),
    Always(&'a Atom),
    Never,
}

/// The bases of an event, in tree order: each leaf once, `Never` among them. The place of a base in
/// the list is its number. Time is linear in the event.
///
/// # Errors
///
/// `AllocError` if memory runs out.
pub fn bases<'a>(alloc: Global, event: &'a Event) -> Result<Vec<Base<'a>>, AllocError>
    ensures { IfOk result (λ v. map kind_of v.items ≡ bases_of (tree_of event.now)) }
{
    let mut found = Vec::new(alloc);
    push_bases(event, &mut found)?;
    Ok(found)
}

fn push_bases<'a>(event: &'a Event, found: &mut Vec<Base<'a>>) -> Result<(), AllocError>
    ensures { IfOk result (λ _. map kind_of found.new.items ≡ map kind_of found.old.items
        ++ bases_of (tree_of event.now)) }
{
    match event {
        Event::Input(template) => found.push(Base::Input(template))?,
        Event::Read(template) => found.push(Base::Read(template))?,
        Event::Alarm(time) => found.push(Base::Alarm(*time))?,
        Event::Always(value) => found.push(Base::Always(value))?,
        Event::Never => found.push(Base::Never)?,
        Event::Choose(members) => {
            for member in members {
                push_bases(member, found)?;
            }
        }
        Event::Wrap(_, below) => push_bases(below, found)?,
        Event::Nack(_, below) => push_bases(below, found)?,
    }
    Ok(())
}
