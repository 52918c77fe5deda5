//! Bases that are ready without a server, and what they give.

ghost use Rattle.std.specs.Prelude.{◌≡◌, map, IfOk};
ghost use Rattle.linda_event.specs.Bases.{kind_of};
ghost use Rattle.linda_event.specs.Trees.{tree_of};
ghost use Rattle.linda_client.specs.Ask.{first_among, first_ready, given_by};

use crate::outcome::Got;
use linda_event::{Base, Event, bases};
use std::alloc::{AllocError, Global};

/// The first base in tree order that is ready at this clock, with its number.
pub(crate) fn first_ready(
    alloc: Global,
    event: &Event,
    clock: u64,
) -> Result<Option<(usize, Got)>, AllocError>
    ensures { IfOk result (λ o. o ≡ first_ready clock (tree_of event.now)) }
{
    first_among(alloc, &bases(alloc, event)?, clock)
}

fn first_among(
    alloc: Global,
    bases: &[Base],
    clock: u64,
) -> Result<Option<(usize, Got)>, AllocError>
    ensures { IfOk result (λ o. o ≡ first_among clock (map kind_of bases.now)) }
{
    for (number, base) in bases.iter().enumerate() {
        if let Some(got) = given_by(alloc, *base, clock)? {
            return Ok(Some((number, got)));
        }
    }
    Ok(None)
}

/// What the base gives at this clock without a server.
fn given_by(alloc: Global, base: Base, clock: u64) -> Result<Option<Got>, AllocError>
    ensures { IfOk result (λ o. o ≡ given_by clock (kind_of base.entry)) }
{
    match base {
        Base::Alarm(time) if time <= clock => Ok(Some(Got::Alarm)),
        Base::Always(value) => Ok(Some(Got::Always(value.try_clone(alloc)?))),
        _ => Ok(None),
    }
}
