//! Requests that ask for tuples of one tag and one number of fields, by the position of the first
//! value of their template.

ghost use Rattle.std.specs.Prelude.{◌≡◌, Option, None, Some, OnOk, OnErr, slice_get};
ghost use Rattle.std.specs.Option.{option_copied};
ghost use Rattle.std.specs.Ordering.{nat_cmp};
ghost use Rattle.linda_bag.specs.Filing.{Rows, IsFiled, Refiles, placed, row_at};
ghost use Rattle.linda_hold.specs.declared.asked.Asked as asks;
ghost use Rattle.linda_hold.specs.Arrivals.{IsNext};
ghost use Rattle.linda_hold.specs.FirstValue.{later_of};
ghost use Rattle.linda_hold.specs.Group.{HasGroup, is_reached};
ghost use Rattle.linda_hold.specs.FirstValueIndex.{HasEarly, HasPositions, early_at, is_met};

use crate::asked::Asked;
use crate::group::Group;
use crate::numbers::sooner;
use linda_bag::{IdIndex, refile, unfile};
use linda_tuple::Atom;
use std::alloc::{AllocError, Global};
use std::collections::BTreeMap;

/// The numbers of the requests. Most templates begin with a value, or have none: those are in one
/// group, and only the others take a map of groups.
#[derive(Drop)]
pub(crate) struct FirstValueIndex {
    early: Group,
    later: BTreeMap<usize, Group>,
}

impl FirstValueIndex {
    /// The least number, from one on, of the requests that a tuple with these fields may answer: of
    /// those that ask for its field where their first value is, and of those that have none.
    pub(crate) fn next_from(&self, fields: &[Atom], from: u64) -> Option<u64>
        ensures { (asked : Rows asks.Asked) → HasPositions self.now asked
            → IsNext (λ q. is_met fields.now (asked q)) from result }
    {
        let mut next = self.early.next_from(fields.first(), from);
        for position in 0..fields.len() {
            let later = next_at(&self.later, position, field_at(fields, position), from);
            next = sooner(next, later);
        }
        next
    }
}

impl IdIndex<Asked> for FirstValueIndex {
    ghost use Rattle.linda_hold.specs.FirstValueIndex.{HasPositions};

    ghost has = { HasPositions };

    fn empty(alloc: Global) -> FirstValueIndex {
        FirstValueIndex {
            early: Group::empty(alloc),
            later: BTreeMap::new(alloc),
        }
    }

    fn put<'a>(
        &mut self,
        alloc: Global,
        id: u64,
        old: Option<&'a Asked>,
        new: &'a Asked,
    ) -> Result<(), AllocError> {
        // What the number goes into may find no memory, so it comes first.
        match new.later() {
            Some(position) => {
                put_later(&mut self.later, alloc, id, position, old, new)?;
                remove_early(&mut self.early, id, old);
            }
            None => {
                put_early(&mut self.early, alloc, id, old, new)?;
                remove_later(&mut self.later, id, old);
            }
        }
        Ok(())
    }

    fn remove(&mut self, id: u64, asked: &Asked) {
        remove_early(&mut self.early, id, Some(asked));
        remove_later(&mut self.later, id, Some(asked));
    }

    fn is_empty(&self) -> bool {
        self.early.is_empty() && self.later.is_empty()
    }
}

// The field at the position.
fn field_at(fields: &[Atom], position: usize) -> Option<&Atom>
    ensures { option_copied result ≡ slice_get fields.now position }
{
    fields.get(position)
}

// The least number, from one on, of those whose first value is at this position, if it is the field
// there.
fn next_at(
    later: &BTreeMap<usize, Group>,
    position: usize,
    field: Option<&Atom>,
    from: u64,
) -> Option<u64>
    ensures { (asked : Rows asks.Asked) → IsFiled nat_cmp HasGroup later_of later.now asked
        → IsNext (λ q. is_reached (option_copied field.entry)
        (row_at nat_cmp position (placed later_of (asked q)))) from result }
{
    match later.get(&position) {
        Some(group) => group.next_from(field, from),
        None => None,
    }
}

// Files the number by the request `new`, whose first value is at this position, and no more by
// `old`, if it was filed by that.
fn put_later<'a>(
    later: &mut BTreeMap<usize, Group>,
    alloc: Global,
    id: u64,
    position: usize,
    old: Option<&'a Asked>,
    new: &'a Asked,
) -> Result<(), AllocError>
    requires { later_of new.now ≡ Some position }
    ensures ok { OnOk result (Refiles (IsFiled nat_cmp HasGroup later_of later.old)
        (IsFiled nat_cmp HasGroup later_of later.new) id (option_copied old.entry) (Some new.now)) }
    ensures err { OnErr result (Refiles (IsFiled nat_cmp HasGroup later_of later.old)
        (IsFiled nat_cmp HasGroup later_of later.new)
        id (option_copied old.entry) (option_copied old.entry)) }
{
    let Some(old) = old else {
        return refile(later, alloc, id, None, Some((&position, new)));
    };
    let Some(was) = old.later() else {
        return refile(later, alloc, id, None, Some((&position, new)));
    };
    refile(later, alloc, id, Some((&was, old)), Some((&position, new)))
}

// Takes out the number, if it is filed by a first value that does not begin the template.
fn remove_later<'a>(later: &mut BTreeMap<usize, Group>, id: u64, old: Option<&'a Asked>)
    ensures { (after : Option asks.Asked) → placed later_of after ≡ None
        → Refiles (IsFiled nat_cmp HasGroup later_of later.old)
        (IsFiled nat_cmp HasGroup later_of later.new) id (option_copied old.entry) after }
{
    let Some(old) = old else {
        return;
    };
    if let Some(position) = old.later() {
        unfile(later, id, &position, old);
    }
}

// Files the number by the request `new`, whose template begins with its first value or has none,
// and no more by `old`, if it was filed by that.
fn put_early<'a>(
    early: &mut Group,
    alloc: Global,
    id: u64,
    old: Option<&'a Asked>,
    new: &'a Asked,
) -> Result<(), AllocError>
    requires { later_of new.now ≡ None }
    ensures ok { OnOk result (Refiles (HasEarly early.old) (HasEarly early.new)
        id (option_copied old.entry) (Some new.now)) }
    ensures err { OnErr result (Refiles (HasEarly early.old) (HasEarly early.new)
        id (option_copied old.entry) (option_copied old.entry)) }
{
    let Some(old) = old else {
        return early.put(alloc, id, None, new);
    };
    match old.later() {
        Some(_) => early.put(alloc, id, None, new),
        None => early.put(alloc, id, Some(old), new),
    }
}

// Takes out the number, if it is filed by a template that begins with its first value or has none.
fn remove_early<'a>(early: &mut Group, id: u64, old: Option<&'a Asked>)
    ensures { (after : Option asks.Asked) → early_at after ≡ None
        → Refiles (HasEarly early.old) (HasEarly early.new) id (option_copied old.entry) after }
{
    let Some(old) = old else {
        return;
    };
    match old.later() {
        Some(_) => {}
        None => early.remove(id, old),
    }
}
