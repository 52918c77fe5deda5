//! The index of a bag: which ids a template may be answered with, by its tag, by the number of its
//! patterns, and by the value that is first among them.

ghost use Rattle.std.specs.Prelude.{◌≡◌, Some};
ghost use Rattle.std.specs.Option.{option_copied};
ghost use Rattle.linda_tuple.specs.Tuple.{Tuple};
ghost use Rattle.linda_bag.specs.Filing.{Rows, FindsIndex, IsIndexed};
ghost use Rattle.linda_bag.specs.Ids.{IsOf, IsCount};
ghost use Rattle.linda_bag.specs.Candidates.{first_of, first_value, with_first, candidates};
ghost use Rattle.linda_bag.specs.FirstFieldIndex.{HasFirstFields};

use crate::first_field_index::FirstFieldIndex;
use crate::id_index::IdIndex;
use crate::ids::Ids;
use crate::tag_index::{TagIndex, alike};
use linda_tuple::{Atom, Pattern, Template, Tuple};
use std::alloc::{AllocError, Global};

/// The ids of the tuples of a bag, by head.
pub(crate) type Index = TagIndex<Group>;

/// The ids of tuples of one tag and one number of fields: all of them, and those of each first
/// field.
#[derive(Drop)]
pub(crate) struct Group {
    ids: Ids,
    first_fields: FirstFieldIndex,
}

/// The ids of the tuples that have the template's tag, as many fields as it has patterns and, if
/// its first pattern is a value, that value first; `None` if there are none.
pub(crate) fn candidates<'a>(index: &'a Index, template: &Template) -> Option<&'a Ids>
    ensures { FindsIndex (⟦<Index as IdIndex<Tuple>>⟧.has index.now) IsOf (candidates template.now)
        (option_copied result) }
{
    let patterns = template.fields();
    let group = alike::<Tuple, Group>(index, template.tag(), patterns.len())?;
    group.candidates(first_value(patterns))
}

impl Group {
    /// The ids of the tuples that have the value first, if a value is given; else all ids.
    fn candidates(&self, first: Option<&Atom>) -> Option<&Ids>
        ensures { FindsIndex (IsIndexed (⟦<Group as IdIndex<Tuple>>⟧.has) (Some self.now)) IsOf
            (with_first (option_copied first.entry)) (option_copied result) }
    {
        match first {
            Some(first) => self.first_fields.get::<Tuple>(first),
            None => Some(&self.ids),
        }
    }
}

impl Group {
    /// How many ids there are.
    pub(crate) fn len(&self) -> usize
        ensures { (rows : Rows Tuple) → ⟦<Group as IdIndex<Tuple>>⟧.has self.now rows
            → IsCount rows result }
    {
        self.ids.len::<Tuple>()
    }
}

impl IdIndex<Tuple> for Group {
    ghost has = { λ g rows. IsOf g.ids rows × HasFirstFields first_of g.first_fields rows };

    fn empty(alloc: Global) -> Group {
        Group {
            ids: IdIndex::<Tuple>::empty(alloc),
            first_fields: FirstFieldIndex::empty::<Tuple>(alloc),
        }
    }

    fn put<'a>(
        &mut self,
        alloc: Global,
        id: u64,
        old: Option<&'a Tuple>,
        new: &'a Tuple,
    ) -> Result<(), AllocError> {
        self.ids.put(alloc, id, old, new)?;
        match self.first_fields.put(alloc, id, old, new) {
            Ok(()) => Ok(()),
            Err(error) => {
                if old.is_none() {
                    self.ids.remove(id, new);
                }
                Err(error)
            }
        }
    }

    fn remove(&mut self, id: u64, tuple: &Tuple) {
        self.ids.remove(id, tuple);
        self.first_fields.remove(id, Some(tuple));
    }

    fn is_empty(&self) -> bool {
        IdIndex::<Tuple>::is_empty(&self.ids)
    }
}

// The value that the first pattern asks for, if it asks for one.
fn first_value(patterns: &[Pattern]) -> Option<&Atom>
    ensures { option_copied result ≡ first_value patterns.now }
{
    match patterns.first()? {
        Pattern::Value(value) => Some(value),
        Pattern::IntFormal => None,
        Pattern::TextFormal => None,
        Pattern::BoolFormal => None,
        Pattern::Any => None,
    }
}
