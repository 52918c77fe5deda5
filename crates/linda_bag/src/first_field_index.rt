//! The values that rows of one tag and one number of fields begin with, and the ids under each.
//! Most are integers: those are in a map of their own, by blocks, since most of them rise.

ghost use Rattle.std.specs.Prelude.{◌≡◌, ◌↔◌, Some, None, OnOk, OnErr, IsTrue};
ghost use Rattle.std.specs.Option.{option_copied};
ghost use Rattle.linda_tuple.specs.contracts.atom.AtomOrd.TheImpl as atom_ord;
ghost use Rattle.linda_bag.specs.Filing.{no_rows, rows_at, place, placed, FindsIndex, Refiles};
ghost use Rattle.linda_bag.specs.Filing.{Rows, IsBare};
ghost use Rattle.linda_bag.specs.Ids.{IsOf};
ghost use Rattle.linda_bag.specs.FirstFieldIndex.{HasFirstFields, int_of, other_of, keyed_of};

use crate::id_index::{refile, unfile_if_any};
use crate::ids::Ids;
use crate::ints;
use crate::tag_index::Tagged;
use linda_rising::RisingMap;
use linda_tuple::Atom;
use std::alloc::{AllocError, Global};
use std::collections::BTreeMap;

/// The ids of rows under the values that they begin with. A row that begins with none is under
/// none.
#[derive(Drop)]
pub struct FirstFieldIndex {
    ints: RisingMap<Ids>,
    others: BTreeMap<Atom, Ids>,
}

impl FirstFieldIndex {
    /// No rows. Takes no memory until one is filed.
    pub fn empty<R: Tagged>(alloc: Global) -> FirstFieldIndex
        ensures { HasFirstFields R.first_of result no_rows }
    {
        FirstFieldIndex {
            ints: RisingMap::new(alloc),
            others: BTreeMap::new(alloc),
        }
    }

    /// The ids of the rows that begin with the value; `None` if there are none.
    pub fn get<R: Tagged>(&self, first: &Atom) -> Option<&Ids>
        ensures { FindsIndex (HasFirstFields R.first_of self.now) IsOf
            (rows_at atom_ord.ghosts.cmp R.first_of first.now)
            (option_copied result) }
    {
        match first {
            Atom::Int(int) => ints::find(&self.ints, int),
            Atom::Text(_) => self.others.get(first),
            Atom::Bool(_) => self.others.get(first),
        }
    }

    /// Files the id by what the row `new` begins with, and no longer by what `old` begins with,
    /// which had the id before.
    ///
    /// # Errors
    ///
    /// `AllocError` if memory runs out, and then each id is filed as before.
    pub fn put<'a, R: Tagged>(
        &mut self,
        alloc: Global,
        id: u64,
        old: Option<&'a R>,
        new: &'a R,
    ) -> Result<(), AllocError>
        ensures ok { OnOk result (Refiles (HasFirstFields R.first_of self.old)
            (HasFirstFields R.first_of self.new)
            id (option_copied old.entry) (Some new.now)) }
        ensures err { OnErr result (Refiles (HasFirstFields R.first_of self.old)
            (HasFirstFields R.first_of self.new)
            id (option_copied old.entry) (option_copied old.entry)) }
    {
        // The map that the id goes into is the only one that may need memory, so it comes first.
        match int_place(Some(new)) {
            Some((int, row)) => {
                ints::refile(&mut self.ints, alloc, id, int_place(old), int, row)?;
                unfile_if_any(&mut self.others, id, other_place(old));
            }
            None => {
                let other = other_place(Some(new));
                refile(&mut self.others, alloc, id, other_place(old), other)?;
                ints::unfile_if_any(&mut self.ints, id, int_place(old));
            }
        }
        Ok(())
    }

    /// Whether there is no id.
    pub fn is_empty<R: Tagged>(&self) -> bool
        ensures { (rows : Rows R) → HasFirstFields R.first_of self.now rows
            → (IsTrue result ↔ IsBare (keyed_of R.first_of rows)) }
    {
        ints::is_empty(&self.ints) && self.others.is_empty()
    }

    /// Takes out the id, which is filed by the row, if it is filed at all.
    pub fn remove<'a, R: Tagged>(&mut self, id: u64, old: Option<&'a R>)
        ensures { Refiles (HasFirstFields R.first_of self.old) (HasFirstFields R.first_of self.new)
            id (option_copied old.entry) None }
    {
        ints::unfile_if_any(&mut self.ints, id, int_place(old));
        unfile_if_any(&mut self.others, id, other_place(old));
    }
}

// The integer that the row begins with, if it begins with one, with the row.
fn int_place<R: Tagged>(row: Option<&R>) -> Option<(&i64, &R)>
    ensures { place result ≡ placed (int_of R.first_of) (option_copied row.entry) }
{
    let row = row?;
    match row.first()? {
        Atom::Int(int) => Some((int, row)),
        Atom::Text(_) => None,
        Atom::Bool(_) => None,
    }
}

// The value that the row begins with, if it begins with one that is no integer, with the row.
fn other_place<R: Tagged>(row: Option<&R>) -> Option<(&Atom, &R)>
    ensures { place result ≡ placed (other_of R.first_of) (option_copied row.entry) }
{
    let row = row?;
    let first = row.first()?;
    match first {
        Atom::Int(_) => None,
        Atom::Text(_) => Some((first, row)),
        Atom::Bool(_) => Some((first, row)),
    }
}
