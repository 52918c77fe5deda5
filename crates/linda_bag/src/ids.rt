//! Ids of rows, often of a single one, which then takes no memory of its own: one tuple is under a
//! key of a queue of jobs or of a request.

ghost use Rattle.std.specs.Prelude.{◌≡◌, ◌≢◌, ℕ, true, false, IfOk, OnOk, OnErr};
ghost use Rattle.linda_bag.specs.Filing.{Rows};
ghost use Rattle.std.specs.Ordering.{is_eq, nat_cmp};
ghost use Rattle.linda_bag.specs.Ids.{IsOf, IsCount, HasPair, SetsId, has_id};

use crate::id_index::IdIndex;
use linda_rising::RisingMap;
use std::alloc::{AllocError, Global};

/// A set of ids. It is as small as it can be, since there is one under each key: so several ids are
/// in a box.
#[derive(Drop)]
pub enum Ids {
    Nothing,
    One(u64),
    Many(Box<RisingMap<()>>),
}

impl Ids {
    /// How many ids there are. Takes no walk over them.
    pub fn len<T>(&self) -> usize
        ensures { (rows : Rows T) → IsOf self.now rows → IsCount rows result }
    {
        match self {
            Ids::Nothing => 0,
            Ids::One(_) => 1,
            Ids::Many(ids) => ids.len(),
        }
    }

    /// Whether it is known to be this id by itself.
    pub(crate) fn is_only(&self, id: u64) -> bool
        ensures { result ≡ true → (q : ℕ) → has_id self.now q ≡ is_eq (nat_cmp q id) }
    {
        match self {
            Ids::Nothing => false,
            Ids::One(only) => *only == id,
            Ids::Many(_) => false,
        }
    }
}

impl<T> IdIndex<T> for Ids {
    ghost use Rattle.linda_bag.specs.Ids.{IsOf};

    ghost has = { IsOf };

    fn empty(_alloc: Global) -> Ids {
        Ids::Nothing
    }

    fn put<'a>(
        &mut self,
        alloc: Global,
        id: u64,
        _old: Option<&'a T>,
        _new: &'a T,
    ) -> Result<(), AllocError> {
        match self {
            Ids::Nothing => {
                *self = Ids::One(id);
                Ok(())
            }
            Ids::One(only) => {
                if *only == id {
                    return Ok(());
                }
                let both = pair(alloc, *only, id)?;
                *self = Ids::Many(both);
                Ok(())
            }
            Ids::Many(ids) => put_id(&mut **ids, id),
        }
    }

    fn remove(&mut self, id: u64, _row: &T) {
        match self {
            Ids::Nothing => {}
            Ids::One(only) => {
                if *only == id {
                    *self = Ids::Nothing;
                }
            }
            Ids::Many(ids) => take_id(&mut **ids, id),
        }
    }

    fn is_empty(&self) -> bool {
        match self {
            Ids::Nothing => true,
            Ids::One(_) => false,
            Ids::Many(ids) => ids.len() == 0,
        }
    }
}

// The set of both ids.
fn pair(alloc: Global, one: u64, other: u64) -> Result<Box<RisingMap<()>>, AllocError>
    requires { one ≢ other }
    ensures { IfOk result (λ both. HasPair one other both.value) }
{
    let mut both = RisingMap::new(alloc);
    both.insert(one, ())?;
    both.insert(other, ())?;
    Ok(Box::new(alloc, both)?)
}

/// Puts the id into the set, if it is not there.
///
/// # Errors
///
/// `AllocError` if memory runs out, and then nothing changes.
pub fn put_id(ids: &mut RisingMap<()>, id: u64) -> Result<(), AllocError>
    ensures ok { OnOk result (SetsId ids.old ids.new id true) }
    ensures err { OnErr result (ids.new ≡ ids.old) }
{
    if ids.contains(id) {
        return Ok(());
    }
    ids.insert(id, ())
}

/// Takes the id out of the set, if it is there. Takes no memory.
pub fn take_id(ids: &mut RisingMap<()>, id: u64)
    ensures { SetsId ids.old ids.new id false }
{
    ids.remove(id);
}
