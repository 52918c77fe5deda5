//! Requests whose templates have their first value at one position, or have none: the first ones by
//! that value, and the others together.

ghost use Rattle.std.specs.Option.{option_copied};
ghost use Rattle.linda_bag.specs.Filing.{Rows};
ghost use Rattle.linda_hold.specs.declared.asked.Asked as asks;
ghost use Rattle.linda_hold.specs.Arrivals.{IsNext};
ghost use Rattle.linda_hold.specs.Group.{HasGroup, is_reached};

use crate::asked::Asked;
use crate::numbers::{next_in, next_of, sooner};
use linda_bag::{FirstFieldIndex, IdIndex, put_id, take_id};
use linda_rising::RisingMap;
use linda_tuple::Atom;
use std::alloc::{AllocError, Global};

/// The numbers of the requests.
#[derive(Drop)]
pub(crate) struct Group {
    firsts: FirstFieldIndex,
    unkeyed: RisingMap<()>,
}

impl Group {
    /// The least number, from one on, of the requests that a tuple with this field there may
    /// answer: of those whose first value it is, and of those that have none.
    pub(crate) fn next_from(&self, field: Option<&Atom>, from: u64) -> Option<u64>
        ensures { (asked : Rows asks.Asked) → HasGroup self.now asked
            → IsNext (λ q. is_reached (option_copied field.entry) (asked q)) from result }
    {
        let unkeyed = next_in(&self.unkeyed, from);
        let Some(field) = field else {
            return unkeyed;
        };
        match self.firsts.get::<Asked>(field) {
            Some(ids) => sooner(next_of(ids, from), unkeyed),
            None => unkeyed,
        }
    }
}

impl IdIndex<Asked> for Group {
    ghost use Rattle.linda_hold.specs.Group.{HasGroup};

    ghost has = { HasGroup };

    fn empty(alloc: Global) -> Group {
        Group {
            firsts: FirstFieldIndex::empty::<Asked>(alloc),
            unkeyed: RisingMap::new(alloc),
        }
    }

    fn put<'a>(
        &mut self,
        alloc: Global,
        id: u64,
        old: Option<&'a Asked>,
        new: &'a Asked,
    ) -> Result<(), AllocError> {
        // Only what the number goes into may need memory, so it comes first.
        match new.first() {
            Some(_) => {
                self.firsts.put(alloc, id, old, new)?;
                take_id(&mut self.unkeyed, id);
            }
            None => {
                put_id(&mut self.unkeyed, id)?;
                self.firsts.remove(id, old);
            }
        }
        Ok(())
    }

    fn remove(&mut self, id: u64, asked: &Asked) {
        self.firsts.remove(id, Some(asked));
        take_id(&mut self.unkeyed, id);
    }

    fn is_empty(&self) -> bool {
        self.firsts.is_empty::<Asked>() && self.unkeyed.len() == 0
    }
}
