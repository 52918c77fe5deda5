//! The least number of a set from one on: what comes next in order of arrival.

ghost use Rattle.std.specs.Prelude.{ℕ, Bool, ◌||◌};
ghost use Rattle.std.specs.FinMap.{contains_key};
ghost use Rattle.linda_bag.specs.Ids.{has_id};
ghost use Rattle.linda_hold.specs.Arrivals.{IsNext};

use linda_bag::Ids;
use linda_rising::RisingMap;

/// The least number of the set from one on.
pub(crate) fn next_in(numbers: &RisingMap<()>, from: u64) -> Option<u64>
    ensures { IsNext (contains_key numbers.now) from result }
{
    numbers.next_from(from)
}

/// The least of the numbers from one on.
pub(crate) fn next_of(numbers: &Ids, from: u64) -> Option<u64>
    ensures { IsNext (has_id numbers.now) from result }
{
    match numbers {
        Ids::Nothing => None,
        Ids::One(only) => {
            if *only < from {
                return None;
            }
            Some(*only)
        }
        Ids::Many(many) => next_in(many, from),
    }
}

/// The less of the numbers, each the least of some from one on.
pub(crate) fn sooner(one: Option<u64>, other: Option<u64>) -> Option<u64>
    ensures { (these those : ℕ → Bool) (from : ℕ) → IsNext these from one → IsNext those from other
        → IsNext (λ q. these q || those q) from result }
{
    let Some(here) = one else {
        return other;
    };
    let Some(there) = other else {
        return one;
    };
    if there < here {
        return other;
    }
    one
}
