//! The waits that a tuple may answer, in order of arrival.

ghost use Rattle.std.specs.Prelude.{◌≡◌, ◌+◌, ◌<◌, filter, [], IfNone};
ghost use Rattle.std.specs.Option.{option_copied};
ghost use Rattle.std.specs.List.{cons_option};
ghost use Rattle.std.specs.Map.{values_of};
ghost use Rattle.linda_bag.specs.Filing.{Rows, IsIndexed};
ghost use Rattle.linda_hold.specs.declared.asked.Asked as asks;
ghost use Rattle.linda_hold.specs.Arrivals.{IsNext, may_meet};
ghost use Rattle.linda_hold.specs.TagIndex as tag_index;
ghost use Rattle.linda_hold.specs.TagIndex.{HasAsked, may_answer};
ghost use Rattle.linda_hold.specs.Index.{asked_of};
ghost use Rattle.linda_hold.specs.Numbered.{AreBelow, in_order, wait_at};
ghost use Rattle.linda_hold.specs.FirstValueIndex.{HasPositions};

use crate::asked::Asked;
use crate::first_value_index::FirstValueIndex;
use crate::keys::Keys;
use crate::tag_index::{TagIndex, Wait};
use indexmap::IndexMap;
use linda_bag::alike;
use linda_tuple::Tuple;
use std::marker::Model;

/// The waits that are left, in order of arrival: those that ask for the tuple's tag and its number
/// of fields and, if their template has a value, for the field where the first one is.
#[derive(Drop)]
pub(crate) struct WaitCandidates<'a> {
    by_arrival: &'a IndexMap<u64, Wait, Keys>,
    // Those of the tuple's tag and its number of fields.
    positions: Option<&'a FirstValueIndex>,
    tuple: &'a Tuple,
    // Those below this number were passed.
    from: u64,
    // All numbers are below this one.
    end: u64,
}

impl<'a> Model for WaitCandidates<'a> {
    ghost use Rattle.std.specs.Prelude.{List, ◌<◌, ◌^◌};
    ghost use Rattle.linda_hold.specs.Waits as seen;
    ghost use Rattle.linda_hold.specs.Arrivals.{met_from};
    ghost use Rattle.std.specs.Option.{option_copied};
    ghost use Rattle.linda_bag.specs.Filing.{IsIndexed};
    ghost use Rattle.linda_hold.specs.FirstValueIndex.{HasPositions};
    ghost use Rattle.linda_hold.specs.TagIndex as tag_index;
    ghost use Rattle.linda_hold.specs.Index.{asked_of};
    ghost use Rattle.linda_hold.specs.Numbered.{AreBelow, wait_at};

    ghost Value = { List seen.Wait };

    ghost view = { λ a. met_from a.tuple.now a.from a.by_arrival.now.entries };

    ghost invariant = { λ a. AreBelow a.end (wait_at a.by_arrival.now.entries)
        × IsIndexed HasPositions (option_copied a.positions)
        (tag_index.alike a.tuple.now (asked_of (wait_at a.by_arrival.now.entries)))
        × (a.end < 2 ^ 64) };
}

impl<'a> WaitCandidates<'a> {
    /// All waits that the tuple may answer.
    pub(crate) fn new(
        by_arrival: &'a IndexMap<u64, Wait, Keys>,
        tag_index: &'a TagIndex,
        tuple: &'a Tuple,
        end: u64,
    ) -> WaitCandidates<'a>
        requires below { AreBelow end (wait_at by_arrival.now.entries) }
        requires filed { HasAsked tag_index.now (asked_of (wait_at by_arrival.now.entries)) }
        ensures { result
            ≡ filter (may_meet tuple.now) (values_of (in_order by_arrival.now.entries)) }
    {
        WaitCandidates {
            by_arrival,
            positions: alike::<Asked, FirstValueIndex>(
                tag_index,
                tuple.tag(),
                tuple.fields().len(),
            ),
            tuple,
            from: 0,
            end,
        }
    }

    /// The first wait that is left, which is left no more.
    pub(crate) fn next(&mut self) -> Option<&'a Wait>
        ensures first { self.old ≡ cons_option (option_copied result) self.new }
        ensures none { IfNone result (self.new ≡ []) }
    {
        let number = next_from(self.positions, self.tuple, self.from)?;
        let wait = self.by_arrival.get(&number)?;
        self.from = number + 1;
        Some(wait)
    }
}

// The least number, from one on, of the requests that the tuple may answer, of those of its tag and
// its number of fields.
fn next_from(positions: Option<&FirstValueIndex>, tuple: &Tuple, from: u64) -> Option<u64>
    ensures { (asked : Rows asks.Asked)
        → IsIndexed HasPositions (option_copied positions.entry) (tag_index.alike tuple.now asked)
        → IsNext (λ q. may_answer tuple.now (asked q)) from result }
{
    match positions {
        Some(positions) => positions.next_from(tuple.fields(), from),
        None => None,
    }
}
