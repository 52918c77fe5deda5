//! Indexes for templates that begin with a formal and have a value later, made once such a template
//! is asked for and a search looked at many tuples in vain.
//!
//! A put costs nothing for them: tuples that came since are filed by the next search. They say
//! which tuples a search may leave out, and nothing else: they may go at any time.

ghost use Rattle.std.specs.Prelude.{◌≡◌, ◌≤◌, ◌<◌, ℕ, Some, IfSome, IfNone, slice_get, get_or};
ghost use Rattle.std.specs.Prelude.{length};
ghost use Rattle.linda_tuple.specs.declared.pattern.Pattern.TheVariants as patterns;
ghost use Rattle.linda_bag.specs.FreeMatch.{Bagged, IsFreeMatch};
ghost use Rattle.linda_bag.specs.Columns.{AreColumns};

use crate::bag::{Bag, Found};
use crate::column::Column;
use crate::id_set::IdSet;
use linda_tuple::{Atom, Pattern, Template};
use std::alloc::{AllocError, Global};

// How many tuples a search looks at in vain before its template gets a column.
const MANY: usize = 256;

// How many tuples a search files at least, if there are so many that are not filed.
const SHARE: usize = 64;

// How many columns there are at most.
const MAX_COLUMNS: usize = 64;

// How many ids all of them have at most.
const MAX_IDS: usize = 1_048_576;

/// The columns, and how many ids they have.
#[derive(Drop)]
pub(crate) struct Columns {
    pub(crate) items: Vec<Column>,
    filed: usize,
}

impl Columns {
    /// No columns.
    pub(crate) fn new(alloc: Global) -> Columns
        ensures { (bag : Bagged) (next : ℕ) → AreColumns bag next result }
    {
        Columns {
            items: Vec::new(alloc),
            filed: 0,
        }
    }

    /// As `least_match_from` of the bag, each id of which is below `next`. It needs no memory; if
    /// there is some, tuples are filed for the next search by the same position.
    pub(crate) fn least_match_from<B: Bag, P: IdSet>(
        &mut self,
        alloc: Global,
        bag: &B,
        template: &Template,
        passed: &P,
        from: u64,
        next: u64,
    ) -> Found
        requires { AreColumns (B.contents bag.now) next self.old }
        ensures found { IfSome result.id
            (IsFreeMatch (B.contents bag.now) template.now (P.has passed.now)) }
        ensures above { IfSome result.id (λ id. from ≤ id) }
        ensures least { IfSome result.id (λ id. (k : ℕ) → from ≤ k → k < id
            → IsFreeMatch (B.contents bag.now) template.now (P.has passed.now) k → ⊥) }
        ensures none { IfNone result.id ((k : ℕ) → from ≤ k
            → IsFreeMatch (B.contents bag.now) template.now (P.has passed.now) k → ⊥) }
        ensures right { AreColumns (B.contents bag.now) next self.new }
    {
        let Some((position, value)) = later_value(template) else {
            return bag.least_match_from(template, passed, from);
        };
        let place = self.place_of(template, position);
        if place < self.items.len() {
            let found = self.items[place].least_match_from(bag, template, value, passed, from);
            self.go_on(alloc, bag, place, value, next, found.passed);
            return found;
        }
        let found = bag.least_match_from(template, passed, from);
        if found.passed >= MANY {
            self.begin(alloc, template, position);
        }
        found
    }

    // The place of the template's column for the position; if there is none, the number of columns.
    fn place_of(&self, template: &Template, position: usize) -> usize
        ensures position { (d : Column) → result < length self.now.items.items
            → (get_or self.now.items.items result d).position ≡ position }
        ensures tag { (d : Column) → result < length self.now.items.items
            → (get_or self.now.items.items result d).kind.tag ≡ template.now.tag }
        ensures count { (d : Column) → result < length self.now.items.items
            → length (get_or self.now.items.items result d).kind.fields
            ≡ length template.now.fields }
    {
        for place in 0..self.items.len() {
            if self.items[place].is_for(template, position) {
                return place;
            }
        }
        self.items.len()
    }

    // The column goes on, after a search that looked at so many tuples in vain. If memory runs out,
    // all columns are dropped.
    fn go_on<B: Bag>(
        &mut self,
        alloc: Global,
        bag: &B,
        place: usize,
        value: &Atom,
        next: u64,
        passed: usize,
    )
        requires { place < length self.old.items.items }
        ensures { AreColumns (B.contents bag.now) next self.old
            → AreColumns (B.contents bag.now) next self.new }
    {
        let gone = self.items[place].drop_gone(bag, value);
        self.filed = self.filed.saturating_sub(gone);
        let room = MAX_IDS.saturating_sub(self.filed);
        let share = smaller(SHARE.saturating_add(passed / 4), room);
        match self.items[place].file(alloc, bag, next, share) {
            Ok(filed) => {
                self.filed = self.filed.saturating_add(filed);
            }
            Err(_) => {
                *self = Columns::new(alloc);
            }
        }
    }

    // A column begins, if there is memory for it. If there are too many columns, or too many ids,
    // all others are dropped first.
    fn begin(&mut self, alloc: Global, template: &Template, position: usize)
        ensures { (bag : Bagged) (next : ℕ) → AreColumns bag next self.old
            → AreColumns bag next self.new }
    {
        if self.items.len() >= MAX_COLUMNS || self.filed >= MAX_IDS {
            *self = Columns::new(alloc);
        }
        let _ = self.try_begin(alloc, template, position);
    }

    fn try_begin(
        &mut self,
        alloc: Global,
        template: &Template,
        position: usize,
    ) -> Result<(), AllocError>
        ensures { (bag : Bagged) (next : ℕ) → AreColumns bag next self.old
            → AreColumns bag next self.new }
    {
        let column = Column::new(alloc, template, position)?;
        self.items.push(column)?;
        Ok(())
    }
}

// The first value of the template, with its position, if the template begins with something else.
fn later_value(template: &Template) -> Option<(usize, &Atom)>
    ensures { IfSome result (λ p. slice_get template.now.fields p.0
        ≡ Some (patterns.Value p.1.now)) }
{
    let patterns = template.fields();
    for position in 0..patterns.len() {
        if let Pattern::Value(value) = &patterns[position] {
            if position == 0 {
                return None;
            }
            return Some((position, value));
        }
    }
    None
}

// The smaller of both.
fn smaller(one: usize, other: usize) -> usize
    ensures { result ≤ one }
{
    if one < other { one } else { other }
}
