//! An index of the tuples of one tag and one number of fields by the field at one position.

ghost use Rattle.std.specs.Prelude.{◌≡◌, ◌≤◌, ◌<◌, ℕ, true, false, None, Some, length, slice_get};
ghost use Rattle.std.specs.Prelude.{IfSome, IfNone, IfOk, OnOk, IsTrue};
ghost use Rattle.std.specs.Option.{option_copied};
ghost use Rattle.std.specs.FinMap as map;
ghost use Rattle.linda_tuple.specs.declared.pattern.Pattern.TheVariants as patterns;
ghost use Rattle.linda_tuple.specs.contracts.atom.AtomOrd.TheImpl as atom_ord;
ghost use Rattle.linda_tuple.specs.Tuple.{Tuple};
ghost use Rattle.linda_bag.specs.Filing.{IsFiled, Refiles, place, placed};
ghost use Rattle.linda_bag.specs.Ids.{IsOf, has_any};
ghost use Rattle.linda_bag.specs.FreeMatch.{Bagged, IsFreeMatch};
ghost use Rattle.linda_bag.specs.Columns.{AsksNoValue, IsColumn, StaysColumn};

use crate::among::{BagLookup, least_among};
use crate::bag::{Bag, Found};
use crate::id_index::{refile, unfile};
use crate::id_set::IdSet;
use crate::ids::Ids;
use linda_tuple::{Atom, Pattern, Template};
use std::alloc::{AllocError, Global};
use std::collections::{BTreeMap, BTreeSet};

// How many ids a search takes out at most that the bag does not have any more.
const GONE: usize = 64;

/// The ids of the tuples that `kind` matches, up to the id `upto`, under the fields that they have
/// at the position.
#[derive(Drop)]
pub(crate) struct Column {
    pub(crate) kind: Template,
    pub(crate) position: usize,
    pub(crate) upto: u64,
    pub(crate) ids: BTreeMap<Atom, Ids>,
}

impl Column {
    /// A column without ids, for the tuples that have the template's tag and as many fields.
    ///
    /// # Errors
    ///
    /// `AllocError` if memory runs out.
    pub(crate) fn new(
        alloc: Global,
        template: &Template,
        position: usize,
    ) -> Result<Column, AllocError>
        ensures { IfOk result (λ column. (bag : Bagged) (next : ℕ) → IsColumn bag next column) }
    {
        Ok(Column {
            kind: kind_of(alloc, template)?,
            position,
            upto: 0,
            ids: BTreeMap::new(alloc),
        })
    }

    /// Whether it has what a search by this position looks for.
    pub(crate) fn is_for(&self, template: &Template, position: usize) -> bool
        ensures position { IsTrue result → self.now.position ≡ position }
        ensures tag { IsTrue result → self.now.kind.tag ≡ template.now.tag }
        ensures count { IsTrue result
            → length self.now.kind.fields ≡ length template.now.fields }
    {
        self.position == position
            && self.kind.fields().len() == template.fields().len()
            && *self.kind.tag() == *template.tag()
    }

    /// As `least_match_from` of a bag, for a template that has the value at the position.
    pub(crate) fn least_match_from<B: Bag, P: IdSet>(
        &self,
        bag: &B,
        template: &Template,
        value: &Atom,
        passed: &P,
        from: u64,
    ) -> Found
        requires tag { self.now.kind.tag ≡ template.now.tag }
        requires count { length self.now.kind.fields ≡ length template.now.fields }
        requires value { slice_get template.now.fields self.now.position
            ≡ Some (patterns.Value value.now) }
        ensures found { IfSome result.id
            (IsFreeMatch (B.contents bag.now) template.now (P.has passed.now)) }
        ensures above { IfSome result.id (λ id. from ≤ id) }
        ensures least { (next : ℕ) → IsColumn (B.contents bag.now) next self.now
            → IfSome result.id (λ id. (k : ℕ) → from ≤ k → k < id
            → IsFreeMatch (B.contents bag.now) template.now (P.has passed.now) k → ⊥) }
        ensures none { (next : ℕ) → IsColumn (B.contents bag.now) next self.now
            → IfNone result.id ((k : ℕ) → from ≤ k
            → IsFreeMatch (B.contents bag.now) template.now (P.has passed.now) k → ⊥) }
    {
        let filed = least_among(
            &BagLookup { bag },
            template,
            passed,
            self.ids.get(value),
            from,
        );
        if is_below(filed.id, self.upto) {
            return filed;
        }
        let found = bag.least_match_from(template, passed, later(from, self.upto));
        Found {
            id: found.id,
            passed: found.passed.saturating_add(filed.passed),
        }
    }

    /// Files up to `share` more tuples, and returns how many ids were added.
    ///
    /// # Errors
    ///
    /// `AllocError` if memory runs out; the column cannot be used then.
    pub(crate) fn file<B: Bag>(
        &mut self,
        alloc: Global,
        bag: &B,
        next: u64,
        share: usize,
    ) -> Result<usize, AllocError>
        ensures { OnOk result (StaysColumn (B.contents bag.now) next self.old self.new) }
    {
        let mut filed: usize = 0;
        for _ in 0..share {
            if !self.file_next(alloc, bag, next)? {
                return Ok(filed);
            }
            filed = filed.saturating_add(1);
        }
        Ok(filed)
    }

    // Files the next tuple of the kind; whether there was one.
    fn file_next<B: Bag>(&mut self, alloc: Global, bag: &B, next: u64) -> Result<bool, AllocError>
        ensures { OnOk result (StaysColumn (B.contents bag.now) next self.old self.new) }
    {
        let found = bag.least_match_from(&self.kind, &BTreeSet::new(alloc), self.upto);
        let id = match found.id {
            Some(id) => id,
            None => {
                self.upto = next;
                return Ok(false);
            }
        };
        if id >= next {
            return Ok(false);
        }
        let value = field_under(bag, id, self.position);
        put(&mut self.ids, alloc, id, value)?;
        self.upto = id + 1;
        Ok(true)
    }

    /// Takes out ids under the value that the bag does not have any more, the least first, and
    /// returns how many.
    pub(crate) fn drop_gone<B: Bag>(&mut self, bag: &B, value: &Atom) -> usize
        ensures { (next : ℕ) → StaysColumn (B.contents bag.now) next self.old self.new }
    {
        let mut gone: usize = 0;
        for _ in 0..GONE {
            if !self.drop_one(bag, value) {
                return gone;
            }
            gone = gone.saturating_add(1);
        }
        gone
    }

    // Takes out the least id under the value if the bag does not have it; whether it did.
    fn drop_one<B: Bag>(&mut self, bag: &B, value: &Atom) -> bool
        ensures { (next : ℕ) → StaysColumn (B.contents bag.now) next self.old self.new }
    {
        let Some(id) = least_of(self.ids.get(value)) else {
            return false;
        };
        match bag.get(id) {
            Some(_) => false,
            None => {
                take_out(&mut self.ids, id, value);
                true
            }
        }
    }
}

// Files the id under the value, if there is one.
fn put(
    ids: &mut BTreeMap<Atom, Ids>,
    alloc: Global,
    id: u64,
    value: Option<&Atom>,
) -> Result<(), AllocError>
    ensures { OnOk result (Refiles (IsFiled atom_ord.ghosts.cmp IsOf (λ v. Some v) ids.old)
        (IsFiled atom_ord.ghosts.cmp IsOf (λ v. Some v) ids.new)
        id None (option_copied value.entry)) }
{
    refile(ids, alloc, id, None, place_of(value))
}

// The place of an id that has this value, if it has one.
fn place_of(value: Option<&Atom>) -> Option<(&Atom, &Atom)>
    ensures { place result ≡ placed (λ v. Some v) (option_copied value.entry) }
{
    let value = value?;
    Some((value, value))
}

// Takes out the id, which is under the value.
fn take_out(ids: &mut BTreeMap<Atom, Ids>, id: u64, value: &Atom)
    ensures { Refiles (IsFiled atom_ord.ghosts.cmp IsOf (λ v. Some v) ids.old)
        (IsFiled atom_ord.ghosts.cmp IsOf (λ v. Some v) ids.new) id (Some value.now) None }
{
    unfile(ids, id, value, value);
}

// The template that matches each tuple of this one's tag and number of fields.
fn kind_of(alloc: Global, template: &Template) -> Result<Template, AllocError>
    ensures { IfOk result AsksNoValue }
{
    let tag = template.tag().try_clone(alloc)?;
    let mut fields = Vec::new(alloc);
    for _ in template.fields() {
        fields.push(Pattern::Any)?;
    }
    match Template::new(tag, fields) {
        Ok(kind) => Ok(kind),
        Err(_) => Err(AllocError),
    }
}

// The field that the tuple under the id has at the position.
fn field_under<B: Bag>(bag: &B, id: u64, position: usize) -> Option<&Atom>
    ensures { (row : Tuple) → map.get (B.contents bag.now) id ≡ Some row
        → option_copied result ≡ slice_get row.fields position }
{
    let tuple = bag.get(id)?;
    tuple.fields().get(position)
}

// The least of the ids.
fn least_of(ids: Option<&Ids>) -> Option<u64>
    ensures { IfSome result (λ id. has_any (option_copied ids.entry) id ≡ true) }
{
    match ids? {
        Ids::Nothing => None,
        Ids::One(id) => Some(*id),
        Ids::Many(ids) => ids.next_from(0),
    }
}

// Whether there is an id, and it is below the other.
fn is_below(id: Option<u64>, upto: u64) -> bool
    ensures some { IsTrue result → IfSome id (λ i. i < upto) }
    ensures none { IsTrue result → IfNone id ⊥ }
    ensures not { result ≡ false → IfSome id (λ i. upto ≤ i) }
{
    match id {
        Some(id) => id < upto,
        None => false,
    }
}

// The greater of both.
fn later(one: u64, other: u64) -> u64
    ensures one { one ≤ result }
    ensures other { other ≤ result }
    ensures least { (k : ℕ) → one ≤ k → other ≤ k → result ≤ k }
{
    if one < other { other } else { one }
}
