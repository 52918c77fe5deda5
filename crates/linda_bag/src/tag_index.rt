//! Rows by their heads: by the tag and, under it, by the number of fields. Under each head is a
//! index of any kind, with the rows that have it.

ghost use Rattle.std.specs.Prelude.{◌≡◌, ◌<◌, ℕ, Option, None, Some, IfSome, IfNone};
ghost use Rattle.std.specs.Option.{option_copied};
ghost use Rattle.std.specs.BTreeMap as tree;
ghost use Rattle.std.specs.BTreeMap.Range.{IsLtBy};
ghost use Rattle.linda_tuple.specs.declared.atom.Atom as atoms;
ghost use Rattle.linda_tuple.specs.contracts.atom.AtomOrd.TheImpl as atom_ord;
ghost use Rattle.linda_bag.specs.Filing.{Rows, IsBare, IsIndexed, FindsIndex};
ghost use Rattle.linda_bag.specs.TagIndex.{HasTags, with_head};
ghost use Rattle.linda_bag.specs.TagIndex.{IsAfter, IsBefore, IsPast};

use crate::id_index::{IdIndex, refile, unfile};
use linda_tuple::{Atom, Tuple};
use std::alloc::{AllocError, Global};
use std::collections::BTreeMap;
use std::ops::Bound;

/// What has a head: a tuple, or what a request asks for.
pub trait Tagged {
    ghost tag_of: { Self → atoms.Atom };

    ghost count_of: { Self → ℕ };

    ghost first_of: { Self → Option atoms.Atom };

    /// The tag.
    fn tag(&self) -> &Atom
        ensures { result.now ≡ tag_of self.now };

    /// The number of fields.
    fn count(&self) -> usize
        ensures { result ≡ count_of self.now };

    /// The value that it begins with, if it begins with one.
    fn first(&self) -> Option<&Atom>
        ensures { option_copied result ≡ first_of self.now };
}

impl Tagged for Tuple {
    ghost use Rattle.std.specs.Prelude.{length};
    ghost use Rattle.linda_bag.specs.Candidates.{first_among};

    ghost tag_of = { λ row. row.tag };

    ghost count_of = { λ row. length row.fields };

    ghost first_of = { λ row. first_among row.fields };

    fn tag(&self) -> &Atom {
        self.tag()
    }

    fn count(&self) -> usize {
        self.fields().len()
    }

    fn first(&self) -> Option<&Atom> {
        self.fields().first()
    }
}

/// Indexes under heads.
#[derive(Drop)]
pub struct TagIndex<S> {
    tags: BTreeMap<Atom, Counts<S>>,
}

/// Indexes under numbers of fields, for rows of one tag.
#[derive(Drop)]
struct Counts<S> {
    groups: BTreeMap<usize, S>,
}

/// The index with the rows of this tag and of as many fields; `None` if there are none.
pub fn alike<'a, T: Tagged, S: IdIndex<T>>(
    tag_index: &'a TagIndex<S>,
    tag: &Atom,
    count: usize,
) -> Option<&'a S>
    ensures { FindsIndex (HasTags T.tag_of T.count_of S.has tag_index.now) S.has
        (with_head T.tag_of T.count_of tag.now count) (option_copied result) }
{
    let counts = tag_index.tags.get(tag)?;
    counts.groups.get(&count)
}

/// A head, and the index under it.
pub(crate) struct TagEntry<'a, S> {
    pub(crate) tag: &'a Atom,
    pub(crate) count: usize,
    pub(crate) id_index: &'a S,
}

/// The least head after the last one, by tags and then by numbers of fields; `None` if there is
/// none. Without a last one it is the least of all.
pub(crate) fn next_tag_entry<'a, T: Tagged, S: IdIndex<T>>(
    tag_index: &'a TagIndex<S>,
    last: Option<(&'a Atom, usize)>,
) -> Option<TagEntry<'a, S>>
    ensures past { IfSome result (λ head. IsPast last.entry head.tag.now head.count) }
    ensures found { (rows : Rows T) → HasTags T.tag_of T.count_of S.has tag_index.now rows
        → IfSome result (λ head. IsIndexed S.has (Some head.id_index.now)
        (with_head T.tag_of T.count_of head.tag.now head.count rows)) }
    ensures least { (rows : Rows T) → HasTags T.tag_of T.count_of S.has tag_index.now rows
        → IfSome result (λ head. (tag : atoms.Atom) (count : ℕ) → IsPast last.entry tag count
        → IsBefore tag count head.tag.now head.count
        → IsBare (with_head T.tag_of T.count_of tag count rows)) }
    ensures none { (rows : Rows T) → HasTags T.tag_of T.count_of S.has tag_index.now rows
        → IfNone result ((tag : atoms.Atom) (count : ℕ) → IsPast last.entry tag count
        → IsBare (with_head T.tag_of T.count_of tag count rows)) }
{
    let Some((tag, count)) = last else {
        return next_tag::<T, S>(tag_index, None);
    };
    match next_count::<T, S>(tag_index, tag, count) {
        Some(head) => Some(head),
        None => next_tag::<T, S>(tag_index, Some(tag)),
    }
}

// The least head of the least tag after the last one.
fn next_tag<'a, T: Tagged, S: IdIndex<T>>(
    tag_index: &'a TagIndex<S>,
    last: Option<&'a Atom>,
) -> Option<TagEntry<'a, S>>
    ensures past { IfSome result (λ head. IsAfter atom_ord.ghosts.cmp last.entry head.tag.now) }
    ensures found { (rows : Rows T) → HasTags T.tag_of T.count_of S.has tag_index.now rows
        → IfSome result (λ head. IsIndexed S.has (Some head.id_index.now)
        (with_head T.tag_of T.count_of head.tag.now head.count rows)) }
    ensures least { (rows : Rows T) → HasTags T.tag_of T.count_of S.has tag_index.now rows
        → IfSome result (λ head. (tag : atoms.Atom) (count : ℕ)
        → IsAfter atom_ord.ghosts.cmp last.entry tag
        → IsBefore tag count head.tag.now head.count
        → IsBare (with_head T.tag_of T.count_of tag count rows)) }
    ensures none { (rows : Rows T) → HasTags T.tag_of T.count_of S.has tag_index.now rows
        → IfNone result ((tag : atoms.Atom) (count : ℕ)
        → IsAfter atom_ord.ghosts.cmp last.entry tag
        → IsBare (with_head T.tag_of T.count_of tag count rows)) }
{
    let Some((tag, counts)) = next_id_index(&tag_index.tags, last) else {
        return None;
    };
    let Some((count, id_index)) = next_id_index(&counts.groups, None) else {
        return None;
    };
    Some(TagEntry {
        tag,
        count: *count,
        id_index,
    })
}

// The head of this tag with the least number of fields above `last`.
fn next_count<'a, T: Tagged, S: IdIndex<T>>(
    tag_index: &'a TagIndex<S>,
    tag: &'a Atom,
    last: usize,
) -> Option<TagEntry<'a, S>>
    ensures past { IfSome result (λ head. (head.tag.now ≡ tag.now)
        × IsBefore tag.now last head.tag.now head.count) }
    ensures found { (rows : Rows T) → HasTags T.tag_of T.count_of S.has tag_index.now rows
        → IfSome result (λ head. IsIndexed S.has (Some head.id_index.now)
        (with_head T.tag_of T.count_of head.tag.now head.count rows)) }
    ensures least { (rows : Rows T) → HasTags T.tag_of T.count_of S.has tag_index.now rows
        → IfSome result (λ head. (count : ℕ) → last < count → count < head.count
        → IsBare (with_head T.tag_of T.count_of tag.now count rows)) }
    ensures none { (rows : Rows T) → HasTags T.tag_of T.count_of S.has tag_index.now rows
        → IfNone result ((count : ℕ) → last < count
        → IsBare (with_head T.tag_of T.count_of tag.now count rows)) }
{
    let Some(counts) = tag_index.tags.get(tag) else {
        return None;
    };
    let Some((count, id_index)) = next_id_index(&counts.groups, Some(&last)) else {
        return None;
    };
    Some(TagEntry {
        tag,
        count: *count,
        id_index,
    })
}

// The least key after the last one, and the index under it.
fn next_id_index<'a, K: Ord, S>(
    id_indexes: &'a BTreeMap<K, S>,
    last: Option<&K>,
) -> Option<(&'a K, &'a S)>
    ensures found { IfSome result (λ e. tree.get K.cmp id_indexes.now e.0.now ≡ Some e.1.now) }
    ensures past { IfSome result (λ e. IsAfter K.cmp last.entry e.0.now) }
    ensures least { IfSome result (λ e. (q : K) → IsAfter K.cmp last.entry q
        → IsLtBy K.cmp q e.0.now → tree.get K.cmp id_indexes.now q ≡ None) }
    ensures none { IfNone result ((q : K) → IsAfter K.cmp last.entry q
        → tree.get K.cmp id_indexes.now q ≡ None) }
{
    let from = match last {
        Some(last) => Bound::Excluded(last),
        None => Bound::Unbounded,
    };
    id_indexes.range((from, Bound::Unbounded)).next()
}

impl<T: Tagged, S: IdIndex<T>> IdIndex<T> for TagIndex<S> {
    ghost use Rattle.linda_bag.specs.TagIndex.{HasTags};

    ghost has = { HasTags T.tag_of T.count_of S.has };

    fn empty(alloc: Global) -> TagIndex<S> {
        TagIndex {
            tags: BTreeMap::new(alloc),
        }
    }

    fn put<'a>(
        &mut self,
        alloc: Global,
        id: u64,
        old: Option<&'a T>,
        new: &'a T,
    ) -> Result<(), AllocError> {
        let Some(old) = old else {
            return refile(&mut self.tags, alloc, id, None, Some((new.tag(), new)));
        };
        refile(
            &mut self.tags,
            alloc,
            id,
            Some((old.tag(), old)),
            Some((new.tag(), new)),
        )
    }

    fn remove(&mut self, id: u64, row: &T) {
        unfile(&mut self.tags, id, row.tag(), row);
    }

    fn is_empty(&self) -> bool {
        self.tags.is_empty()
    }
}

impl<T: Tagged, S: IdIndex<T>> IdIndex<T> for Counts<S> {
    ghost use Rattle.linda_bag.specs.TagIndex.{HasCounts};

    ghost has = { HasCounts T.count_of S.has };

    fn empty(alloc: Global) -> Counts<S> {
        Counts {
            groups: BTreeMap::new(alloc),
        }
    }

    fn put<'a>(
        &mut self,
        alloc: Global,
        id: u64,
        old: Option<&'a T>,
        new: &'a T,
    ) -> Result<(), AllocError> {
        let new_count = new.count();
        let Some(old) = old else {
            return refile(&mut self.groups, alloc, id, None, Some((&new_count, new)));
        };
        let old_count = old.count();
        refile(
            &mut self.groups,
            alloc,
            id,
            Some((&old_count, old)),
            Some((&new_count, new)),
        )
    }

    fn remove(&mut self, id: u64, row: &T) {
        unfile(&mut self.groups, id, &row.count(), row);
    }

    fn is_empty(&self) -> bool {
        self.groups.is_empty()
    }
}
