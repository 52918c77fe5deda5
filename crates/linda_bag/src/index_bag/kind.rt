//! Kinds of tuples, a tag and a number of fields each, and how many tuples a bag has of one.

ghost use Rattle.std.specs.Prelude.{ℕ, IfSome, IfNone};
ghost use Rattle.std.specs.FinMap as map;
ghost use Rattle.linda_tuple.specs.declared.atom.Atom as atoms;
ghost use Rattle.linda_bag.specs.Candidates.{tag_of, count_of};
ghost use Rattle.linda_bag.specs.Filing.{IsBare};
ghost use Rattle.linda_bag.specs.TagIndex.{IsBefore, IsPast, with_head};
ghost use Rattle.linda_bag.specs.Ids.{IsCount};

use crate::index::Group;
use crate::index_bag::IndexBag;
use crate::tag_index::{TagEntry, next_tag_entry};
use linda_tuple::{Atom, Tuple};

/// The tuples of one tag and one number of fields.
#[derive(Clone, Copy)]
pub struct Kind<'a> {
    pub tag: &'a Atom,
    pub fields: usize,
    /// How many there are.
    pub tuples: usize,
}

impl IndexBag {
    /// The next kind of tuples after the last one, by tags and then by numbers of fields; `None` if
    /// there is none. Without a last one it is the first of all. Takes no walk over tuples.
    pub fn kind_after<'a>(&'a self, last: Option<(&'a Atom, usize)>) -> Option<Kind<'a>>
        ensures past { IfSome result (λ kind. IsPast last.entry kind.tag.now kind.fields) }
        ensures counted { IfSome result (λ kind.
            IsCount (with_head tag_of count_of kind.tag.now kind.fields (map.get self.now))
            kind.tuples) }
        ensures some { IfSome result (λ kind.
            IsBare (with_head tag_of count_of kind.tag.now kind.fields (map.get self.now)) → ⊥) }
        ensures least { IfSome result (λ kind. (tag : atoms.Atom) (fields : ℕ)
            → IsPast last.entry tag fields → IsBefore tag fields kind.tag.now kind.fields
            → IsBare (with_head tag_of count_of tag fields (map.get self.now))) }
        ensures none { IfNone result ((tag : atoms.Atom) (fields : ℕ)
            → IsPast last.entry tag fields
            → IsBare (with_head tag_of count_of tag fields (map.get self.now))) }
    {
        let Some(
            TagEntry {
                tag,
                count,
                id_index,
            },
        ) = next_tag_entry::<Tuple, Group>(&self.index, last)
        else {
            return None;
        };
        Some(Kind {
            tag,
            fields: count,
            tuples: id_index.len(),
        })
    }
}
