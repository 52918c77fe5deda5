//! Kinds of tuples, a piece at a time: how many there are of each tag and number of fields.

ghost use Rattle.std.specs.Prelude.{◌≡◌, IfOk, IfSome, IfNone};
ghost use Rattle.linda_shared_listing.specs.Kinds.{head_in, row_in, IsNextKind, IsLastHead};
ghost use Rattle.linda_shared_listing.specs.Kinds.{IsKindPage};

use crate::limits::MOST_AT_ONCE;
use linda_bag::{IndexBag, Kind};
use linda_tuple::Atom;
use std::alloc::{AllocError, Global};

/// How many tuples there are of one kind, at one moment.
#[derive(Drop)]
pub struct ListedKind {
    pub tag: Atom,
    pub fields: usize,
    /// One at least.
    pub tuples: usize,
}

/// Some of the kinds, as they were at one moment.
#[derive(Drop)]
pub struct KindPage {
    /// They are in the order of their tags and, of one tag, of the numbers of fields.
    pub rows: Vec<ListedKind>,
    /// Whether there are no others.
    pub is_whole: bool,
}

/// The first kinds of tuples after this one, or of all, as many as are asked for at most, and never
/// more than 64. Takes no walk over the tuples.
///
/// # Errors
///
/// `AllocError` if memory runs out.
pub fn list_kinds<'a>(
    alloc: Global,
    bag: &'a IndexBag,
    after: Option<(&'a Atom, usize)>,
    limit: usize,
) -> Result<KindPage, AllocError>
    ensures { IfOk result (IsKindPage bag.now (head_in after.entry) limit) }
{
    let most = limit.min(MOST_AT_ONCE);
    let mut rows = Vec::new(alloc);
    let mut last = after;
    for _ in 0..most {
        let Some(kind) = next_kind(bag, last) else {
            return Ok(KindPage {
                rows,
                is_whole: true,
            });
        };
        rows.push(listed(alloc, kind)?)?;
        last = Some((kind.tag, kind.fields));
    }
    match next_kind(bag, last) {
        Some(_) => Ok(KindPage {
            rows,
            is_whole: false,
        }),
        None => Ok(KindPage {
            rows,
            is_whole: true,
        }),
    }
}

// The next kind after the last one, or the first of all.
fn next_kind<'a>(bag: &'a IndexBag, last: Option<(&'a Atom, usize)>) -> Option<Kind<'a>>
    ensures found { IfSome result (λ kind.
        IsNextKind bag.now (head_in last.entry) (row_in kind)) }
    ensures none { IfNone result (IsLastHead bag.now (head_in last.entry)) }
{
    bag.kind_after(last)
}

// A kind as it is listed, with a tag of its own.
fn listed(alloc: Global, kind: Kind<'_>) -> Result<ListedKind, AllocError>
    ensures { IfOk result (λ row. row ≡ row_in kind.entry) }
{
    Ok(ListedKind {
        tag: kind.tag.try_clone(alloc)?,
        fields: kind.fields,
        tuples: kind.tuples,
    })
}
