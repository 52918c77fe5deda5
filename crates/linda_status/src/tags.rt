//! Tags as JSON: how many tuples there are of each tag and number of fields.

ghost use Rattle.std.specs.Prelude.{◌≡◌, ◌++◌, ◌+◌, nat_lt, vec_len, OnOk, IfOk};
ghost use Rattle.std.specs.List.{flat_map};
ghost use Rattle.std.specs.List.Sorted.{IsPermutation, IsNonDecreasingBy};
ghost use Rattle.linda_inspect.specs.Json.{IsPushed};
ghost use Rattle.linda_status.specs.Tags.{json_first_tag, json_later_tag, json_of_kind, json_tag};
ghost use Rattle.linda_status.specs.Tags.{json_tag_page, json_tags, json_tags_to_end, json_whole};
ghost use Rattle.linda_status.specs.Tags.{to_go, AreMost};

use crate::kinds::Kinds;
use crate::list_range::read_limit;
use crate::lists::{spell_bytes, spell_down, spell_wrong};
use linda_disk::Disk;
use linda_inspect::{push_json_atom, push_json_member};
use linda_net_watch::PageStatus;
use linda_shared::{KindPage, ListedKind, Shared};
use std::alloc::{AllocError, Global};
use std::sync::Wait;
use std::sync::ledger::Ledger;
use std::time::Clock;

/// Writes how many tuples there are of each tag and number of fields after what is there, most
/// first, and as many as the query asks for; or what is wrong with it, or that the server is down.
///
/// # Errors
///
/// `AllocError` if memory runs out.
pub(crate) fn spell_tags<D: Disk, L: Ledger, R: Wait + Clock>(
    rt: &R,
    alloc: Global,
    shared: &Shared<D, L>,
    query: &[u8],
    page: &mut String,
) -> Result<PageStatus, AllocError> {
    match read_limit(alloc, query)? {
        Ok(limit) => spell_tag_page(rt, alloc, shared, limit, page),
        Err(wrong) => spell_wrong(wrong, page),
    }
}

// Writes so many.
fn spell_tag_page<D: Disk, L: Ledger, R: Wait + Clock>(
    rt: &R,
    alloc: Global,
    shared: &Shared<D, L>,
    limit: usize,
    page: &mut String,
) -> Result<PageStatus, AllocError> {
    let Some(found) = most_kinds(rt, alloc, shared, limit)? else {
        return spell_down(page);
    };
    let mut out = Vec::new(alloc);
    push_tag_page(&mut out, &found.rows, found.is_whole)?;
    spell_bytes(&out, page)
}

// Those of which there are most, so many at most, and whether they are all; nothing if the server
// is down.
fn most_kinds<D: Disk, L: Ledger, R: Wait + Clock>(
    rt: &R,
    alloc: Global,
    shared: &Shared<D, L>,
    limit: usize,
) -> Result<Option<KindPage>, AllocError> {
    let mut kinds = Kinds::new();
    let mut rows = Vec::new(alloc);
    let mut is_cut = false;
    for _ in rt.forever() {
        let Some(piece) = kinds.next(rt, alloc, shared)? else {
            return Ok(None);
        };
        let is_whole = piece.is_whole;
        let cuts = keep_most(&mut rows, piece.rows, limit)?;
        is_cut = is_cut || cuts;
        if is_whole || kinds.is_over() {
            let is_whole = is_whole && !is_cut;
            return Ok(Some(KindPage { rows, is_whole }));
        }
    }
    Ok(None)
}

// Of the rows and more of them those of which there are most stay, so many at most, and come first.
// Returns whether some do not stay.
fn keep_most(
    rows: &mut Vec<ListedKind>,
    more: Vec<ListedKind>,
    limit: usize,
) -> Result<bool, AllocError>
    ensures most { OnOk result (AreMost (rows.old.items ++ more.items) limit rows.new.items) }
    ensures cut { IfOk result (λ cut. cut ≡ nat_lt limit (vec_len rows.old + vec_len more)) }
{
    let mut more = more;
    rows.append(&mut more)?;
    let is_cut = limit < rows.len();
    put_most_first(rows)?;
    rows.truncate(limit);
    Ok(is_cut)
}

// Puts those of which there are more before those of which there are fewer. Those of which there
// are as many stay in their order.
fn put_most_first(rows: &mut Vec<ListedKind>) -> Result<(), AllocError>
    ensures same { IsPermutation rows.old.items rows.new.items }
    ensures sorted { OnOk result (IsNonDecreasingBy to_go rows.new.items) }
{
    rows.sort_by_key(|row| usize::MAX - row.tuples)
}

// Appends these, and whether they are all.
#[tactic(auto, unfolding(crate::specs::Tags::json_tag_page))]
fn push_tag_page(out: &mut Vec<u8>, rows: &[ListedKind], is_whole: bool) -> Result<(), AllocError>
    ensures { OnOk result (IsPushed out.old out.new (json_tag_page rows.now is_whole)) }
{
    out.extend_from_slice(b"{\n\"tags\":[")?;
    push_tags_to_end(out, rows, is_whole)
}

// Each of them, and the end of the object.
#[tactic(auto, unfolding(crate::specs::Tags::json_tags_to_end))]
fn push_tags_to_end(
    out: &mut Vec<u8>,
    rows: &[ListedKind],
    is_whole: bool,
) -> Result<(), AllocError>
    ensures { OnOk result (IsPushed out.old out.new (json_tags_to_end rows.now is_whole)) }
{
    push_tags(out, rows)?;
    push_is_whole(out, is_whole)
}

// Whether they are all, and the end of the object.
#[tactic(auto, unfolding(crate::specs::Tags::json_whole))]
fn push_is_whole(out: &mut Vec<u8>, is_whole: bool) -> Result<(), AllocError>
    ensures { OnOk result (IsPushed out.old out.new (json_whole is_whole)) }
{
    if is_whole {
        return out.extend_from_slice(b"\n],\n\"whole\":true\n}\n");
    }
    out.extend_from_slice(b"\n],\n\"whole\":false\n}\n")
}

// Each of them.
#[tactic(auto, unfolding(crate::specs::Tags::json_tags))]
fn push_tags(out: &mut Vec<u8>, rows: &[ListedKind]) -> Result<(), AllocError>
    ensures { OnOk result (IsPushed out.old out.new (json_tags rows.now)) }
{
    let Some((first, rest)) = rows.split_first() else {
        return Ok(());
    };
    push_first_tag(out, first)?;
    push_later_tags(out, rest)
}

// The first one.
#[tactic(auto, unfolding(crate::specs::Tags::json_first_tag))]
fn push_first_tag(out: &mut Vec<u8>, row: &ListedKind) -> Result<(), AllocError>
    ensures { OnOk result (IsPushed out.old out.new (json_first_tag row.now)) }
{
    out.extend_from_slice(b"\n")?;
    push_tag(out, row)
}

// Each later one, after a comma.
fn push_later_tags(out: &mut Vec<u8>, rows: &[ListedKind]) -> Result<(), AllocError>
    ensures { OnOk result (IsPushed out.old out.new (flat_map json_later_tag rows.now)) }
{
    for row in rows {
        push_later_tag(out, row)?;
    }
    Ok(())
}

// One after a comma.
#[tactic(auto, unfolding(crate::specs::Tags::json_later_tag))]
fn push_later_tag(out: &mut Vec<u8>, row: &ListedKind) -> Result<(), AllocError>
    ensures { OnOk result (IsPushed out.old out.new (json_later_tag row.now)) }
{
    out.extend_from_slice(b",\n")?;
    push_tag(out, row)
}

// A tag with a number of fields, and how many tuples have both.
#[tactic(auto, unfolding(crate::specs::Tags::json_tag))]
fn push_tag(out: &mut Vec<u8>, row: &ListedKind) -> Result<(), AllocError>
    ensures { OnOk result (IsPushed out.old out.new (json_tag row.now)) }
{
    out.extend_from_slice(b"{\"tag\":")?;
    push_json_atom(out, &row.tag)?;
    push_of_kind(out, row.fields, row.tuples)
}

// The number of fields, and how many tuples there are; the end of the row.
#[tactic(auto, unfolding(crate::specs::Tags::json_of_kind))]
fn push_of_kind(out: &mut Vec<u8>, fields: usize, tuples: usize) -> Result<(), AllocError>
    ensures { OnOk result (IsPushed out.old out.new (json_of_kind fields tuples)) }
{
    push_json_member(out, b",\"fields\":", fields as u64)?;
    push_json_member(out, b",\"tuples\":", tuples as u64)?;
    out.extend_from_slice(b"}")
}
