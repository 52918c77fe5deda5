//! Samples of the tags that the command line names: how many tuples have each.

ghost use Rattle.std.specs.Prelude.{◌≡◌, ◌++◌, ◌∷◌, [], ◌^◌, ◌-◌, filter, min, OnOk};
ghost use Rattle.std.specs.List.{flat_map, sum_by};
ghost use Rattle.linda_inspect.specs.Json.{IsPushed};
ghost use Rattle.linda_status.specs.Tagged.{is_named, is_text, label_byte, sample_name};
ghost use Rattle.linda_status.specs.Tagged.{sample_to_end, tag_sample};
ghost use Rattle.linda_status.specs.Tagged.{tuples_if, value_to_end};

use crate::kinds::Kinds;
use crate::lists::spell_text;
use linda_disk::Disk;
use linda_inspect::push_json_member;
use linda_shared::{ListedKind, Shared};
use linda_tuple::Atom;
use std::alloc::{AllocError, Global};
use std::sync::Wait;
use std::sync::ledger::Ledger;
use std::time::Clock;

/// What goes before the samples.
const HEAD: &str = "# HELP linda_tagged_tuples Tuples of a tag, held ones too.\n\
    # TYPE linda_tagged_tuples gauge\n";

// The bytes that the value of a label has escapes for.
const QUOTE: u8 = b'"';

const BACKSLASH: u8 = b'\\';

const NEWLINE: u8 = b'\n';

/// Writes how many tuples have each of these texts for their tag, of all numbers of fields
/// together, after what is there. It goes by the index, and takes no walk over tuples. If the
/// server is down, or has more kinds of tuples than are looked at, nothing is written.
///
/// # Errors
///
/// `AllocError` if memory runs out.
pub(crate) fn spell_tagged<D: Disk, L: Ledger, R: Wait + Clock>(
    rt: &R,
    alloc: Global,
    shared: &Shared<D, L>,
    tags: &[String],
    page: &mut String,
) -> Result<(), AllocError> {
    if tags.is_empty() {
        return Ok(());
    }
    let Some(rows) = named_kinds(rt, alloc, shared, tags)? else {
        return Ok(());
    };
    page.push_str(HEAD)?;
    let mut out = Vec::new(alloc);
    push_samples(&mut out, tags, &rows)?;
    spell_text(&out, page)
}

// The kinds of these texts; nothing if the server is down, or has more kinds than are looked at.
fn named_kinds<D: Disk, L: Ledger, R: Wait + Clock>(
    rt: &R,
    alloc: Global,
    shared: &Shared<D, L>,
    tags: &[String],
) -> Result<Option<Vec<ListedKind>>, AllocError> {
    let mut kinds = Kinds::new();
    let mut rows = Vec::new(alloc);
    for _ in rt.forever() {
        let Some(piece) = kinds.next(rt, alloc, shared)? else {
            return Ok(None);
        };
        let is_whole = piece.is_whole;
        keep_named(&mut rows, piece.rows, tags)?;
        if is_whole {
            return Ok(Some(rows));
        }
        if kinds.is_over() {
            return Ok(None);
        }
    }
    Ok(None)
}

// Puts those of these texts after the rows.
fn keep_named(
    rows: &mut Vec<ListedKind>,
    more: Vec<ListedKind>,
    tags: &[String],
) -> Result<(), AllocError>
    ensures { OnOk result (rows.new.items
        ≡ rows.old.items ++ filter (is_named tags.now) more.items) }
{
    for row in more {
        keep_if_named(rows, row, tags)?;
    }
    Ok(())
}

// Puts the row after the others if its tag is one of these texts.
fn keep_if_named(
    rows: &mut Vec<ListedKind>,
    row: ListedKind,
    tags: &[String],
) -> Result<(), AllocError>
    ensures { OnOk result (rows.new.items
        ≡ rows.old.items ++ filter (is_named tags.now) (row ∷ [])) }
{
    if is_named(&row, tags) {
        rows.push(row)?;
    }
    Ok(())
}

// Whether the tag of a row is one of these texts.
fn is_named(row: &ListedKind, tags: &[String]) -> bool
    ensures { result ≡ is_named tags.now row.now }
{
    tags.iter().any(|tag| is_text(&row.tag, tag.as_str()))
}

// A sample for each tag; one that comes again has none.
fn push_samples(out: &mut Vec<u8>, tags: &[String], rows: &[ListedKind]) -> Result<(), AllocError> {
    for (index, tag) in tags.iter().enumerate() {
        let text = tag.as_str();
        if !is_among(&tags[..index.min(tags.len())], text) {
            push_sample(out, text, tuples_of(rows, text))?;
        }
    }
    Ok(())
}

// Whether the text is one of these.
fn is_among(tags: &[String], text: &str) -> bool {
    for tag in tags {
        if tag.as_str() == text {
            return true;
        }
    }
    false
}

// How many tuples have this text for their tag.
fn tuples_of(rows: &[ListedKind], text: &str) -> u64
    ensures { result ≡ min (sum_by (tuples_if text.now) rows.now) (2 ^ 64 - 1) }
{
    let mut total: u64 = 0;
    for row in rows {
        total = total.saturating_add(tuples_if(row, text));
    }
    total
}

// How many tuples a row has, if their tag is this text; else 0.
fn tuples_if(row: &ListedKind, text: &str) -> u64
    ensures { result ≡ tuples_if text.now row.now }
{
    if is_text(&row.tag, text) {
        return row.tuples as u64;
    }
    0
}

// Whether the value is this text.
fn is_text(atom: &Atom, text: &str) -> bool
    ensures { result ≡ is_text atom.now text.now }
{
    match atom {
        Atom::Text(own) => own.as_str() == text,
        Atom::Int(_) => false,
        Atom::Bool(_) => false,
    }
}

// How many tuples have the tag, as a line.
#[tactic(auto, unfolding(crate::specs::Tagged::tag_sample))]
fn push_sample(out: &mut Vec<u8>, text: &str, tuples: u64) -> Result<(), AllocError>
    ensures { OnOk result (IsPushed out.old out.new (tag_sample text.now tuples)) }
{
    push_name(out)?;
    push_to_end(out, text, tuples)
}

// The name of the metric, and that of its label.
#[tactic(auto, unfolding(crate::specs::Tagged::sample_name))]
fn push_name(out: &mut Vec<u8>) -> Result<(), AllocError>
    ensures { OnOk result (IsPushed out.old out.new sample_name) }
{
    out.extend_from_slice(b"linda_tagged_tuples{tag=\"")
}

// The value of the label, and what follows.
#[tactic(auto, unfolding(crate::specs::Tagged::sample_to_end))]
fn push_to_end(out: &mut Vec<u8>, text: &str, tuples: u64) -> Result<(), AllocError>
    ensures { OnOk result (IsPushed out.old out.new (sample_to_end text.now tuples)) }
{
    push_label(out, text.as_bytes())?;
    push_value(out, tuples)
}

// The end of the label, and how many there are.
#[tactic(auto, unfolding(crate::specs::Tagged::value_to_end))]
fn push_value(out: &mut Vec<u8>, tuples: u64) -> Result<(), AllocError>
    ensures { OnOk result (IsPushed out.old out.new (value_to_end tuples)) }
{
    push_json_member(out, b"\"} ", tuples)?;
    out.extend_from_slice(b"\n")
}

// The value of a label.
fn push_label(out: &mut Vec<u8>, bytes: &[u8]) -> Result<(), AllocError>
    ensures { OnOk result (IsPushed out.old out.new (flat_map label_byte bytes.now)) }
{
    for byte in bytes {
        push_byte(out, *byte)?;
    }
    Ok(())
}

// A byte of the value of a label, as itself or as an escape.
fn push_byte(out: &mut Vec<u8>, byte: u8) -> Result<(), AllocError>
    ensures { OnOk result (IsPushed out.old out.new (label_byte byte)) }
{
    if byte == QUOTE {
        return out.extend_from_slice(b"\\\"");
    }
    if byte == BACKSLASH {
        return out.extend_from_slice(b"\\\\");
    }
    if byte == NEWLINE {
        return out.extend_from_slice(b"\\n");
    }
    out.push(byte)?;
    Ok(())
}
