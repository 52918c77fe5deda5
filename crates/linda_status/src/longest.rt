//! Oldest waits and holds, as JSON.

ghost use Rattle.std.specs.Prelude.{OnOk};
ghost use Rattle.std.specs.List.{flat_map};
ghost use Rattle.linda_inspect.specs.Json.{IsPushed};
ghost use Rattle.linda_status.specs.Longest.{json_asked, json_asker, json_later_wait, json_longest};
ghost use Rattle.linda_status.specs.Longest.{json_takes, json_template, json_wait, json_waited};
ghost use Rattle.linda_status.specs.Longest.{json_waits, json_waits_to_end, json_waits_to_holds};
ghost use Rattle.linda_status.specs.Longest.{json_wanted};

use crate::list_range::read_limit;
use crate::listed::push_rows_to_end;
use crate::lists::{spell_bytes, spell_down, spell_wrong};
use linda_disk::Disk;
use linda_hold::{LongWait, Request};
use linda_inspect::{push_json_member, push_json_string};
use linda_net_watch::PageStatus;
use linda_shared::{LongestWaitsAndHolds, Shared};
use linda_text::push_template;
use linda_tuple::Template;
use std::alloc::{AllocError, Global};
use std::sync::Wait;
use std::sync::ledger::Ledger;

/// Writes the requests that wait for longest and the tuples that are held for longest after what is
/// there, of both as many as the query asks for at most; or what is wrong with it, or that the
/// server is down.
///
/// # Errors
///
/// `AllocError` if memory runs out.
pub(crate) fn spell_longest<D: Disk, L: Ledger, R: Wait>(
    rt: &R,
    alloc: Global,
    shared: &Shared<D, L>,
    query: &[u8],
    page: &mut String,
) -> Result<PageStatus, AllocError> {
    match read_limit(alloc, query)? {
        Ok(limit) => spell_those(rt, alloc, shared, limit, page),
        Err(wrong) => spell_wrong(wrong, page),
    }
}

// Writes so many.
fn spell_those<D: Disk, L: Ledger, R: Wait>(
    rt: &R,
    alloc: Global,
    shared: &Shared<D, L>,
    limit: usize,
    page: &mut String,
) -> Result<PageStatus, AllocError> {
    let Some(found) = shared.list_longest(rt, limit)? else {
        return spell_down(page);
    };
    let mut out = Vec::new(alloc);
    push_longest(alloc, &mut out, &found)?;
    spell_bytes(&out, page)
}

// Appends the whole object.
#[tactic(auto, unfolding(crate::specs::Longest::json_longest))]
fn push_longest(
    alloc: Global,
    out: &mut Vec<u8>,
    found: &LongestWaitsAndHolds,
) -> Result<(), AllocError>
    ensures { OnOk result (IsPushed out.old out.new (json_longest found.now)) }
{
    push_waits_to_holds(alloc, out, &found.waits)?;
    push_rows_to_end(alloc, out, &found.holds)
}

// Those that wait, up to the list of those that are held.
#[tactic(auto, unfolding(crate::specs::Longest::json_waits_to_holds))]
fn push_waits_to_holds(
    alloc: Global,
    out: &mut Vec<u8>,
    rows: &[LongWait],
) -> Result<(), AllocError>
    ensures { OnOk result (IsPushed out.old out.new (json_waits_to_holds rows.now)) }
{
    out.extend_from_slice(b"{\n\"waits\":[")?;
    push_waits_to_end(alloc, out, rows)
}

// Each request that waits, and the beginning of the list of those that are held.
#[tactic(auto, unfolding(crate::specs::Longest::json_waits_to_end))]
fn push_waits_to_end(alloc: Global, out: &mut Vec<u8>, rows: &[LongWait]) -> Result<(), AllocError>
    ensures { OnOk result (IsPushed out.old out.new (json_waits_to_end rows.now)) }
{
    push_waits(alloc, out, rows)?;
    out.extend_from_slice(b"\n],\n\"holds\":[")
}

// Each request that waits.
#[tactic(auto, unfolding(crate::specs::Longest::json_waits))]
fn push_waits(alloc: Global, out: &mut Vec<u8>, rows: &[LongWait]) -> Result<(), AllocError>
    ensures { OnOk result (IsPushed out.old out.new (json_waits rows.now)) }
{
    let Some((first, rest)) = rows.split_first() else {
        return Ok(());
    };
    out.extend_from_slice(b"\n")?;
    push_wait(alloc, out, first)?;
    push_later_waits(alloc, out, rest)
}

// Each later one, after a comma.
fn push_later_waits(alloc: Global, out: &mut Vec<u8>, rows: &[LongWait]) -> Result<(), AllocError>
    ensures { OnOk result (IsPushed out.old out.new (flat_map json_later_wait rows.now)) }
{
    for row in rows {
        push_later_wait(alloc, out, row)?;
    }
    Ok(())
}

// One after a comma.
#[tactic(auto, unfolding(crate::specs::Longest::json_later_wait))]
fn push_later_wait(alloc: Global, out: &mut Vec<u8>, row: &LongWait) -> Result<(), AllocError>
    ensures { OnOk result (IsPushed out.old out.new (json_later_wait row.now)) }
{
    out.extend_from_slice(b",\n")?;
    push_wait(alloc, out, row)
}

// A request that waits.
#[tactic(auto, unfolding(crate::specs::Longest::json_wait))]
fn push_wait(alloc: Global, out: &mut Vec<u8>, row: &LongWait) -> Result<(), AllocError>
    ensures { OnOk result (IsPushed out.old out.new (json_wait row.now)) }
{
    push_asker(out, row.request)?;
    push_asked(
        alloc,
        out,
        row.asked.remove,
        &row.asked.template,
        row.seconds,
    )
}

// Its name.
#[tactic(auto, unfolding(crate::specs::Longest::json_asker))]
fn push_asker(out: &mut Vec<u8>, request: Request) -> Result<(), AllocError>
    ensures { OnOk result (IsPushed out.old out.new (json_asker request.client request.ticket)) }
{
    push_json_member(out, b"{\"client\":", u64::from(request.client))?;
    push_json_member(out, b",\"ticket\":", request.ticket)
}

// Whether it takes what it waits for, that, and for how long it does.
#[tactic(auto, unfolding(crate::specs::Longest::json_asked))]
fn push_asked(
    alloc: Global,
    out: &mut Vec<u8>,
    takes: bool,
    template: &Template,
    seconds: u64,
) -> Result<(), AllocError>
    ensures { OnOk result (IsPushed out.old out.new (json_asked takes template.now seconds)) }
{
    push_takes(out, takes)?;
    push_wanted(alloc, out, template, seconds)
}

// Whether it takes what it waits for.
#[tactic(auto, unfolding(crate::specs::Longest::json_takes))]
fn push_takes(out: &mut Vec<u8>, takes: bool) -> Result<(), AllocError>
    ensures { OnOk result (IsPushed out.old out.new (json_takes takes)) }
{
    if takes {
        return out.extend_from_slice(b",\"takes\":true");
    }
    out.extend_from_slice(b",\"takes\":false")
}

// What it waits for, and for how long.
#[tactic(auto, unfolding(crate::specs::Longest::json_wanted))]
fn push_wanted(
    alloc: Global,
    out: &mut Vec<u8>,
    template: &Template,
    seconds: u64,
) -> Result<(), AllocError>
    ensures { OnOk result (IsPushed out.old out.new (json_wanted template.now seconds)) }
{
    push_text(alloc, out, template)?;
    push_waited(out, seconds)
}

// The text of what it waits for.
#[tactic(auto, unfolding(crate::specs::Longest::json_template))]
fn push_text(alloc: Global, out: &mut Vec<u8>, template: &Template) -> Result<(), AllocError>
    ensures { OnOk result (IsPushed out.old out.new (json_template template.now)) }
{
    let mut text = String::new(alloc);
    push_template(&mut text, template)?;
    out.extend_from_slice(b",\"text\":")?;
    push_json_string(out, text.as_bytes())
}

// For how long it waits, and the end of its row.
#[tactic(auto, unfolding(crate::specs::Longest::json_waited))]
fn push_waited(out: &mut Vec<u8>, seconds: u64) -> Result<(), AllocError>
    ensures { OnOk result (IsPushed out.old out.new (json_waited seconds)) }
{
    push_json_member(out, b",\"seconds\":", seconds)?;
    out.extend_from_slice(b"}")
}
