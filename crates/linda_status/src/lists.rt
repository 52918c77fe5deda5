//! Some of the tuples or of the clients of a server.

use crate::list_range::{BadParameter, ListRange, read_part};
use crate::listed::{push_client_page, push_tuple_page};
use crate::pages::JSON;
use crate::pause::let_others;
use linda_disk::Disk;
use linda_net_watch::PageStatus;
use linda_shared::{Gathered, MOST_LOOKED, Shared, TuplePage, TupleQuery};
use std::alloc::{AllocError, Global};
use std::sync::Wait;
use std::sync::ledger::Ledger;
use std::time::Clock;

/// Writes those tuples that the query asks for after what is there; or what is wrong with it, or
/// that the server is down.
///
/// # Errors
///
/// `AllocError` if memory runs out.
pub(crate) fn spell_tuples<D: Disk, L: Ledger, R: Wait + Clock>(
    rt: &R,
    alloc: Global,
    shared: &Shared<D, L>,
    query: &[u8],
    page: &mut String,
) -> Result<PageStatus, AllocError> {
    match read_part(alloc, query, true)? {
        Ok(part) => spell_tuple_page(rt, alloc, shared, part, page),
        Err(wrong) => spell_wrong(wrong, page),
    }
}

/// Writes those clients that the query asks for after what is there; or what is wrong with it, or
/// that the server is down.
///
/// # Errors
///
/// `AllocError` if memory runs out.
pub(crate) fn spell_clients<D: Disk, L: Ledger, R: Wait>(
    rt: &R,
    alloc: Global,
    shared: &Shared<D, L>,
    query: &[u8],
    page: &mut String,
) -> Result<PageStatus, AllocError> {
    match read_part(alloc, query, false)? {
        Ok(part) => spell_client_page(rt, alloc, shared, &part, page),
        Err(wrong) => spell_wrong(wrong, page),
    }
}

// Writes this part of the tuples.
fn spell_tuple_page<D: Disk, L: Ledger, R: Wait + Clock>(
    rt: &R,
    alloc: Global,
    shared: &Shared<D, L>,
    part: ListRange,
    page: &mut String,
) -> Result<PageStatus, AllocError> {
    let from = part.from();
    let limit = part.limit();
    let query = TupleQuery::new(from, part.into_tag(), limit);
    let Some(found) = gather(rt, alloc, shared, query)? else {
        return spell_down(page);
    };
    let mut out = Vec::new(alloc);
    push_tuple_page(alloc, &mut out, &found)?;
    spell_bytes(&out, page)
}

// The tuples that are asked for, a piece at a time: others have the server between two of them.
// Nothing if the server is down.
fn gather<D: Disk, L: Ledger, R: Wait + Clock>(
    rt: &R,
    alloc: Global,
    shared: &Shared<D, L>,
    query: TupleQuery,
) -> Result<Option<TuplePage>, AllocError> {
    let mut gathered = Gathered::new(alloc, query);
    // Each piece but the last one has a row at least.
    for _ in 0..MOST_LOOKED {
        let Some(piece) = shared.list_tuples(rt, gathered.query())? else {
            return Ok(None);
        };
        if !gathered.add_piece(piece)? {
            break;
        }
        let_others(rt);
    }
    Ok(Some(gathered.into_page()))
}

// Writes this part of the clients.
fn spell_client_page<D: Disk, L: Ledger, R: Wait>(
    rt: &R,
    alloc: Global,
    shared: &Shared<D, L>,
    part: &ListRange,
    page: &mut String,
) -> Result<PageStatus, AllocError> {
    let Some(found) = shared.list_clients(rt, part.from_client(), part.limit())? else {
        return spell_down(page);
    };
    let mut out = Vec::new(alloc);
    push_client_page(&mut out, &found)?;
    spell_bytes(&out, page)
}

/// Writes that the server is down.
pub(crate) fn spell_down(page: &mut String) -> Result<PageStatus, AllocError> {
    page.push_str("the server is down\n")?;
    Ok(PageStatus::Unavailable)
}

/// Writes which parameter is wrong, and why.
pub(crate) fn spell_wrong(
    wrong: BadParameter,
    page: &mut String,
) -> Result<PageStatus, AllocError> {
    let BadParameter { number, why } = wrong;
    write!(page, "parameter {number}: {why}\n")?;
    Ok(PageStatus::BadQuery)
}

/// Writes the bytes of an object of JSON, which are UTF-8.
pub(crate) fn spell_bytes(bytes: &[u8], page: &mut String) -> Result<PageStatus, AllocError> {
    spell_text(bytes, page)?;
    Ok(PageStatus::Page(JSON))
}

/// Writes bytes of JSON, which are UTF-8.
pub(crate) fn spell_text(bytes: &[u8], page: &mut String) -> Result<(), AllocError> {
    let Ok(text) = std::str::from_utf8(bytes) else {
        return Err(AllocError);
    };
    page.push_str(text)
}
