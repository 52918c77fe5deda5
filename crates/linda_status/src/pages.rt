//! Pages of a server over HTTP: its numbers, in three forms, and what it keeps.

ghost use Rattle.std.specs.Prelude.{◌≡◌};
ghost use Rattle.linda_status.specs.Status.{page_kind_at};

use crate::about::About;
use crate::absent::taken_by_absent;
use crate::json::spell_json;
use crate::lists::{spell_clients, spell_tuples};
use crate::longest::spell_longest;
use crate::metrics::spell_metrics;
use crate::page::PAGE;
use crate::tagged::spell_tagged;
use crate::tags::spell_tags;
use linda_disk::Disk;
use linda_net_marks::CounterValues;
use linda_net_watch::{PageQuery, PageStatus, StatusPages};
use linda_shared::Shared;
use std::alloc::{AllocError, Global};
use std::sync::Wait;
use std::sync::ledger::Ledger;
use std::time::{Clock, Instant};

/// The kind of an object of JSON.
pub(crate) const JSON: &str = "application/json";

/// What is at a path.
#[derive(Clone, Copy)]
enum PageKind {
    /// A page that people read.
    Page,
    /// The text that Prometheus reads.
    Metrics,
    /// One object of JSON.
    Json,
    /// Some of the tuples, in one object of JSON.
    Tuples,
    /// Some of the clients, in one object of JSON.
    Clients,
    /// How many tuples there are of each tag, in one object of JSON.
    Tags,
    /// What waits and what is held for longest, in one object of JSON.
    Longest,
}

/// The pages of a server.
#[derive(Clone, Copy)]
pub struct Pages<'a> {
    /// The allocator of pages.
    pub alloc: Global,
    /// What stays the same of the server.
    pub about: About<'a>,
    /// The tags whose tuples are counted.
    pub metrics: &'a [String],
    /// When it began to serve, if the clock could be read.
    pub begin: Option<Instant>,
}

impl<'a> StatusPages for Pages<'a> {
    fn spell<D: Disk, L: Ledger, R: Wait + Clock>(
        &self,
        rt: &R,
        shared: &Shared<D, L>,
        tally: &CounterValues,
        asked: PageQuery<'_>,
        page: &mut String,
    ) -> Result<PageStatus, AllocError> {
        let Some(form) = page_kind_at(asked.path) else {
            return Ok(PageStatus::NotFound);
        };
        match form {
            PageKind::Page => page.push_str(PAGE)?,
            PageKind::Metrics => {
                let absent = taken_by_absent(rt, shared);
                spell_metrics(page, &shared.gauge(rt), tally, absent)?;
                spell_tagged(rt, self.alloc, shared, self.metrics, page)?;
            }
            PageKind::Json => {
                let absent = taken_by_absent(rt, shared);
                let uptime = seconds_since(rt, self.begin);
                let gauge = shared.gauge(rt);
                spell_json(self.alloc, page, &self.about, uptime, &gauge, tally, absent)?;
            }
            PageKind::Tuples => return spell_tuples(rt, self.alloc, shared, asked.query, page),
            PageKind::Clients => return spell_clients(rt, self.alloc, shared, asked.query, page),
            PageKind::Tags => return spell_tags(rt, self.alloc, shared, asked.query, page),
            PageKind::Longest => return spell_longest(rt, self.alloc, shared, asked.query, page),
        }
        Ok(PageStatus::Page(kind_of(form)))
    }
}

// How many seconds have gone by since then, if that is known.
fn seconds_since<R: Clock>(rt: &R, begin: Option<Instant>) -> Option<u64> {
    let passed = begin?.elapsed(rt).ok()?;
    Some(passed.as_secs())
}

// What is at this path, if anything is.
fn page_kind_at(path: &[u8]) -> Option<PageKind>
    ensures { result ≡ page_kind_at path.now }
{
    if path == b"/".as_slice() {
        Some(PageKind::Page)
    } else if path == b"/metrics".as_slice() {
        Some(PageKind::Metrics)
    } else if path == b"/status.json".as_slice() {
        Some(PageKind::Json)
    } else if path == b"/tuples".as_slice() {
        Some(PageKind::Tuples)
    } else if path == b"/clients".as_slice() {
        Some(PageKind::Clients)
    } else if path == b"/tags".as_slice() {
        Some(PageKind::Tags)
    } else if path == b"/longest".as_slice() {
        Some(PageKind::Longest)
    } else {
        None
    }
}

// How a form is named in an answer.
fn kind_of(form: PageKind) -> &'static str {
    match form {
        PageKind::Page => "text/html; charset=utf-8",
        PageKind::Metrics => "text/plain; version=0.0.4",
        PageKind::Json => JSON,
        PageKind::Tuples => JSON,
        PageKind::Clients => JSON,
        PageKind::Tags => JSON,
        PageKind::Longest => JSON,
    }
}
