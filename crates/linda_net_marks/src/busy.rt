//! Client numbers that are refused Busy again and again.
//!
//! A program that looks for a free number of a range asks for each number once, and goes on. One
//! that asks for a number that another program has asks for it again and again. Only the second is
//! for an operator to know.

ghost use Rattle.std.specs.Prelude.{◌≡◌, [], IfOk, OnOk};
ghost use Rattle.linda_net_marks.specs.Busy.{begun, judged, newest, others, run_of, with_run};

use std::alloc::{AllocError, Global};

/// How many client numbers are remembered. For one more the one goes that was refused longest ago.
const MOST: usize = 64;

/// Refusals of a number belong together if they come within so many milliseconds of each other.
const GAP: u64 = 250;

/// They count if they span so many milliseconds.
const SPAN: u64 = 1_000;

/// Refusals of one client number, each soon after the one before.
#[derive(Clone, Copy, Debug, PartialEq, Eq)]
pub(crate) struct BusyRun {
    pub(crate) client: u32,
    /// When the first of them came, and when the last one came, in milliseconds.
    pub(crate) first: u64,
    pub(crate) last: u64,
}

/// What a refusal comes to.
#[derive(Clone, Copy, Debug, PartialEq, Eq)]
pub(crate) struct RefusalVerdict {
    /// The run that it belongs to.
    pub(crate) run: BusyRun,
    /// Whether it counts.
    pub(crate) counts: bool,
}

/// What a refusal of the client comes to, at this millisecond, after the run before, if there is
/// one.
pub(crate) fn judged(client: u32, before: Option<BusyRun>, now: u64) -> RefusalVerdict
    ensures { result ≡ judged client before now }
{
    let Some(run) = before else {
        return begun(client, now, false);
    };
    if now.saturating_sub(run.last) >= GAP {
        return begun(client, now, false);
    }
    if now.saturating_sub(run.first) >= SPAN {
        return begun(client, now, true);
    }
    RefusalVerdict {
        run: BusyRun {
            client: run.client,
            first: run.first,
            last: now,
        },
        counts: false,
    }
}

// A run begins with a refusal now, which counts or does not.
fn begun(client: u32, now: u64, counts: bool) -> RefusalVerdict
    ensures { result ≡ begun client now counts }
{
    RefusalVerdict {
        run: BusyRun {
            client,
            first: now,
            last: now,
        },
        counts,
    }
}

/// The runs of the client numbers that were refused last, in the order of their last refusals.
#[derive(Drop)]
pub(crate) struct BusyRuns {
    runs: Vec<BusyRun>,
}

impl BusyRuns {
    /// Nobody was refused. Takes no memory until somebody is.
    pub(crate) fn new(alloc: Global) -> BusyRuns
        ensures { result.runs.items ≡ [] }
    {
        BusyRuns {
            runs: Vec::new(alloc),
        }
    }

    /// A client is refused at this millisecond. Says whether that counts.
    ///
    /// # Errors
    ///
    /// `AllocError` if there is no memory to remember it.
    pub(crate) fn refuse(&mut self, client: u32, now: u64) -> Result<bool, AllocError>
        ensures counts { IfOk result (λ counts.
            counts ≡ (judged client (run_of client self.old.runs.items) now).counts) }
        ensures kept { OnOk result (self.new.runs.items ≡ with_run client
            (judged client (run_of client self.old.runs.items) now).run self.old.runs.items) }
    {
        let judged = judged(client, run_of(&self.runs, client), now);
        forget(&mut self.runs, client);
        make_room(&mut self.runs);
        self.runs.push(judged.run)?;
        Ok(judged.counts)
    }
}

// The client has no run.
fn forget(runs: &mut Vec<BusyRun>, client: u32)
    ensures { runs.new.items ≡ others client runs.old.items }
{
    runs.retain(|run| run.client != client);
}

// There is room for one run more: if there are as many as are remembered, the first goes.
fn make_room(runs: &mut Vec<BusyRun>)
    ensures { runs.new.items ≡ newest runs.old.items }
{
    if runs.len() >= MOST {
        let _ = runs.remove(0);
    }
}

// The run of the client, if there is one.
fn run_of(runs: &[BusyRun], client: u32) -> Option<BusyRun>
    ensures { result ≡ run_of client runs.now }
{
    let Some((first, rest)) = runs.split_first() else {
        return None;
    };
    if first.client == client {
        return Some(*first);
    }
    run_of(rest, client)
}
