//! Walks over requests that wait, in order of arrival, for a tuple that may answer them.

ghost use Rattle.std.specs.Prelude.{◌≡◌, map, IfOk};
ghost use Rattle.std.specs.Option.{option_map};
ghost use Rattle.linda_hold.specs.Waits.{is_awaited, longest, readers};

use crate::request::Request;
use crate::wait_candidates::WaitCandidates;
use linda_tuple::{Tuple, matches};
use std::alloc::{AllocError, Global};

/// The requests that wait for a tuple: the reads, in order of arrival, and the input that has
/// waited longest.
#[derive(Debug, Drop)]
pub struct Awaiting {
    pub readers: Vec<Request>,
    pub longest: Option<Request>,
}

/// The first input of these that the tuple answers.
pub(crate) fn first_input(mut waits: WaitCandidates<'_>, tuple: &Tuple) -> Option<Request>
    ensures { result ≡ option_map (λ w. w.0) (longest tuple.now waits.entry) }
{
    while let Some((request, asked)) = waits.next() {
        if asked.is_input_matching(tuple) {
            return Some(*request);
        }
    }
    None
}

/// Whether the tuple answers some request of these.
pub(crate) fn is_answering_one(mut waits: WaitCandidates<'_>, tuple: &Tuple) -> bool
    ensures { result ≡ is_awaited tuple.now waits.entry }
{
    while let Some((_, asked)) = waits.next() {
        if matches(&asked.template, tuple) {
            return true;
        }
    }
    false
}

/// The requests of these that wait for the tuple.
///
/// # Errors
///
/// `AllocError` if memory runs out.
pub(crate) fn awaiting_among(
    alloc: Global,
    mut waits: WaitCandidates<'_>,
    tuple: &Tuple,
) -> Result<Awaiting, AllocError>
    ensures readers { IfOk result (λ a.
        a.readers.items ≡ map (λ w. w.0) (readers tuple.now waits.entry)) }
    ensures longest { IfOk result (λ a.
        a.longest ≡ option_map (λ w. w.0) (longest tuple.now waits.entry)) }
{
    let mut readers = Vec::new(alloc);
    let mut longest = None;
    while let Some((request, asked)) = waits.next() {
        if asked.is_read_matching(tuple) {
            readers.push(*request)?;
        } else if longest.is_none() && asked.is_input_matching(tuple) {
            longest = Some(*request);
        }
    }
    Ok(Awaiting { readers, longest })
}
