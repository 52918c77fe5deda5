//! The alarm that a waiting client has to wake up for.

use linda_event::{Base, Event, bases};
use linda_shell_text::Request;
use std::alloc::{AllocError, Global};

/// The first time after `now` at which an alarm of this request is due; `None` if it has none.
///
/// # Errors
///
/// `AllocError` if memory runs out.
pub(super) fn next_alarm(
    alloc: Global,
    request: &Request,
    now: u64,
) -> Result<Option<u64>, AllocError> {
    match request {
        Request::Sync(event) => next_of(alloc, event, now),
        Request::Out(_) => Ok(None),
        Request::Leave => Ok(None),
    }
}

fn next_of(alloc: Global, event: &Event, now: u64) -> Result<Option<u64>, AllocError> {
    let mut next = None;
    for base in &bases(alloc, event)? {
        if let Base::Alarm(time) = base {
            next = sooner(next, *time, now);
        }
    }
    Ok(next)
}

// The sooner of two times, of which the second counts only if it is after `now`.
fn sooner(next: Option<u64>, time: u64, now: u64) -> Option<u64> {
    match next {
        Some(other) if other <= time => next,
        _ if time > now => Some(time),
        _ => next,
    }
}
