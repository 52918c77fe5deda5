//! Requests in a line of one client.

use crate::event::read_event;
use crate::fault::EventTextFault;
use crate::word::behind_word;
use linda_event::Event;
use linda_text::{TextFault, read_tuple, skip_blanks};
use linda_tuple::Tuple;
use std::alloc::{AllocError, Global};

/// What a client asks for and waits for.
#[derive(Debug, Drop)]
pub enum Request {
    /// To put a tuple.
    Out(Tuple),
    /// To synchronize on an event.
    Sync(Event),
    /// To leave.
    Leave,
}

/// What a line of one client asks for, `out TUPLE`, `sync EVENT` or `leave`: `None` if it is empty
/// or begins with `#`, and `Some(None)` if it is no such line. A line has no line feed and no
/// carriage return at its end.
///
/// # Errors
///
/// `AllocError` if memory runs out.
pub fn read_request(alloc: Global, line: &[u8]) -> Result<Option<Option<Request>>, AllocError> {
    match line {
        [] => Ok(None),
        [b'#', ..] => Ok(None),
        [_, ..] => Ok(Some(request_in(alloc, skip_blanks(line))?)),
    }
}

// What a client asks for, in a text without blanks before it.
fn request_in(alloc: Global, text: &[u8]) -> Result<Option<Request>, AllocError> {
    if let Some(rest) = behind_word(text, b"out") {
        return Ok(tuple_in(alloc, rest)?.map(|tuple| Request::Out(tuple)));
    }
    if let Some([]) = behind_word(text, b"leave") {
        return Ok(Some(Request::Leave));
    }
    match behind_word(text, b"sync") {
        Some(rest) => Ok(event_in(alloc, rest)?.map(|event| Request::Sync(event))),
        None => Ok(None),
    }
}

// The tuple that is all of the text.
fn tuple_in(alloc: Global, text: &[u8]) -> Result<Option<Tuple>, AllocError> {
    let Ok(text) = std::str::from_utf8(text) else {
        return Ok(None);
    };
    match read_tuple(alloc, text) {
        Ok(tuple) => Ok(Some(tuple)),
        Err(TextFault::Memory) => Err(AllocError),
        Err(_) => Ok(None),
    }
}

// The event that is all of the text.
fn event_in(alloc: Global, text: &[u8]) -> Result<Option<Event>, AllocError> {
    let Ok(text) = std::str::from_utf8(text) else {
        return Ok(None);
    };
    match read_event(alloc, text) {
        Ok(event) => Ok(Some(event)),
        Err(EventTextFault::Text(TextFault::Memory)) => Err(AllocError),
        Err(_) => Ok(None),
    }
}
