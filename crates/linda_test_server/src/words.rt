//! Messages about tuples of a word and a number, and the first one of a session.

use crate::host::{Host, Welcome};
use linda_tuple::{Atom, Pattern, Template, Text, Tuple};
use linda_wire::{Message, VERSION};
use std::alloc::{AllocError, Global};
use std::sync::Wait;

fn text(alloc: Global, word: &str) -> Result<Atom, AllocError> {
    Ok(Atom::Text(Text::new(String::from_str(alloc, word)?)))
}

/// The greeting of a client, which knows of none before if it is fresh.
pub fn hello(client: u32, fresh: bool) -> Message {
    Message::Hello {
        version: VERSION,
        client,
        fresh,
    }
}

/// Puts (word, number).
///
/// # Errors
///
/// `AllocError` if memory runs out.
pub fn put(alloc: Global, n: u64, word: &str, number: i64) -> Result<Message, AllocError> {
    let mut fields = Vec::new(alloc);
    fields.push(Atom::Int(number))?;
    match Tuple::new(text(alloc, word)?, fields) {
        Ok(tuple) => Ok(Message::Out { n, tuple }),
        Err(_) => Err(AllocError),
    }
}

/// Asks to take what matches (word, pattern).
///
/// # Errors
///
/// `AllocError` if memory runs out.
pub fn ask(
    alloc: Global,
    ticket: u64,
    word: &str,
    pattern: Pattern,
) -> Result<Message, AllocError> {
    let mut fields = Vec::new(alloc);
    fields.push(pattern)?;
    match Template::new(text(alloc, word)?, fields) {
        Ok(template) => Ok(Message::Ask {
            ticket,
            remove: true,
            template,
        }),
        Err(_) => Err(AllocError),
    }
}

/// The number of a tuple of a word and a number.
pub fn number_in(tuple: &Tuple) -> Option<i64> {
    match tuple.fields() {
        [Atom::Int(number)] => Some(*number),
        _ => None,
    }
}

/// A seat and an outlet for a client that was not there before.
///
/// # Errors
///
/// `AllocError` if it is refused, or memory runs out.
pub fn seated<S: Drop, O: Drop, H: Host<S, O>, R: Wait>(
    rt: &R,
    host: &H,
    client: u32,
) -> Result<(S, O), AllocError> {
    match host.greet(rt, &hello(client, true)) {
        Ok(Welcome::Seated(seat, outlet, _)) => Ok((seat, outlet)),
        _ => Err(AllocError),
    }
}
