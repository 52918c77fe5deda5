//! The requests that wait, in order of arrival.

use crate::servers::typed::{template_of, tuple_of};
use linda_hold::{Asked, Request, Waits};
use linda_test_script::{
    WordsFault, done, read_number, read_numbered, read_small_number, split_number, split_word,
    tell, tell_found, tell_two,
};
use linda_text::push_template;
use std::alloc::Global;

/// Lets requests wait, or wait no more, or shows them, as the words say.
pub(crate) fn play_waits(
    alloc: Global,
    waits: &mut Waits,
    words: &str,
    came: &mut String,
) -> Result<(), WordsFault> {
    let (word, rest) = split_word(words);
    match word {
        "wait" => wait(alloc, waits, rest, came),
        "remove" => {
            waits.remove(read_request(rest)?);
            Ok(())
        }
        "leaves" => {
            waits.remove_client(read_small_number(rest)?);
            Ok(())
        }
        "second" => {
            waits.set_second(read_number(rest)?);
            Ok(())
        }
        "readers" => take_readers(alloc, waits, rest, came),
        _ => show(alloc, waits, word, rest, came),
    }
}

/// The request of these two words, its client and its ticket.
pub(crate) fn read_request(words: &str) -> Result<Request, WordsFault> {
    let (client, rest) = read_numbered(words)?;
    let ticket = read_number(rest)?;
    Ok(Request { client, ticket })
}

/// Writes a request, or that there is none.
pub(crate) fn tell_request(request: Option<Request>, came: &mut String) -> Result<(), WordsFault> {
    match request {
        Some(request) => tell_two(came, request.client, request.ticket),
        None => tell(came, "none"),
    }
}

// Lets a request wait, as `2 1 rd (7)`; if it waits already, that is said.
fn wait(
    alloc: Global,
    waits: &mut Waits,
    words: &str,
    came: &mut String,
) -> Result<(), WordsFault> {
    let (client, rest) = read_numbered(words)?;
    let (ticket, rest) = split_number(rest)?;
    let (verb, template) = split_word(rest);
    let template = template_of(alloc, template)?;
    let asked = Asked {
        remove: verb == "in",
        template,
    };
    add(waits, Request { client, ticket }, asked, came)
}

// Lets the request wait, if it does not already.
fn add(
    waits: &mut Waits,
    request: Request,
    asked: Asked,
    came: &mut String,
) -> Result<(), WordsFault> {
    if waits.contains(request) {
        tell(came, "waits already")
    } else {
        done(waits.add(request, asked))
    }
}

// Takes out the reads that the tuple answers, and gives them.
fn take_readers(
    alloc: Global,
    waits: &mut Waits,
    words: &str,
    came: &mut String,
) -> Result<(), WordsFault> {
    let tuple = tuple_of(alloc, words)?;
    for request in &waits.take_readers(alloc, &tuple)? {
        tell_request(Some(*request), came)?;
    }
    Ok(())
}

// Shows what the words ask: whether a request waits, how many requests do, in all or of a client,
// or who waits for a tuple.
fn show(
    alloc: Global,
    waits: &Waits,
    what: &str,
    which: &str,
    came: &mut String,
) -> Result<(), WordsFault> {
    match what {
        "waits" => tell_whether(waits.contains(read_request(which)?), came),
        "count" => tell(came, waits.len()),
        "of" => tell(came, waits.count_of(read_small_number(which)?)),
        "oldest" => tell_found(came, waits.oldest()),
        "ages" => tell_oldest(alloc, waits, read_number(which)?, came),
        _ => show_awaiting(alloc, waits, what, which, came),
    }
}

// Writes the requests that wait for longest, so many at most: each with what it asks, and for how
// many seconds it waits.
fn tell_oldest(
    alloc: Global,
    waits: &Waits,
    most: u64,
    came: &mut String,
) -> Result<(), WordsFault> {
    for wait in &waits.longest_of_all(alloc, most as usize)? {
        let verb = if wait.asked.remove { "in" } else { "rd" };
        write!(
            came,
            "> {} {} {verb} ",
            wait.request.client, wait.request.ticket
        )?;
        push_template(came, &wait.asked.template)?;
        writeln!(came, " {}", wait.seconds)?;
    }
    Ok(())
}

// Shows who waits longest for a tuple, or whether anybody does.
fn show_awaiting(
    alloc: Global,
    waits: &Waits,
    what: &str,
    tuple: &str,
    came: &mut String,
) -> Result<(), WordsFault> {
    let tuple = tuple_of(alloc, tuple)?;
    match what {
        "longest" => tell_request(waits.longest(&tuple), came),
        "awaited" => tell_whether(waits.is_awaited(&tuple), came),
        _ => Err(WordsFault::Unknown),
    }
}

// Writes whether something is so.
fn tell_whether(is_so: bool, came: &mut String) -> Result<(), WordsFault> {
    tell(came, if is_so { "yes" } else { "no" })
}
