//! The book: the last number of each client, and the reply that is kept for it.

use crate::servers::typed::tuple_of;
use linda_book::{Book, Class, KeptReply};
use linda_test_script::{
    WordsFault, done, read_number, read_numbered, read_small_number, split_number, split_word,
    tell, tell_found, tell_two,
};
use linda_text::write_tuple;
use std::alloc::{AllocError, Global};

/// Lets the book do what the words say.
pub(crate) fn play_book(
    alloc: Global,
    book: &mut Book,
    words: &str,
    came: &mut String,
) -> Result<(), WordsFault> {
    let (word, rest) = split_word(words);
    match word {
        "keep" => keep(alloc, book, rest),
        "copy" => copy(alloc, rest, came),
        "class" => show_class(book, rest, came),
        "clients" => tell(came, book.len()),
        _ => show(alloc, book, word, read_small_number(rest)?, came),
    }
}

// Keeps a number and a reply for a client.
fn keep(alloc: Global, book: &mut Book, words: &str) -> Result<(), WordsFault> {
    let (client, rest) = read_numbered(words)?;
    let (n, rest) = split_number(rest)?;
    done(book.keep(client, n, read_kept(alloc, rest)?))
}

// The reply of these words: `stored ID`, `taken ID TUPLE`, `gone`, or `left`.
fn read_kept(alloc: Global, words: &str) -> Result<KeptReply, WordsFault> {
    let (word, rest) = split_word(words);
    match word {
        "stored" => Ok(KeptReply::Stored(read_number(rest)?)),
        "taken" => {
            let (id, tuple) = split_number(rest)?;
            Ok(KeptReply::Taken(id, tuple_of(alloc, tuple)?))
        }
        "gone" => Ok(KeptReply::Gone),
        "left" => Ok(KeptReply::Left),
        _ => Err(WordsFault::Unknown),
    }
}

// Writes a copy of the reply of these words.
fn copy(alloc: Global, words: &str, came: &mut String) -> Result<(), WordsFault> {
    let copy = read_kept(alloc, words)?.try_clone(alloc)?;
    came.push_str("> ")?;
    done(tell_reply(alloc, &copy, came))
}

// Writes the number and the reply that are kept as a line, or that there are none.
fn tell_kept(
    alloc: Global,
    kept: Option<(u64, &KeptReply)>,
    came: &mut String,
) -> Result<(), AllocError> {
    match kept {
        Some((n, reply)) => {
            write!(came, "> {n} ")?;
            tell_reply(alloc, reply, came)
        }
        None => came.push_str("> none\n"),
    }
}

// Appends the words of a reply, and the end of the line.
fn tell_reply(alloc: Global, reply: &KeptReply, came: &mut String) -> Result<(), AllocError> {
    match reply {
        KeptReply::Stored(id) => writeln!(came, "stored {id}"),
        KeptReply::Taken(id, tuple) => {
            let tuple = write_tuple(alloc, tuple)?;
            writeln!(came, "taken {id} {tuple}")
        }
        KeptReply::Gone => came.push_str("gone\n"),
        KeptReply::Left => came.push_str("left\n"),
    }
}

// Writes the class of a number of a client.
fn show_class(book: &Book, words: &str, came: &mut String) -> Result<(), WordsFault> {
    let (client, n) = read_numbered(words)?;
    tell_class(book.classify(client, read_number(n)?), came)
}

fn tell_class(class: Class, came: &mut String) -> Result<(), WordsFault> {
    match class {
        Class::Fresh => tell(came, "fresh"),
        Class::Kept => tell(came, "kept"),
        Class::Old(last) => tell_two(came, "old", last),
        Class::Left(last) => tell_two(came, "left", last),
        Class::Gap(last) => tell_two(came, "gap", last),
    }
}

// Shows what the words ask of a client: what is kept for it, its last number, whether it left by
// that, and which client comes from this one on or above it.
fn show(
    alloc: Global,
    book: &Book,
    what: &str,
    client: u32,
    came: &mut String,
) -> Result<(), WordsFault> {
    match what {
        "kept" => done(tell_kept(alloc, book.kept(client), came)),
        "last" => tell(came, book.last(client)),
        "standing" => {
            let (last, left) = book.standing(client);
            tell_two(came, last, if left { "left" } else { "stays" })
        }
        "from" => tell_found(came, book.next_from(client)),
        "above" => tell_found(came, book.next_after(client)),
        _ => Err(WordsFault::Unknown),
    }
}
