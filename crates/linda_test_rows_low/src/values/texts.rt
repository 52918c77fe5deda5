//! Tuples, templates and atoms as people type them.
//!
//! `tuple TEXT` and `template TEXT` give what is read, as it is written, or why nothing is.
//! `template-at AT TEXT` and `atom-at AT TEXT` read from an offset on, and give the offset after it
//! too. `split BYTES` gives the template at the front of bytes, which need be no UTF-8, and the
//! bytes after it; `skip BYTES` gives only these. `triples ATOM ..` gives how many of all tuples of
//! three of these atoms are written, read again and the same.

use crate::values::told::{tell_alone, tell_front, tell_placed, tell_rest};
use crate::values::typed::is_said;
use linda_test_script::{WordsFault, done, read_hex, read_size, split_word};
use linda_text::{
    read_atom_at, read_template, read_template_at, read_tuple, skip_template, split_template,
    write_tuple,
};
use linda_tuple::{Atom, Tuple};
use std::alloc::{AllocError, Global};

/// Plays a line of a row about texts.
///
/// # Errors
///
/// `Unknown` if it says nothing of the kind; `Memory` if memory runs out.
pub(crate) fn play_texts(alloc: Global, words: &str, came: &mut String) -> Result<(), WordsFault> {
    let (verb, rest) = split_word(words);
    match verb {
        "tuple" => done(tell_alone(alloc, came, read_tuple(alloc, rest))),
        "template" => done(tell_alone(alloc, came, read_template(alloc, rest))),
        "split" => tell_split(alloc, came, rest),
        "skip" => tell_skipped(alloc, came, rest),
        "triples" => tell_triples(alloc, came, rest),
        _ => play_at(alloc, verb, rest, came),
    }
}

// Plays a line that says an offset after the verb.
fn play_at(alloc: Global, verb: &str, words: &str, came: &mut String) -> Result<(), WordsFault> {
    let (at, text) = split_offset(words)?;
    match verb {
        "template-at" => done(tell_placed(alloc, came, read_template_at(alloc, text, at))),
        "atom-at" => done(tell_placed(alloc, came, read_atom_at(alloc, text, at))),
        _ => Err(WordsFault::Unknown),
    }
}

// Appends the template at the front of these bytes, and the bytes after it.
fn tell_split(alloc: Global, came: &mut String, digits: &str) -> Result<(), WordsFault> {
    let bytes = read_hex(alloc, digits)?;
    done(tell_front(alloc, came, split_template(alloc, &bytes)))
}

// Appends the bytes after the template at the front of these.
fn tell_skipped(alloc: Global, came: &mut String, digits: &str) -> Result<(), WordsFault> {
    let bytes = read_hex(alloc, digits)?;
    done(tell_rest(alloc, came, skip_template(&bytes)))
}

/// The offset at the front, and what is after the blank after it.
///
/// # Errors
///
/// `Unknown` if no number is there.
pub(crate) fn split_offset(words: &str) -> Result<(usize, &str), WordsFault> {
    let (at, rest) = split_word(words);
    Ok((read_size(at)?, rest))
}

/// The atoms that are in a text, one after the other.
///
/// # Errors
///
/// `Unknown` if something else is there; `Memory` if memory runs out.
pub(crate) fn atoms_in(alloc: Global, text: &str) -> Result<Vec<Atom>, WordsFault> {
    let mut atoms = Vec::new(alloc);
    let mut at = 0;
    for _ in 0..text.len() {
        if at >= text.len() {
            break;
        }
        let (atom, next) = read_atom_at(alloc, text, at)?;
        atoms.push(atom)?;
        at = next;
    }
    Ok(atoms)
}

fn tell_triples(alloc: Global, came: &mut String, words: &str) -> Result<(), WordsFault> {
    let atoms = atoms_in(alloc, words)?;
    let count = count_triples(alloc, &atoms)?;
    done(writeln!(came, "> {count} come back"))
}

fn count_triples(alloc: Global, atoms: &[Atom]) -> Result<u64, WordsFault> {
    let mut count = 0u64;
    for tag in atoms {
        for first in atoms {
            count = count.saturating_add(count_ends(alloc, tag, first, atoms)?);
        }
    }
    Ok(count)
}

// How many of the tuples with this tag and first field come back.
fn count_ends(alloc: Global, tag: &Atom, first: &Atom, atoms: &[Atom]) -> Result<u64, WordsFault> {
    let mut count = 0u64;
    for second in atoms {
        if comes_back(alloc, tag, first, second)? {
            count = count.saturating_add(1);
        }
    }
    Ok(count)
}

// Whether the tuple of these is what is read of the text that is written of it.
fn comes_back(alloc: Global, tag: &Atom, first: &Atom, second: &Atom) -> Result<bool, WordsFault> {
    let fields = pair_of(alloc, first, second)?;
    match Tuple::new(tag.try_clone(alloc)?, fields) {
        Ok(tuple) => is_read_again(alloc, &tuple),
        Err(_) => Err(WordsFault::Unknown),
    }
}

fn pair_of(alloc: Global, first: &Atom, second: &Atom) -> Result<Vec<Atom>, AllocError> {
    let mut pair = Vec::new(alloc);
    pair.push(first.try_clone(alloc)?)?;
    pair.push(second.try_clone(alloc)?)?;
    Ok(pair)
}

fn is_read_again(alloc: Global, tuple: &Tuple) -> Result<bool, WordsFault> {
    let written = write_tuple(alloc, tuple)?;
    is_said(alloc, tuple, &written)
}
