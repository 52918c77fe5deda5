//! Values as bytes.
//!
//! `spell tuple TUPLE` gives the bytes; `put BYTES ATOM ..` gives these bytes with the atoms' after
//! them; if the form has no spelling, they say so. `get tuple AT BYTES`, and so `template` and
//! `atom`, reads from an offset on, and gives the value and the offset after it. `read tuple
//! BYTES`, and so `template`, `atom`, `u8`, `u32`, `u64` and `bool`, gives the value and the bytes
//! after it. `skip tuple BYTES` and `skip template BYTES` give only the bytes after it. Each gives
//! the fault if nothing is read. Values are in the first form; with `two` after the verb, as in
//! `spell two tuple TUPLE`, they are in the second one. A template is spelled only in the second
//! one, in which each has a spelling: `spell two template TEMPLATE`.

use crate::values::hexadecimal::tell_bytes;
use crate::values::texts::{atoms_in, split_offset};
use crate::values::told::{tell_front, tell_placed, tell_rest};
use crate::values::typed::Typed;
use linda_codec::{
    get_atom, get_template, get_tuple, put_atom, put_template, put_tuple, read_atom, read_bool,
    read_template, read_tuple, read_u8, read_u32, read_u64, skip_template, skip_tuple,
};
use linda_test_script::{WordsFault, done, read_hex, split_word};
use linda_tuple::{Atom, Form, Template, Tuple, fits};
use std::alloc::{AllocError, Global};

// The line for a value that the form has no spelling for.
const NO_SPELLING: &str = "> no spelling\n";

/// Plays a line of a row about bytes.
///
/// # Errors
///
/// `Unknown` if it says nothing of the kind; `Memory` if memory runs out.
pub(crate) fn play_bytes(alloc: Global, words: &str, came: &mut String) -> Result<(), WordsFault> {
    let (verb, rest) = split_word(words);
    let (form, rest) = split_form(rest);
    let (kind, rest) = split_word(rest);
    match verb {
        "spell" => spell(alloc, form, came, kind, rest),
        "put" => put(alloc, form, came, kind, rest),
        "get" => play_get(alloc, form, came, kind, rest),
        _ => play_digits(alloc, form, came, verb, kind, rest),
    }
}

// The form that is asked for, and the words after it.
fn split_form(words: &str) -> (Form, &str) {
    let (word, rest) = split_word(words);
    if word == "two" {
        (Form::Two, rest)
    } else {
        (Form::One, words)
    }
}

fn spell(
    alloc: Global,
    form: Form,
    came: &mut String,
    kind: &str,
    text: &str,
) -> Result<(), WordsFault> {
    match kind {
        "tuple" => done(spell_tuple(alloc, form, came, &Tuple::of_words(alloc, text)?)),
        "template" => spell_template(alloc, form, came, &Template::of_words(alloc, text)?),
        _ => Err(WordsFault::Unknown),
    }
}

fn spell_tuple(
    alloc: Global,
    form: Form,
    came: &mut String,
    tuple: &Tuple,
) -> Result<(), AllocError> {
    if !fits(form, tuple) {
        return came.push_str(NO_SPELLING);
    }
    let mut bytes = Vec::new(alloc);
    put_tuple(form, &mut bytes, tuple)?;
    tell_bytes(alloc, came, &bytes)
}

// Templates are put only in the second form, in which each has a spelling: its patterns are within
// the limits.
fn spell_template(
    alloc: Global,
    form: Form,
    came: &mut String,
    template: &Template,
) -> Result<(), WordsFault> {
    if form == Form::One {
        return Err(WordsFault::Unknown);
    }
    let _patterns = template.fields();
    let mut bytes = Vec::new(alloc);
    put_template(Form::Two, &mut bytes, template)?;
    done(tell_bytes(alloc, came, &bytes))
}

fn put(
    alloc: Global,
    form: Form,
    came: &mut String,
    front: &str,
    atoms: &str,
) -> Result<(), WordsFault> {
    let mut bytes = read_hex(alloc, front)?;
    let atoms = atoms_in(alloc, atoms)?;
    done(put_atoms(alloc, form, came, &mut bytes, &atoms))
}

// Appends the bytes with the atoms' after them, if each has a spelling.
fn put_atoms(
    alloc: Global,
    form: Form,
    came: &mut String,
    bytes: &mut Vec<u8>,
    atoms: &[Atom],
) -> Result<(), AllocError> {
    for atom in atoms {
        if !atom.fits(form) {
            return came.push_str(NO_SPELLING);
        }
        put_atom(form, bytes, atom)?;
    }
    tell_bytes(alloc, came, bytes)
}

fn play_get(
    alloc: Global,
    form: Form,
    came: &mut String,
    kind: &str,
    words: &str,
) -> Result<(), WordsFault> {
    let (at, digits) = split_offset(words)?;
    let bytes = read_hex(alloc, digits)?;
    get(alloc, form, came, kind, &bytes, at)
}

fn get(
    alloc: Global,
    form: Form,
    came: &mut String,
    kind: &str,
    bytes: &[u8],
    at: usize,
) -> Result<(), WordsFault> {
    match kind {
        "tuple" => done(tell_placed(alloc, came, get_tuple(alloc, form, bytes, at))),
        "template" => done(tell_placed(alloc, came, get_template(alloc, form, bytes, at))),
        "atom" => done(tell_placed(alloc, came, get_atom(alloc, form, bytes, at))),
        _ => Err(WordsFault::Unknown),
    }
}

// Plays a line that says bytes after the kind.
fn play_digits(
    alloc: Global,
    form: Form,
    came: &mut String,
    verb: &str,
    kind: &str,
    digits: &str,
) -> Result<(), WordsFault> {
    let bytes = read_hex(alloc, digits)?;
    match verb {
        "read" => read(alloc, form, came, kind, &bytes),
        "skip" => skip(alloc, form, came, kind, &bytes),
        _ => Err(WordsFault::Unknown),
    }
}

fn read(
    alloc: Global,
    form: Form,
    came: &mut String,
    kind: &str,
    bytes: &[u8],
) -> Result<(), WordsFault> {
    match kind {
        "tuple" => done(tell_front(alloc, came, read_tuple(alloc, form, bytes))),
        "template" => done(tell_front(alloc, came, read_template(alloc, form, bytes))),
        "atom" => done(tell_front(alloc, came, read_atom(alloc, form, bytes))),
        "u8" => done(tell_front(alloc, came, read_u8(bytes))),
        "u32" => done(tell_front(alloc, came, read_u32(bytes))),
        "u64" => done(tell_front(alloc, came, read_u64(bytes))),
        "bool" => done(tell_front(alloc, came, read_bool(bytes))),
        _ => Err(WordsFault::Unknown),
    }
}

fn skip(
    alloc: Global,
    form: Form,
    came: &mut String,
    kind: &str,
    bytes: &[u8],
) -> Result<(), WordsFault> {
    match kind {
        "tuple" => done(tell_rest(alloc, came, skip_tuple(form, bytes))),
        "template" => done(tell_rest(alloc, came, skip_template(form, bytes))),
        _ => Err(WordsFault::Unknown),
    }
}
