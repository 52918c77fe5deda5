//! Matches of a template, and what it binds.
//!
//! `match TEMPLATE | TUPLE` gives what the template binds in the tuple. `fits TEMPLATE | TUPLE`
//! gives of each field of the tuple whether the template's first pattern fits it.

use crate::values::typed::Typed;
use crate::values::words::split_pair;
use linda_test_script::{WordsFault, done, split_word};
use linda_text::push_atom;
use linda_tuple::{Atom, Pattern, Template, Tuple, bindings, matches};
use std::alloc::{AllocError, Global};

/// Plays a line of a row about matching.
///
/// # Errors
///
/// `Unknown` if it says nothing of the kind; `Memory` if memory runs out.
pub(crate) fn play_matching(
    alloc: Global,
    words: &str,
    came: &mut String,
) -> Result<(), WordsFault> {
    let (verb, rest) = split_word(words);
    let (template, tuple) = split_pair(rest)?;
    let template = Template::of_words(alloc, template)?;
    let tuple = Tuple::of_words(alloc, tuple)?;
    match verb {
        "match" => done(tell_bindings(alloc, came, &template, &tuple)),
        "fits" => tell_fits(came, &template, &tuple),
        _ => Err(WordsFault::Unknown),
    }
}

fn tell_bindings(
    alloc: Global,
    came: &mut String,
    template: &Template,
    tuple: &Tuple,
) -> Result<(), AllocError> {
    if !matches(template, tuple) {
        return came.push_str("> no match\n");
    }
    came.push_str("> binds")?;
    push_atoms(came, &bindings(alloc, template, tuple)?)?;
    came.push('\n')
}

// Appends the atoms, each after a blank.
fn push_atoms(came: &mut String, atoms: &[Atom]) -> Result<(), AllocError> {
    for atom in atoms {
        came.push(' ')?;
        push_atom(came, atom)?;
    }
    Ok(())
}

fn tell_fits(came: &mut String, template: &Template, tuple: &Tuple) -> Result<(), WordsFault> {
    match template.fields().first() {
        Some(pattern) => done(tell_fitting(came, pattern, tuple.fields())),
        None => Err(WordsFault::Unknown),
    }
}

// A line that says of each atom whether the pattern fits it.
fn tell_fitting(came: &mut String, pattern: &Pattern, atoms: &[Atom]) -> Result<(), AllocError> {
    came.push('>')?;
    for atom in atoms {
        came.push_str(if pattern.fits(atom) { " yes" } else { " no" })?;
    }
    came.push('\n')
}
