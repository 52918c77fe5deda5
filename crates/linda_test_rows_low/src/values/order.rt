//! The order of atoms and of texts, and when tuples and templates are equal.
//!
//! `atoms ATOM ..` gives a line for each of them, how it compares to each: `<`, `=` or `>`. `texts
//! ATOM ..` compares what the strings say. `tuples TUPLE | TUPLE` and `templates TEMPLATE |
//! TEMPLATE` give whether they are equal.

use crate::values::texts::atoms_in;
use crate::values::typed::{Typed, is_said};
use crate::values::words::split_pair;
use linda_test_script::{WordsFault, done, split_word};
use linda_tuple::{Atom, Template, Text, Tuple};
use std::alloc::{AllocError, Global};
use std::cmp::Ordering;

/// Plays a line of a row about the order of values.
///
/// # Errors
///
/// `Unknown` if it says nothing of the kind; `Memory` if memory runs out.
pub(crate) fn play_order(alloc: Global, words: &str, came: &mut String) -> Result<(), WordsFault> {
    let (verb, rest) = split_word(words);
    match verb {
        "atoms" => tell_orders(came, atoms_in(alloc, rest)),
        "texts" => tell_orders(came, texts_in(alloc, rest)),
        "tuples" => tell_same::<Tuple>(alloc, came, rest),
        "templates" => tell_same::<Template>(alloc, came, rest),
        _ => Err(WordsFault::Unknown),
    }
}

// The texts of these strings.
fn texts_in(alloc: Global, strings: &str) -> Result<Vec<Text>, WordsFault> {
    let mut texts = Vec::new(alloc);
    for atom in atoms_in(alloc, strings)? {
        match atom {
            Atom::Text(text) => texts.push(text)?,
            _ => return Err(WordsFault::Unknown),
        }
    }
    Ok(texts)
}

// Appends the lines of what was read.
fn tell_orders<T: Ord + Drop>(
    came: &mut String,
    read: Result<Vec<T>, WordsFault>,
) -> Result<(), WordsFault> {
    let items = read?;
    done(push_orders(came, &items))
}

// A line for each, which says how it compares to each.
fn push_orders<T: Ord>(came: &mut String, items: &[T]) -> Result<(), AllocError> {
    for one in items {
        came.push('>')?;
        push_order(came, one, items)?;
        came.push('\n')?;
    }
    Ok(())
}

fn push_order<T: Ord>(came: &mut String, one: &T, items: &[T]) -> Result<(), AllocError> {
    for other in items {
        came.push_str(sign_of(one.cmp(other)))?;
    }
    Ok(())
}

fn sign_of(order: Ordering) -> &'static str {
    match order {
        Ordering::Less => " <",
        Ordering::Equal => " =",
        Ordering::Greater => " >",
    }
}

// Appends whether the two values are equal.
fn tell_same<V: Typed + PartialEq>(
    alloc: Global,
    came: &mut String,
    words: &str,
) -> Result<(), WordsFault> {
    let (one, other) = split_pair(words)?;
    let one = V::of_words(alloc, one)?;
    let same = is_said(alloc, &one, other)?;
    done(came.push_str(if same { "> equal\n" } else { "> not equal\n" }))
}
