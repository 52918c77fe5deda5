//! Copies of values.
//!
//! `tuple TUPLE` and `template TEMPLATE` give a copy. `text LETTERS` gives the text's count of
//! bytes, whether it is empty, its letters, whether a copy is equal to it, and the letters that the
//! copy gives back.

use crate::values::told::tell_value;
use crate::values::typed::Typed;
use linda_test_script::{WordsFault, done, split_word};
use linda_tuple::{Template, Text, Tuple};
use std::alloc::{AllocError, Global};

/// Plays a line of a row about copies.
///
/// # Errors
///
/// `Unknown` if it says nothing of the kind; `Memory` if memory runs out.
pub(crate) fn play_copies(alloc: Global, words: &str, came: &mut String) -> Result<(), WordsFault> {
    let (verb, rest) = split_word(words);
    match verb {
        "tuple" => tell_copy::<Tuple>(alloc, came, rest),
        "template" => tell_copy::<Template>(alloc, came, rest),
        "text" => done(copy_text(alloc, came, rest)),
        _ => Err(WordsFault::Unknown),
    }
}

fn tell_copy<V: Typed>(alloc: Global, came: &mut String, text: &str) -> Result<(), WordsFault> {
    let value = V::of_words(alloc, text)?;
    done(tell_copied(alloc, came, &value))
}

fn tell_copied<V: Typed>(alloc: Global, came: &mut String, value: &V) -> Result<(), AllocError> {
    let copy = value.copied(alloc)?;
    tell_value(alloc, came, &copy)
}

fn copy_text(alloc: Global, came: &mut String, letters: &str) -> Result<(), AllocError> {
    let text = Text::new(String::from_str(alloc, letters)?);
    tell_text(came, &text, text.try_clone(alloc)?)
}

// Appends what the text says of itself, whether the copy is equal to it, and what the copy gives
// back.
fn tell_text(came: &mut String, text: &Text, copy: Text) -> Result<(), AllocError> {
    let count = text.len();
    let is_empty = if text.is_empty() {
        "empty"
    } else {
        "not empty"
    };
    let is_equal = if copy == *text { "equal" } else { "not equal" };
    let letters = text.as_str();
    let back = copy.into_string();
    writeln!(
        came,
        "> {count} bytes\n> {is_empty}\n> letters {letters}\n> copy {is_equal}\n> back {back}"
    )
}
