//! Tuples and templates that are made of parts, which may be too many or too long.
//!
//! `tuple TAG FIELD ..` and `template TAG PATTERN ..` give what is made. A part is a number,
//! `true`, `_`, or else the text that it is.

use crate::values::told::tell_alone;
use linda_test_script::{WordsFault, done, split_word};
use linda_tuple::{Atom, Pattern, Template, Text, Tuple};
use std::alloc::{AllocError, Global};

/// Plays a line of a row about limits.
///
/// # Errors
///
/// `Unknown` if it says nothing of the kind; `Memory` if memory runs out.
pub(crate) fn play_limits(alloc: Global, words: &str, came: &mut String) -> Result<(), WordsFault> {
    let (verb, rest) = split_word(words);
    let (tag, parts) = split_word(rest);
    match verb {
        "tuple" => done(make_tuple(alloc, came, tag, parts)),
        "template" => done(make_template(alloc, came, tag, parts)),
        _ => Err(WordsFault::Unknown),
    }
}

fn make_tuple(alloc: Global, came: &mut String, tag: &str, parts: &str) -> Result<(), AllocError> {
    let fields = all_of(alloc, parts)?;
    tell_alone(alloc, came, Tuple::new(Atom::of_part(alloc, tag)?, fields))
}

fn make_template(
    alloc: Global,
    came: &mut String,
    tag: &str,
    parts: &str,
) -> Result<(), AllocError> {
    let patterns = all_of(alloc, parts)?;
    tell_alone(
        alloc,
        came,
        Template::new(Atom::of_part(alloc, tag)?, patterns),
    )
}

/// What a part says.
trait Part: Drop {
    fn of_part(alloc: Global, part: &str) -> Result<Self, AllocError>;
}

impl Part for Atom {
    fn of_part(alloc: Global, part: &str) -> Result<Atom, AllocError> {
        if part == "true" {
            return Ok(Atom::Bool(true));
        }
        match part.parse::<i64>() {
            Ok(number) => Ok(Atom::Int(number)),
            Err(_) => Ok(Atom::Text(Text::new(String::from_str(alloc, part)?))),
        }
    }
}

impl Part for Pattern {
    fn of_part(alloc: Global, part: &str) -> Result<Pattern, AllocError> {
        if part == "_" {
            Ok(Pattern::Any)
        } else {
            Ok(Pattern::Value(Atom::of_part(alloc, part)?))
        }
    }
}

// What the parts say, between which blanks are.
fn all_of<P: Part>(alloc: Global, parts: &str) -> Result<Vec<P>, AllocError> {
    let mut all = Vec::new(alloc);
    for part in parts.split_whitespace() {
        all.push(P::of_part(alloc, part)?)?;
    }
    Ok(all)
}
