//! Tuples and templates of a run, without memory of their own, and which of them match by
//! `docs/PROTOCOL.md`.

use linda_tuple::{Atom, Pattern, Template, Text, Tuple};
use std::alloc::{AllocError, Global};

/// How many words tuples begin with, and how many kinds there are.
pub const WORDS: u32 = 3;

/// A tuple: a word, a number that no other tuple has, and a kind.
#[derive(Clone, Copy, PartialEq, Eq)]
pub struct Value {
    pub word: u8,
    pub number: u64,
    pub kind: u8,
}

/// What the kind of a tuple has to be.
#[derive(Clone, Copy, PartialEq, Eq)]
pub enum Field {
    Is(u8),
    AnyInt,
    AnyText,
    Any,
}

/// A template: a word, a formal or a wildcard for the number, and what the kind has to be.
#[derive(Clone, Copy, PartialEq, Eq)]
pub struct Form {
    pub word: u8,
    /// The number is bound.
    pub is_bound: bool,
    pub field: Field,
}

impl Form {
    /// Whether it matches the tuple.
    pub fn fits(self, value: Value) -> bool {
        if self.word != value.word {
            return false;
        }
        match self.field {
            Field::Is(kind) => kind == value.kind,
            Field::AnyInt => true,
            Field::AnyText => false,
            Field::Any => true,
        }
    }

    /// Whether these are the values that it binds of the tuple.
    pub fn binds(self, value: Value, bound: &[Atom]) -> bool {
        let binds_kind = self.field == Field::AnyInt;
        match bound {
            [] => !self.is_bound && !binds_kind,
            [one] => {
                if self.is_bound {
                    !binds_kind && is_int(one, value.number)
                } else {
                    binds_kind && is_int(one, u64::from(value.kind))
                }
            }
            [one, other] => {
                self.is_bound
                    && binds_kind
                    && is_int(one, value.number)
                    && is_int(other, u64::from(value.kind))
            }
            _ => false,
        }
    }
}

/// Whether the atom is this integer.
pub fn is_int(atom: &Atom, number: u64) -> bool {
    match atom {
        Atom::Int(came) => u64::try_from(*came) == Ok(number),
        _ => false,
    }
}

// An integer's atom.
fn int_of(number: u64) -> Atom {
    Atom::Int(i64::try_from(number).unwrap_or(0))
}

// A word, by its number.
fn text_of(alloc: Global, word: u8) -> Result<Atom, AllocError> {
    let text = match word {
        0 => "a",
        1 => "b",
        _ => "c",
    };
    Ok(Atom::Text(Text::new(String::from_str(alloc, text)?)))
}

/// The tuple.
pub fn tuple_of(alloc: Global, value: Value) -> Result<Tuple, AllocError> {
    let mut fields = Vec::with_capacity(alloc, 2)?;
    fields.push(int_of(value.number))?;
    fields.push(int_of(u64::from(value.kind)))?;
    match Tuple::new(text_of(alloc, value.word)?, fields) {
        Ok(tuple) => Ok(tuple),
        Err(_) => Err(AllocError),
    }
}

/// The template.
pub fn template_of(alloc: Global, form: Form) -> Result<Template, AllocError> {
    let mut fields = Vec::with_capacity(alloc, 2)?;
    fields.push(number_pattern(form))?;
    fields.push(kind_pattern(form))?;
    match Template::new(text_of(alloc, form.word)?, fields) {
        Ok(template) => Ok(template),
        Err(_) => Err(AllocError),
    }
}

fn number_pattern(form: Form) -> Pattern {
    if form.is_bound {
        Pattern::IntFormal
    } else {
        Pattern::Any
    }
}

fn kind_pattern(form: Form) -> Pattern {
    match form.field {
        Field::Is(kind) => Pattern::Value(int_of(u64::from(kind))),
        Field::AnyInt => Pattern::IntFormal,
        Field::AnyText => Pattern::TextFormal,
        Field::Any => Pattern::Any,
    }
}

/// The tuple, if it is one of a run.
pub fn value_of(tuple: &Tuple) -> Option<Value> {
    let word = word_in(tuple.tag())?;
    match tuple.fields() {
        [Atom::Int(number), Atom::Int(kind)] => Some(Value {
            word,
            number: u64::try_from(*number).unwrap_or(0),
            kind: u8::try_from(*kind).unwrap_or(u8::MAX),
        }),
        _ => None,
    }
}

// The number of a word.
fn word_in(tag: &Atom) -> Option<u8> {
    let Atom::Text(text) = tag else {
        return None;
    };
    match text.as_str().as_bytes() {
        b"a" => Some(0),
        b"b" => Some(1),
        b"c" => Some(2),
        _ => None,
    }
}
