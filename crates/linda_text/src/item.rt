//! Atoms and patterns, without blanks before them: read, or passed over without taking memory.

ghost use Rattle.std.specs.Prelude.{IsOk, IsErrOf};
ghost use Rattle.linda_text.specs.Reading.{atom_at, formal_at, pattern_at};
ghost use Rattle.linda_codec.specs.Steps.{left_by};
ghost use Rattle.linda_text.specs.Steps.{Gives, GivesAlways};

use crate::fault::TextFault;
use crate::field::Field;
use crate::integer::read_integer;
use crate::marks::{
    BOOL_LETTER, FALSE_LETTER, INT_LETTER, QUESTION, QUOTE, TEXT_LETTER, TRUE_LETTER, WILDCARD,
};
use crate::string::{read_string, skip_string};
use crate::word::skip_word;
use linda_tuple::{Atom, Pattern};
use std::alloc::Global;

/// The atom at the front, and the bytes after it.
#[tactic(auto, unfolding(crate::specs::Reading::atom_at))]
pub(crate) fn read_atom(alloc: Global, bytes: &[u8]) -> Result<(Atom, &[u8]), TextFault>
    ensures value { Gives (λ x. (x.0, x.1.now)) result (atom_at bytes.now) }
    ensures memory { IsErrOf result TextFault.Memory → IsOk (atom_at bytes.now) }
{
    match bytes {
        [] => Err(TextFault::SyntaxAt(0)),
        [QUOTE, rest @ ..] => {
            let (text, rest) = read_string(alloc, rest)?;
            Ok((Atom::Text(text), rest))
        }
        [TRUE_LETTER, ..] => {
            let rest = skip_word(bytes, b"true")?;
            Ok((Atom::Bool(true), rest))
        }
        [FALSE_LETTER, ..] => {
            let rest = skip_word(bytes, b"false")?;
            Ok((Atom::Bool(false), rest))
        }
        [_, ..] => {
            let (number, rest) = read_integer(bytes)?;
            Ok((Atom::Int(number), rest))
        }
    }
}

/// The bytes after the atom at the front.
#[tactic(auto, unfolding(crate::specs::Reading::atom_at))]
pub(crate) fn skip_atom(bytes: &[u8]) -> Result<&[u8], TextFault>
    ensures { GivesAlways (λ rest. rest.now) result (left_by (atom_at bytes.now)) }
{
    match bytes {
        [] => Err(TextFault::SyntaxAt(0)),
        [QUOTE, rest @ ..] => skip_string(rest),
        [TRUE_LETTER, ..] => skip_word(bytes, b"true"),
        [FALSE_LETTER, ..] => skip_word(bytes, b"false"),
        [_, ..] => {
            let (_number, rest) = read_integer(bytes)?;
            Ok(rest)
        }
    }
}

impl Field for Atom {
    ghost use Rattle.linda_text.specs.Reading.{atom_at};

    ghost reading = { atom_at };

    fn read(alloc: Global, bytes: &[u8]) -> Result<(Atom, &[u8]), TextFault> {
        read_atom(alloc, bytes)
    }

    fn skip(bytes: &[u8]) -> Result<&[u8], TextFault> {
        skip_atom(bytes)
    }
}

impl Field for Pattern {
    ghost use Rattle.linda_text.specs.Reading.{pattern_at};

    ghost reading = { pattern_at };

    #[tactic(auto, unfolding(crate::specs::Reading::pattern_at))]
    fn read(alloc: Global, bytes: &[u8]) -> Result<(Pattern, &[u8]), TextFault> {
        match bytes {
            [] => Err(TextFault::SyntaxAt(0)),
            [QUESTION, rest @ ..] => read_formal(rest),
            [WILDCARD, rest @ ..] => Ok((Pattern::Any, rest)),
            [_, ..] => {
                let (value, rest) = read_atom(alloc, bytes)?;
                Ok((Pattern::Value(value), rest))
            }
        }
    }

    #[tactic(auto, unfolding(crate::specs::Reading::pattern_at))]
    fn skip(bytes: &[u8]) -> Result<&[u8], TextFault> {
        match bytes {
            [] => Err(TextFault::SyntaxAt(0)),
            [QUESTION, rest @ ..] => {
                let (_formal, rest) = read_formal(rest)?;
                Ok(rest)
            }
            [WILDCARD, rest @ ..] => Ok(rest),
            [_, ..] => skip_atom(bytes),
        }
    }
}

// The letter of a formal, after its question mark.
#[tactic(auto, unfolding(crate::specs::Reading::formal_at))]
fn read_formal(bytes: &[u8]) -> Result<(Pattern, &[u8]), TextFault>
    ensures { GivesAlways (λ x. (x.0, x.1.now)) result (formal_at bytes.now) }
{
    match bytes {
        [] => Err(TextFault::SyntaxAt(0)),
        [INT_LETTER, rest @ ..] => Ok((Pattern::IntFormal, rest)),
        [TEXT_LETTER, rest @ ..] => Ok((Pattern::TextFormal, rest)),
        [BOOL_LETTER, rest @ ..] => Ok((Pattern::BoolFormal, rest)),
        [_, ..] => Err(TextFault::SyntaxAt(bytes.len())),
    }
}
