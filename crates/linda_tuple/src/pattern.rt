//! Patterns: what a template asks of each field.

ghost use Rattle.std.specs.Prelude.{◌≡◌, ◌↔◌, IfOk, IsTrue};
ghost use Rattle.linda_tuple.specs.Template.{IsSoundPattern};
ghost use Rattle.linda_tuple.specs.Matching.{is_fit, is_formal};

use crate::atom::Atom;
use std::alloc::{AllocError, Global};

/// What a field has to be: a value, anything of one kind, or anything at all. A formal binds the
/// field that it fits; a value and the wildcard `Any` bind nothing.
#[derive(Debug, PartialEq, Eq, Drop)]
pub enum Pattern {
    Value(Atom),
    IntFormal,
    TextFormal,
    BoolFormal,
    Any,
}

impl Pattern {
    /// A copy with memory of its own.
    pub fn try_clone(&self, alloc: Global) -> Result<Pattern, AllocError>
        ensures { IfOk result (λ p. p ≡ self.now) }
    {
        match self {
            Pattern::Value(value) => Ok(Pattern::Value(value.try_clone(alloc)?)),
            Pattern::IntFormal => Ok(Pattern::IntFormal),
            Pattern::TextFormal => Ok(Pattern::TextFormal),
            Pattern::BoolFormal => Ok(Pattern::BoolFormal),
            Pattern::Any => Ok(Pattern::Any),
        }
    }

    /// Whether the pattern may be in a template: any but a value that is a text of more than 4,095
    /// bytes.
    pub fn is_sound(&self) -> bool
        ensures { IsTrue result ↔ IsSoundPattern self.now }
    {
        match self {
            Pattern::Value(value) => value.is_sound(),
            Pattern::IntFormal => true,
            Pattern::TextFormal => true,
            Pattern::BoolFormal => true,
            Pattern::Any => true,
        }
    }

    /// Whether the atom is what the pattern asks for.
    pub fn fits(&self, atom: &Atom) -> bool
        ensures { result ≡ is_fit self.now atom.now }
    {
        match self {
            Pattern::Value(value) => *value == *atom,
            Pattern::IntFormal => matches!(atom, Atom::Int(_)),
            Pattern::TextFormal => matches!(atom, Atom::Text(_)),
            Pattern::BoolFormal => matches!(atom, Atom::Bool(_)),
            Pattern::Any => true,
        }
    }

    /// Whether the pattern binds the field that it fits.
    pub fn is_formal(&self) -> bool
        ensures { result ≡ is_formal self.now }
    {
        match self {
            Pattern::Value(_) => false,
            Pattern::IntFormal => true,
            Pattern::TextFormal => true,
            Pattern::BoolFormal => true,
            Pattern::Any => false,
        }
    }
}
