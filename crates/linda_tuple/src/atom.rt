//! Atoms: the values that a tuple is made of.

ghost use Rattle.std.specs.Prelude.{◌≡◌, ◌↔◌, IfOk, IsTrue};
ghost use Rattle.linda_tuple.specs.Atom.{IsSound, IsSoundIn};

use crate::form::Form;
use crate::text::Text;
use std::alloc::{AllocError, Global};

/// A value: an integer, a text or a truth value. Integers come before texts and those before truth
/// values; within a kind the order is that of the values.
#[derive(Debug, PartialEq, Eq, PartialOrd, Ord, Drop)]
pub enum Atom {
    Int(i64),
    Text(Text),
    Bool(bool),
}

impl Atom {
    /// A copy with memory of its own.
    pub fn try_clone(&self, alloc: Global) -> Result<Atom, AllocError>
        ensures { IfOk result (λ a. a ≡ self.now) }
    {
        match self {
            Atom::Int(n) => Ok(Atom::Int(*n)),
            Atom::Text(t) => Ok(Atom::Text(t.try_clone(alloc)?)),
            Atom::Bool(b) => Ok(Atom::Bool(*b)),
        }
    }

    /// Whether the atom may be in a tuple: any atom but a text of more than 4,095 bytes.
    pub fn is_sound(&self) -> bool
        ensures { IsTrue result ↔ IsSound self.now }
    {
        self.fits(Form::Two)
    }

    /// Whether the atom has a spelling in this form.
    pub fn fits(&self, form: Form) -> bool
        ensures { IsTrue result ↔ IsSoundIn form self.now }
    {
        match self {
            Atom::Int(n) => {
                let _n = *n;
                true
            }
            Atom::Text(t) => t.len() <= form.longest_text(),
            Atom::Bool(_) => true,
        }
    }
}
