//! Readers of what is in a text from an offset on, which give the value and the offset after it.
//!
//! A text is judged first, which takes no memory; then the value is made. So every fault is
//! returned before `Memory`.

ghost use Rattle.std.specs.Prelude.{◌≡◌, ◌≤◌, ◌-◌, ℕ, List, length, drop};
ghost use Rattle.std.specs.Prelude.{IfOk, IsOk, IsErrOf, Ok};
ghost use Rattle.linda_tuple.specs.declared.atom.Atom as atoms;
ghost use Rattle.linda_tuple.specs.Template.{Template};
ghost use Rattle.linda_text.specs.Grammar.{IsAtomAt, IsTemplateAt, EndsNumeral};
ghost use Rattle.linda_text.specs.Reading.{spaced_atom_at, template_at};
ghost use Rattle.linda_text.specs.Places.{placed, read_at};
ghost use Rattle.linda_text.specs.Steps.{Gives};

use crate::fault::TextFault;
use crate::row::{skip_template, split_spaced_atom, split_template};
use linda_tuple::{Atom, Template};
use std::alloc::Global;

/// The template that is there from the offset on, after blanks or none, and the offset of the byte
/// after it. Past the end there are no bytes.
///
/// # Errors
///
/// The first fault from the left; `Memory` if a template is there and finds none.
pub fn read_template_at(
    alloc: Global,
    text: &str,
    at: usize,
) -> Result<(Template, usize), TextFault>
    // What is read is there, and ends within the text.
    ensures found { IfOk result (λ x. IsTemplateAt text.now at x.0 (drop x.1 text.now)) }
    ensures within { IfOk result (λ x. x.1 ≤ length text.now) }
    // What is there is read, unless memory runs out.
    ensures only { (template : Template) (rest : List ℕ) → IsTemplateAt text.now at template rest
        → Gives (λ x. x) result (Ok (template, length text.now - length rest)) }
    // Which fault it is, and where.
    ensures exact { Gives (λ x. x) result (read_at template_at text.now at) }
    // Memory runs out only if a template is there.
    ensures memory { IsErrOf result TextFault.Memory
        → (template : Template) × (rest : List ℕ) × IsTemplateAt text.now at template rest }
{
    match judged_template(alloc, tail(text, at)) {
        Ok((template, rest)) => Ok((template, text.len() - rest.len())),
        Err(fault) => Err(fault.placed(text.len())),
    }
}

/// The atom that is there from the offset on, after blanks or none, and the offset of the byte
/// after it. Past the end there are no bytes.
///
/// # Errors
///
/// The first fault from the left; `Memory` if an atom is there that is a string and finds none.
pub fn read_atom_at(alloc: Global, text: &str, at: usize) -> Result<(Atom, usize), TextFault>
    // What is read is there, and ends within the text.
    ensures found { IfOk result (λ x. IsAtomAt text.now at x.0 (drop x.1 text.now)) }
    ensures within { IfOk result (λ x. x.1 ≤ length text.now) }
    // What is there, with no digit after it, is read, unless memory runs out.
    ensures only { (atom : atoms.Atom) (rest : List ℕ) → IsAtomAt text.now at atom rest
        → EndsNumeral rest
        → Gives (λ x. x) result (Ok (atom, length text.now - length rest)) }
    // Which fault it is, and where.
    ensures exact { Gives (λ x. x) result (read_at spaced_atom_at text.now at) }
    // Memory runs out only if an atom is there.
    ensures memory { IsErrOf result TextFault.Memory
        → (atom : atoms.Atom) × (rest : List ℕ) × IsAtomAt text.now at atom rest }
{
    match split_spaced_atom(alloc, tail(text, at)) {
        Ok((atom, rest)) => Ok((atom, text.len() - rest.len())),
        Err(fault) => Err(fault.placed(text.len())),
    }
}

// The template at the front, once its text is judged.
fn judged_template(alloc: Global, bytes: &[u8]) -> Result<(Template, &[u8]), TextFault>
    ensures value { Gives (λ x. (x.0, x.1.now)) result (template_at bytes.now) }
    ensures memory { IsErrOf result TextFault.Memory → IsOk (template_at bytes.now) }
{
    skip_template(bytes)?;
    split_template(alloc, bytes)
}

// The bytes from the offset on; past the end there are none.
fn tail(text: &str, at: usize) -> &[u8]
    ensures { result.now ≡ drop at text.now }
{
    let bytes = text.as_bytes();
    if at > bytes.len() {
        return &[];
    }
    bytes.split_at(at).1
}

impl TextFault {
    /// The fault given by its offset, if it counts the bytes left of so many.
    pub fn placed(self, len: usize) -> TextFault
        ensures value { result ≡ placed len self }
        ensures memory { result ≡ TextFault.Memory → self ≡ TextFault.Memory }
    {
        match self {
            TextFault::Memory => TextFault::Memory,
            TextFault::SyntaxAt(left) => TextFault::SyntaxAt(len.saturating_sub(left)),
            TextFault::TooManyFields => TextFault::TooManyFields,
            TextFault::TextTooLong => TextFault::TextTooLong,
            TextFault::NumberRange => TextFault::NumberRange,
        }
    }
}
