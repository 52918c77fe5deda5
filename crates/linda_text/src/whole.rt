//! Tuples and templates that are all of a text, but for blanks before and after them.
//!
//! A text is judged first, which takes no memory; then the value is made. So every fault is
//! returned before `Memory`.

ghost use Rattle.std.specs.Prelude.{length, IfOk, IsOk, IsErrOf, Ok};
ghost use Rattle.linda_tuple.specs.Tuple.{Tuple};
ghost use Rattle.linda_tuple.specs.Template.{Template};
ghost use Rattle.linda_text.specs.Grammar.{IsTupleAlone, IsTemplateAlone};
ghost use Rattle.linda_text.specs.Reading.{after_blanks, tuple_at, template_at, ended, only_of};
ghost use Rattle.linda_text.specs.Places.{told};
ghost use Rattle.linda_text.specs.Steps.{Gives, GivesAlways};

use crate::blank::skip_blanks;
use crate::fault::TextFault;
use crate::row::{build_tuple, skip_template, skip_tuple, split_template};
use linda_tuple::{Template, Tuple};
use std::alloc::Global;

/// Reads a tuple, as `("a", 3)`.
///
/// # Errors
///
/// The first fault from the left; `Memory` if a tuple is there and finds none.
pub fn read_tuple(alloc: Global, text: &str) -> Result<Tuple, TextFault>
    // What is read is there.
    ensures found { IfOk result (IsTupleAlone text.now) }
    // What is there is read, unless memory runs out: so a text is refused only if none is there.
    ensures only { (tuple : Tuple) → IsTupleAlone text.now tuple
        → Gives (λ t. t) result (Ok tuple) }
    // Which fault it is, and where.
    ensures exact { Gives (λ t. t) result (told (length text.now) (only_of (tuple_at text.now))) }
    // Memory runs out only if a tuple is there.
    ensures memory { IsErrOf result TextFault.Memory
        → (tuple : Tuple) × IsTupleAlone text.now tuple }
{
    match only_tuple(alloc, text) {
        Ok(tuple) => Ok(tuple),
        Err(fault) => Err(fault.placed(text.len())),
    }
}

/// Reads a template, as `("job", ?i, _)`.
///
/// # Errors
///
/// The first fault from the left; `Memory` if a template is there and finds none.
pub fn read_template(alloc: Global, text: &str) -> Result<Template, TextFault>
    // What is read is there.
    ensures found { IfOk result (IsTemplateAlone text.now) }
    // What is there is read, unless memory runs out: so a text is refused only if none is there.
    ensures only { (template : Template) → IsTemplateAlone text.now template
        → Gives (λ t. t) result (Ok template) }
    // Which fault it is, and where.
    ensures exact { Gives (λ t. t) result
        (told (length text.now) (only_of (template_at text.now))) }
    // Memory runs out only if a template is there.
    ensures memory { IsErrOf result TextFault.Memory
        → (template : Template) × IsTemplateAlone text.now template }
{
    match only_template(alloc, text) {
        Ok(template) => Ok(template),
        Err(fault) => Err(fault.placed(text.len())),
    }
}

fn only_tuple(alloc: Global, text: &str) -> Result<Tuple, TextFault>
    ensures value { Gives (λ t. t) result (only_of (tuple_at text.now)) }
    ensures memory { IsErrOf result TextFault.Memory → IsOk (only_of (tuple_at text.now)) }
{
    let bytes = text.as_bytes();
    check_end(skip_tuple(bytes)?)?;
    let (tuple, _rest) = build_tuple(alloc, bytes)?;
    Ok(tuple)
}

fn only_template(alloc: Global, text: &str) -> Result<Template, TextFault>
    ensures value { Gives (λ t. t) result (only_of (template_at text.now)) }
    ensures memory { IsErrOf result TextFault.Memory → IsOk (only_of (template_at text.now)) }
{
    let bytes = text.as_bytes();
    check_end(skip_template(bytes)?)?;
    let (template, _rest) = split_template(alloc, bytes)?;
    Ok(template)
}

/// Checks that only blanks are left.
///
/// # Errors
///
/// `SyntaxAt` with the count of bytes left from the first one on that is no blank.
pub fn check_end(bytes: &[u8]) -> Result<(), TextFault>
    ensures { GivesAlways (λ u. u) result (ended (tt {0}) (after_blanks bytes.now)) }
{
    match skip_blanks(bytes) {
        [] => Ok(()),
        left => Err(TextFault::SyntaxAt(left.len())),
    }
}
