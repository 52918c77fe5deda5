//! Matches of a template, and what it binds there.

ghost use Rattle.std.specs.Prelude.{◌≡◌, IfOk};
ghost use Rattle.linda_tuple.specs.Matching.{Matches, are_fit, bindings_of, is_match};

use crate::atom::Atom;
use crate::pattern::Pattern;
use crate::template::Template;
use crate::tuple::Tuple;
use std::alloc::{AllocError, Global};

/// Whether the template matches the tuple: the tags are equal, there are as many fields as
/// patterns, and each pattern fits the field at its place.
#[tactic(auto, unfolding(crate::specs::Matching::is_match))]
pub fn matches(template: &Template, tuple: &Tuple) -> bool
    ensures { result ≡ is_match template.now tuple.now }
{
    *template.tag() == *tuple.tag() && all_fit(template.fields(), tuple.fields())
}

fn all_fit(patterns: &[Pattern], atoms: &[Atom]) -> bool
    ensures { result ≡ are_fit patterns.now atoms.now }
{
    match patterns {
        [] => atoms.is_empty(),
        [pattern, patterns @ ..] => match atoms {
            [] => false,
            [atom, atoms @ ..] => pattern.fits(atom) && all_fit(patterns, atoms),
        },
    }
}

/// The values at the formals of a template, in order, at a tuple that it matches. Wildcards and
/// values bind nothing.
///
/// # Errors
///
/// `AllocError` if memory runs out.
pub fn bindings(alloc: Global, template: &Template, tuple: &Tuple) -> Result<Vec<Atom>, AllocError>
    requires { Matches template.now tuple.now }
    ensures { IfOk result (λ v. v.items ≡ bindings_of template.now tuple.now) }
{
    let mut bound = Vec::new(alloc);
    for (pattern, atom) in template.fields().iter().zip(tuple.fields()) {
        if pattern.is_formal() {
            bound.push(atom.try_clone(alloc)?)?;
        }
    }
    Ok(bound)
}
