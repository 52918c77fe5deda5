//! Templates that match the tuples of a tag.

ghost use Rattle.std.specs.Prelude.{◌≡◌, ◌<◌, ℕ, replicate, IfOk, IfSome, IfNone};
ghost use Rattle.linda_tuple.specs.declared.limits.TheConstants.{MAX_FIELDS};
ghost use Rattle.linda_tuple.specs.declared.pattern.Pattern.TheVariants as kinds;
ghost use Rattle.linda_shared_listing.specs.Kinds.{HasNone};
ghost use Rattle.linda_shared_listing.specs.Listing.{is_wanted};
ghost use Rattle.linda_shared_listing.specs.Shapes.{is_found, is_matched, shape_of, shapes_in};

use linda_bag::IndexBag;
use linda_tuple::{Atom, MAX_FIELDS, Pattern, Template};
use std::alloc::{AllocError, Global};

/// Templates that match the tuples that are asked for by this tag, and no others; `None` if no tag
/// is given: then each is asked for. Takes no walk over the tuples.
///
/// # Errors
///
/// `AllocError` if memory runs out.
pub(crate) fn shapes_for(
    alloc: Global,
    bag: &IndexBag,
    tag: &Option<Atom>,
) -> Result<Option<Vec<Template>>, AllocError>
    ensures { IfOk result (λ shapes. (id : ℕ)
        → is_found bag.now (shapes_in shapes) id ≡ is_wanted bag.now tag.now id) }
{
    match tag {
        Some(tag) => Ok(Some(shapes_of(alloc, bag, tag)?)),
        None => Ok(None),
    }
}

// Templates that match the tuples of the tag, and no others: one for each number of fields that
// tuples of the tag have, and one for no field. No tuple has more fields than a template may have;
// contracts of a bag do not say so.
fn shapes_of(alloc: Global, bag: &IndexBag, tag: &Atom) -> Result<Vec<Template>, AllocError>
    ensures { IfOk result (λ shapes. (id : ℕ)
        → is_matched bag.now shapes.items id ≡ is_wanted bag.now (Some tag.now) id) }
{
    let mut shapes = Vec::new(alloc);
    shapes.push(shape_of(alloc, tag, 0)?)?;
    let mut last = 0;
    for _ in 0..=MAX_FIELDS {
        let Some(fields) = next_fields(bag, tag, last) else {
            return Ok(shapes);
        };
        shapes.push(shape_of(alloc, tag, fields)?)?;
        last = fields;
    }
    Err(AllocError)
}

// The least number of fields above the last one that tuples of the tag have.
fn next_fields(bag: &IndexBag, tag: &Atom, last: usize) -> Option<usize>
    ensures above { IfSome result (λ fields. last < fields) }
    ensures least { IfSome result (λ fields. (n : ℕ) → last < n → n < fields
        → HasNone bag.now tag.now n) }
    ensures none { IfNone result ((n : ℕ) → last < n → HasNone bag.now tag.now n) }
{
    let Some(kind) = bag.kind_after(Some((tag, last))) else {
        return None;
    };
    if *kind.tag != *tag {
        return None;
    }
    Some(kind.fields)
}

// The template of the tag and so many fields, of any values.
fn shape_of(alloc: Global, tag: &Atom, fields: usize) -> Result<Template, AllocError>
    ensures { IfOk result (λ shape. shape ≡ shape_of tag.now fields) }
{
    let patterns = any_of(alloc, fields)?;
    match Template::new(tag.try_clone(alloc)?, patterns) {
        Ok(shape) => Ok(shape),
        Err(_) => Err(AllocError),
    }
}

// So many patterns that fit each field.
fn any_of(alloc: Global, fields: usize) -> Result<Vec<Pattern>, AllocError>
    ensures { IfOk result (λ patterns. patterns.items ≡ replicate fields kinds.Any) }
{
    let mut patterns = Vec::new(alloc);
    for _ in 0..fields {
        patterns.push(Pattern::Any)?;
    }
    Ok(patterns)
}
