//! The tuples that are asked for, one after the other in the order of their ids.

ghost use Rattle.std.specs.Prelude.{◌<◌, [], ◌∷◌, Option, None, Some};
ghost use Rattle.linda_shared_listing.specs.Firsts.{IsNext};
ghost use Rattle.linda_shared_listing.specs.Shapes.{is_found, is_matched, shapes_in};

use crate::lesser::lesser_id;
use linda_bag::{Bag, IdSet, IndexBag};
use linda_tuple::Template;

/// The least id, from one on, of a tuple that one of the templates matches; of any tuple if there
/// are no templates.
pub(crate) fn next_found(bag: &IndexBag, shapes: &Option<Vec<Template>>, from: u64) -> Option<u64>
    ensures { IsNext (is_found bag.now (shapes_in shapes.now)) from result }
{
    match shapes {
        Some(shapes) => next_matched(bag, shapes, from),
        None => bag.next_from(from),
    }
}

// The least id, from one on, of a tuple that one of the templates matches.
fn next_matched(bag: &IndexBag, shapes: &[Template], from: u64) -> Option<u64>
    ensures { IsNext (is_matched bag.now shapes.now) from result }
{
    let mut least = None;
    for shape in shapes {
        least = lesser_id(least, next_match(bag, shape, from));
    }
    least
}

// The least id, from one on, of a tuple that the template matches.
fn next_match(bag: &IndexBag, shape: &Template, from: u64) -> Option<u64>
    ensures { IsNext (is_matched bag.now (shape.now ∷ [])) from result }
{
    bag.least_match_from(shape, &Nobody, from).id
}

// No ids.
#[derive(Drop)]
struct Nobody;

impl IdSet for Nobody {
    ghost use Rattle.std.specs.Prelude.{false};

    ghost has = { λ s id. false };

    fn has(&self, _id: u64) -> bool {
        false
    }
}
