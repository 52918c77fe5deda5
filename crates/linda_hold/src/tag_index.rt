//! The requests that wait, by what a tuple must have that answers them: the tag, the number of
//! fields and, if the template has a value, the first one at its position.

ghost use Rattle.std.specs.Prelude.{length};

use crate::asked::Asked;
use crate::first_value_index::FirstValueIndex;
use crate::request::Request;
use linda_bag::Tagged;
use linda_tuple::Atom;

/// A request that waits, and what it asked.
pub(crate) type Wait = (Request, Asked);

/// The numbers of requests, by what they ask for.
pub(crate) type TagIndex = linda_bag::TagIndex<FirstValueIndex>;

impl Tagged for Asked {
    ghost use Rattle.linda_hold.specs.FirstValue as firsts;

    ghost tag_of = { λ asked. asked.template.tag };

    ghost count_of = { λ asked. length asked.template.fields };

    ghost first_of = { firsts.first_of };

    fn tag(&self) -> &Atom {
        self.template.tag()
    }

    fn count(&self) -> usize {
        self.template.fields().len()
    }

    fn first(&self) -> Option<&Atom> {
        self.first()
    }
}
