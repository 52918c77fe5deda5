//! Templates, which keep their limits.

ghost use Rattle.std.specs.Prelude.{◌≡◌, ◌↔◌, ◌<◌, length, IfOk, IsOk, IsErrOf};
ghost use Rattle.linda_tuple.specs.declared.limits.TheConstants.{MAX_FIELDS};
ghost use Rattle.linda_tuple.specs.Template.{IsWithinTemplate};

use crate::atom::Atom;
use crate::fault::ValueFault;
use crate::limits::MAX_FIELDS;
use crate::pattern::Pattern;
use crate::tuple::copies;
use std::alloc::{AllocError, Global};
use std::marker::Model;

/// A tag and the patterns that follow it: at most 32, with texts of at most 4,095 bytes.
#[derive(Debug)]
pub struct Template {
    tag: Atom,
    fields: Vec<Pattern>,
}

impl Drop for Template {
    fn drop(self) {
        let Template { tag: _, fields: _ } = self;
    }
}

impl Model for Template {
    ghost use Rattle.linda_tuple.specs.Template.{Template, IsWithinTemplate};

    ghost Value = { Template };

    ghost view = { λ t. record { tag = t.tag; fields = t.fields.items } };

    ghost invariant = { λ t. IsWithinTemplate (record { tag = t.tag; fields = t.fields.items }) };
}

impl Template {
    /// The template of a tag and patterns, which it keeps: no memory is taken. If it is refused,
    /// they are dropped.
    ///
    /// # Errors
    ///
    /// `TooManyFields` if more than 32 patterns follow the tag, else `TextTooLong` if the tag or a
    /// value among the patterns is a text of more than 4,095 bytes.
    pub fn new(tag: Atom, fields: Vec<Pattern>) -> Result<Template, ValueFault>
        ensures made { IfOk result (λ t. t ≡ record { tag = tag; fields = fields.items }) }
        ensures within { IsOk result ↔ IsWithinTemplate
            (record { tag = tag; fields = fields.items }) }
        ensures many { IsErrOf result ValueFault.TooManyFields
            ↔ (MAX_FIELDS < length fields.items) }
    {
        if fields.len() > MAX_FIELDS {
            return Err(ValueFault::TooManyFields);
        }
        if !tag.is_sound() || !fields.iter().all(|f| f.is_sound()) {
            return Err(ValueFault::TextTooLong);
        }
        Ok(Template { tag, fields })
    }

    /// The template of a tag and patterns that are within the limits, which it keeps: no memory is
    /// taken. It is for callers that have tested the limits already; others call `new`.
    pub fn from_parts(tag: Atom, fields: Vec<Pattern>) -> Template
        requires { IsWithinTemplate (record { tag = tag; fields = fields.items }) }
        ensures { result ≡ record { tag = tag; fields = fields.items } }
    {
        Template { tag, fields }
    }

    /// The value that a tuple's tag must equal.
    pub fn tag(&self) -> &Atom
        ensures value { result.now ≡ self.now.tag }
        ensures within { IsWithinTemplate self.now }
    {
        &self.tag
    }

    /// The patterns after the tag, in order; at most 32.
    pub fn fields(&self) -> &[Pattern]
        ensures value { result.now ≡ self.now.fields }
        ensures within { IsWithinTemplate self.now }
    {
        &self.fields
    }

    /// A copy with memory of its own.
    pub fn try_clone(&self, alloc: Global) -> Result<Template, AllocError>
        ensures { IfOk result (λ t. t ≡ self.now) }
    {
        let tag = self.tag.try_clone(alloc)?;
        let fields = copies(alloc, &self.fields, |f| f.try_clone(alloc))?;
        Ok(Template { tag, fields })
    }
}

impl PartialEq for Template {
    ghost use Rattle.std.specs.Cmp.{partial_equiv_from_equiv};
    ghost use Rattle.linda_tuple.specs.Sameness.{same_template, same_template-equiv};

    ghost eq = { same_template };

    ghost laws = { partial_equiv_from_equiv same_template-equiv };

    fn eq(&self, other: &Template) -> bool {
        self.tag == other.tag && self.fields == other.fields
    }
}

impl Eq for Template {
    ghost use Rattle.linda_tuple.specs.Sameness.{same_template-equiv};

    ghost laws = { same_template-equiv };
}
