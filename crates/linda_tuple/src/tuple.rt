//! Tuples, which keep their limits.

ghost use Rattle.std.specs.Prelude.{◌≡◌, ◌↔◌, ◌<◌, ◌∷◌, [], true, length, IfOk, IsOk, IsErrOf};
ghost use Rattle.linda_tuple.specs.declared.limits.TheConstants.{MAX_FIELDS};
ghost use Rattle.linda_tuple.specs.Tuple.{IsWithin};

use crate::atom::Atom;
use crate::fault::ValueFault;
use crate::held::Held;
use crate::limits::MAX_FIELDS;
use std::alloc::{AllocError, Global};
use std::marker::Model;

/// A tag and the fields that follow it: at most 32, with texts of at most 4,095 bytes.
#[derive(Debug)]
pub struct Tuple {
    held: Held,
}

impl Drop for Tuple {
    fn drop(self) {
        let Tuple { held: _ } = self;
    }
}

impl Model for Tuple {
    ghost use Rattle.linda_tuple.specs.Tuple.{Tuple, IsWithin};
    ghost use Rattle.linda_tuple.specs.Held.{held_tuple};

    ghost Value = { Tuple };

    ghost view = { λ t. held_tuple t.held };

    ghost invariant = { λ t. IsWithin (held_tuple t.held) };
}

impl Tuple {
    /// The tuple of a tag and fields, which it keeps: no memory is taken. If it is refused, they
    /// are dropped.
    ///
    /// # Errors
    ///
    /// `TooManyFields` if more than 32 fields follow the tag, else `TextTooLong` if the tag or a
    /// field is a text of more than 4,095 bytes.
    pub fn new(tag: Atom, fields: Vec<Atom>) -> Result<Tuple, ValueFault>
        ensures made { IfOk result (λ t. t ≡ record { tag = tag; fields = fields.items }) }
        ensures within { IsOk result ↔ IsWithin (record { tag = tag; fields = fields.items }) }
        ensures many { IsErrOf result ValueFault.TooManyFields
            ↔ (MAX_FIELDS < length fields.items) }
    {
        if fields.len() > MAX_FIELDS {
            return Err(ValueFault::TooManyFields);
        }
        if !tag.is_sound() || !fields.iter().all(|f| f.is_sound()) {
            return Err(ValueFault::TextTooLong);
        }
        Ok(Tuple {
            held: Held::own(tag, fields),
        })
    }

    /// The tuple of a tag and fields that are within the limits, which it keeps: no memory is
    /// taken. It is for callers that have tested the limits already; others call `new`.
    pub fn from_parts(tag: Atom, fields: Vec<Atom>) -> Tuple
        requires { IsWithin (record { tag = tag; fields = fields.items }) }
        ensures { result ≡ record { tag = tag; fields = fields.items } }
    {
        Tuple {
            held: Held::own(tag, fields),
        }
    }

    /// The tuple of a tag and one field that are within the limits, which it keeps: no memory is
    /// taken, and none for a list. It is for callers that have tested the limits already.
    pub fn single(tag: Atom, field: Atom) -> Tuple
        requires { IsWithin (record { tag = tag; fields = field ∷ [] }) }
        ensures { result ≡ record { tag = tag; fields = field ∷ [] } }
    {
        Tuple {
            held: Held::Single { tag, field },
        }
    }

    /// The same tuple, made so that its copies share its memory if it is large, that is, if its
    /// texts have 1,024 bytes or more together. A small tuple is as it was, and so is a large one
    /// for which there is no memory.
    pub fn shared(self, alloc: Global) -> Tuple
        ensures { result ≡ self }
    {
        let Tuple { held } = self;
        Tuple {
            held: held.shared(alloc),
        }
    }

    /// The value that comes first.
    pub fn tag(&self) -> &Atom
        ensures value { result.now ≡ self.now.tag }
        ensures within { IsWithin self.now }
    {
        self.held.tag()
    }

    /// The values after the tag, in order; at most 32.
    pub fn fields(&self) -> &[Atom]
        ensures value { result.now ≡ self.now.fields }
        ensures within { IsWithin self.now }
    {
        self.held.fields()
    }

    /// A copy. It shares the memory of a tuple that `shared` gave, and takes none then, if that one
    /// is large; else it has memory of its own.
    pub fn try_clone(&self, alloc: Global) -> Result<Tuple, AllocError>
        ensures { IfOk result (λ t. t ≡ self.now) }
    {
        let held = self.held.try_clone(alloc)?;
        Ok(Tuple { held })
    }
}

impl PartialEq for Tuple {
    ghost use Rattle.std.specs.Cmp.{partial_equiv_from_equiv};
    ghost use Rattle.linda_tuple.specs.Sameness.{same_tuple, same_tuple-equiv};

    ghost eq = { same_tuple };

    ghost laws = { partial_equiv_from_equiv same_tuple-equiv };

    // Tuples compare equal exactly if they are.
    fn eq(&self, other: &Tuple) -> bool
        ensures test { result ≡ same_tuple self.now other.now }
        ensures exact { (result ≡ true) ↔ (self.now ≡ other.now) }
    {
        *self.tag() == *other.tag() && *self.fields() == *other.fields()
    }
}

impl Eq for Tuple {
    ghost use Rattle.linda_tuple.specs.Sameness.{same_tuple-equiv};

    ghost laws = { same_tuple-equiv };
}

/// The copies that `copy` makes of the values, in order.
pub(crate) fn copies<T: Drop, F: Fn(&T) -> Result<T, AllocError>>(
    alloc: Global,
    values: &[T],
    copy: F,
) -> Result<Vec<T>, AllocError>
    requires can { F.IsAlwaysCallable copy }
    requires same { (v : _) (r : _) → F.post copy v r → IfOk r (λ c. c ≡ v.now) }
    ensures { IfOk result (λ v. v.items ≡ values.now) }
{
    let mut copies = Vec::with_capacity(alloc, values.len())?;
    for value in values {
        copies.push(copy(value)?)?;
    }
    Ok(copies)
}
