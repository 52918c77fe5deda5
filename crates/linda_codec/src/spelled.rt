//! Values with a spelling in bytes: they are read, passed over, written and counted, in each of the
//! two forms.

ghost use Rattle.std.specs.Prelude.{◌≡◌, ◌≤◌, ◌++◌, ℕ, length, take, IsOk, IsErrOf, OnOk};
ghost use Rattle.linda_tuple.specs.declared.form.Form as forms;
ghost use Rattle.linda_codec.specs.Formats.{Format};
ghost use Rattle.linda_codec.specs.Steps.{Gives, GivesAlways, left_by};

use crate::fault::ReadFault;
use crate::length::{atom_len, pattern_len, template_len, tuple_len};
use crate::reading::{read_atom, read_pattern, read_template, read_tuple};
use crate::skipping::{skip_atom, skip_pattern, skip_template, skip_tuple};
use crate::writing::{push_atom, push_pattern, push_template, push_tuple};
use linda_tuple::{Atom, Form, Pattern, Template, Tuple};
use std::alloc::{AllocError, Global};

/// A value that is spelled in bytes by a format.
pub trait Spelled: Drop {
    // The format of such values in each form.
    ghost format: { forms.Form → Format Self };

    // The value keeps the limits of its kind, which its type may do by itself.
    ghost Within: { Self → Type 0 };

    // The most bytes that a value within its limits spells, in either form.
    ghost longest: { ℕ };

    /// Reads a value, and gives the bytes after it.
    ///
    /// # Errors
    ///
    /// The first fault from the left, given by the count of bytes left; `Memory` if a value is
    /// there and finds none.
    fn read(alloc: Global, form: Form, bytes: &[u8]) -> Result<(Self, &[u8]), ReadFault>
        ensures value { Gives (λ x. (x.0, x.1.now)) result ((format form).read bytes.now) }
        ensures memory { IsErrOf result ReadFault.Memory → IsOk ((format form).read bytes.now) };

    /// The bytes after the value at the front.
    ///
    /// # Errors
    ///
    /// The first fault from the left, given by the count of bytes left; never `Memory`.
    fn skip(form: Form, bytes: &[u8]) -> Result<&[u8], ReadFault>
        ensures { GivesAlways (λ rest. rest.now) result (left_by ((format form).read bytes.now)) };

    /// Appends the spelling of the value.
    ///
    /// # Errors
    ///
    /// If memory runs out, a part of the spelling may be after the old bytes.
    fn push(&self, form: Form, out: &mut Vec<u8>) -> Result<(), AllocError>
        requires { (format form).Fits self.now }
        ensures ok { OnOk result (out.new.items ≡ out.old.items ++ (format form).spell self.now) }
        ensures front { take (length out.old.items) out.new.items ≡ out.old.items };

    /// How many bytes the value spells, whether it fits in the form or not.
    fn len(&self, form: Form) -> usize
        requires { Within self.now }
        ensures exact { result ≡ length ((format form).spell self.now) }
        ensures short { result ≤ longest };
}

impl Spelled for Atom {
    ghost use Rattle.linda_tuple.specs.Atom.{IsSound};
    ghost use Rattle.linda_codec.specs.declared.limits.TheConstants.{MAX_ATOM_BYTES};
    ghost use Rattle.linda_codec.specs.Values as values;

    ghost format = { values.atom };

    ghost Within = { IsSound };

    ghost longest = { MAX_ATOM_BYTES };

    fn read(alloc: Global, form: Form, bytes: &[u8]) -> Result<(Atom, &[u8]), ReadFault> {
        read_atom(alloc, form, bytes)
    }

    fn skip(form: Form, bytes: &[u8]) -> Result<&[u8], ReadFault> {
        skip_atom(form, bytes)
    }

    fn push(&self, form: Form, out: &mut Vec<u8>) -> Result<(), AllocError> {
        push_atom(form, out, self)
    }

    fn len(&self, form: Form) -> usize {
        atom_len(form, self)
    }
}

impl Spelled for Pattern {
    ghost use Rattle.linda_tuple.specs.Template.{IsSoundPattern};
    ghost use Rattle.linda_codec.specs.declared.limits.TheConstants.{MAX_ATOM_BYTES};
    ghost use Rattle.linda_codec.specs.Values as values;

    ghost format = { values.pattern };

    ghost Within = { IsSoundPattern };

    ghost longest = { MAX_ATOM_BYTES };

    fn read(alloc: Global, form: Form, bytes: &[u8]) -> Result<(Pattern, &[u8]), ReadFault> {
        read_pattern(alloc, form, bytes)
    }

    fn skip(form: Form, bytes: &[u8]) -> Result<&[u8], ReadFault> {
        skip_pattern(form, bytes)
    }

    fn push(&self, form: Form, out: &mut Vec<u8>) -> Result<(), AllocError> {
        push_pattern(form, out, self)
    }

    fn len(&self, form: Form) -> usize {
        pattern_len(form, self)
    }
}

impl Spelled for Tuple {
    ghost use Rattle.linda_codec.specs.declared.limits.TheConstants.{MAX_TUPLE_BYTES};
    ghost use Rattle.linda_codec.specs.Values as values;

    ghost format = { values.tuple };

    ghost Within = { λ t. Unit {0} };

    ghost longest = { MAX_TUPLE_BYTES };

    fn read(alloc: Global, form: Form, bytes: &[u8]) -> Result<(Tuple, &[u8]), ReadFault> {
        read_tuple(alloc, form, bytes)
    }

    fn skip(form: Form, bytes: &[u8]) -> Result<&[u8], ReadFault> {
        skip_tuple(form, bytes)
    }

    fn push(&self, form: Form, out: &mut Vec<u8>) -> Result<(), AllocError> {
        push_tuple(form, out, self)
    }

    fn len(&self, form: Form) -> usize {
        tuple_len(form, self)
    }
}

impl Spelled for Template {
    ghost use Rattle.linda_codec.specs.declared.limits.TheConstants.{MAX_TUPLE_BYTES};
    ghost use Rattle.linda_codec.specs.Values as values;

    ghost format = { values.template };

    ghost Within = { λ t. Unit {0} };

    ghost longest = { MAX_TUPLE_BYTES };

    fn read(alloc: Global, form: Form, bytes: &[u8]) -> Result<(Template, &[u8]), ReadFault> {
        read_template(alloc, form, bytes)
    }

    fn skip(form: Form, bytes: &[u8]) -> Result<&[u8], ReadFault> {
        skip_template(form, bytes)
    }

    fn push(&self, form: Form, out: &mut Vec<u8>) -> Result<(), AllocError> {
        push_template(form, out, self)
    }

    fn len(&self, form: Form) -> usize {
        template_len(form, self)
    }
}
