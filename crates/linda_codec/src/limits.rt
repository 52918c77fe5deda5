//! Sizes of the parts of a spelling, and the most bytes that a value takes.

use linda_tuple::{MAX_FIELDS, MAX_TEXT};

/// The bytes of a kind.
pub const KIND_BYTES: usize = 1;

/// The bytes of a truth value.
pub const TRUTH_BYTES: usize = 1;

/// The bytes of a number of 32 bits.
pub const SHORT_NUMBER_BYTES: usize = 4;

/// The bytes of a number of 64 bits.
pub const NUMBER_BYTES: usize = 8;

/// The bytes of a text's length in the first form.
pub(crate) const ONE_LENGTH_BYTES: usize = 1;

/// The bytes of a text's length in the second form.
pub(crate) const TWO_LENGTH_BYTES: usize = 2;

/// The bytes of the count of the fields or patterns.
pub(crate) const COUNT_BYTES: usize = 1;

/// The most bytes that an atom or a pattern spells in either form: a kind, a text's length, and the
/// longest text.
pub const MAX_ATOM_BYTES: usize = KIND_BYTES + TWO_LENGTH_BYTES + MAX_TEXT;

/// The most bytes that a tuple or a template spells in either form: a tag and as many fields as
/// there may be, and their count.
pub const MAX_TUPLE_BYTES: usize = MAX_ATOM_BYTES * (MAX_FIELDS + 1) + COUNT_BYTES;
