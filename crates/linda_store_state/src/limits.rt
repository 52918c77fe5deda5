//! Limits of deeds: the form of their values, the bytes of their parts, and how many there may be.

use linda_codec::{KIND_BYTES, MAX_TUPLE_BYTES, NUMBER_BYTES, SHORT_NUMBER_BYTES};
use linda_tuple::Form;

/// The form in which new banks spell values.
pub const BANK_FORM: Form = Form::Two;

/// The most deeds that are done at once: those of one record, and of the messages that one call
/// takes.
pub const MAX_DEEDS: usize = 64;

/// The bytes of a deed before its tuple or id: its kind, the client and the number.
pub const HEAD_BYTES: usize = KIND_BYTES + SHORT_NUMBER_BYTES + NUMBER_BYTES;

/// The bytes of an id.
pub const ID_BYTES: usize = NUMBER_BYTES;

/// The most bytes that a deed spells in either form: what is before a tuple, and the tuple.
pub const MAX_DEED_BYTES: usize = HEAD_BYTES + MAX_TUPLE_BYTES;
