//! Limits of frames, and of the numbers in them.

use linda_tuple::Form;

/// How many bytes a frame's length takes.
pub const LENGTH_BYTES: usize = 4;

/// The most bytes of a frame's kind and body.
pub const MAX_PAYLOAD: usize = 262144;

/// The form in which frames spell values.
pub(crate) const FORM: Form = Form::Two;

/// The version of the protocol that is spoken here.
pub const VERSION: u8 = 2;

/// Ids, and the numbers and tickets of a client, stay below this.
pub const NUMBER_LIMIT: u64 = 1 << 63;

/// The most asks that a client may have open at a server.
pub const MAX_ASKS: usize = 64;

/// The most clients for which a server keeps a reply, those that left among them.
pub const MAX_CLIENTS: usize = 65536;
