//! The limits of a record and of a bank.

use linda_codec::{NUMBER_BYTES, SHORT_NUMBER_BYTES};

/// The most deeds of one record.
pub const MAX_DEEDS: usize = linda_store_state::MAX_DEEDS;

/// The most records that come onto a bank at once.
pub const MAX_RECORDS: usize = 64;

/// The bytes of a gate.
pub const GATE_BYTES: usize = 1;

// The bytes of the letters that give the form of a bank.
const LETTER_BYTES: usize = 4;

/// The offset of the length of a bank's body: its first gate, the letters and the generation come
/// before it.
pub const LENGTH_PLACE: usize = GATE_BYTES + LETTER_BYTES + NUMBER_BYTES;

/// The bytes that every bank has: its first gate, four letters, the generation, and the length of
/// its body.
pub const MIN_BYTES: usize = LENGTH_PLACE + SHORT_NUMBER_BYTES;

/// The bytes of a record before its deeds: its gate and the length of its payload.
pub const RECORD_HEAD: usize = GATE_BYTES + SHORT_NUMBER_BYTES;

/// The bytes of a piece in which a new bank is written.
pub const PIECE: usize = 65536;
