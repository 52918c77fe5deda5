//! Limits from which records are worth a snapshot, though they are few.

/// So many bytes of records ask for a snapshot, however few they are: that bounds the memory of
/// their receipts.
pub const SNAPSHOT_BYTES: usize = 33_554_432;

/// So many receipts under the lock are many: a program that never looks at them has them forgotten.
pub const MANY_RECEIPTS: usize = 4_096;
