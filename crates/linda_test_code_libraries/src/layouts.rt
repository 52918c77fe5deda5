//! Layouts: the bytes of one value of each kind, worked by hand from `docs/PROTOCOL.md`.
//!
//! A format has one definition, by which its writer and its reader are proved: with two fields of
//! it swapped both are proved again, and each reads what the other wrote. Here are equations of
//! these definitions with literals, each the clause of a function that does nothing. In each value
//! no two fields are equal, and in no number two bytes, but for lengths and counts: these are given
//! of any list of 0x0a0b0c0d bytes or entries.

pub mod banks;
pub mod deeds;
pub mod kept;
pub mod messages;
pub mod records;
pub mod refusals;
pub mod replies;
pub mod snapshots;
pub mod values;
