//! The one spelling that atoms, tuples and templates have in bytes in each of two forms, and its
//! reader.
//!
//! An atom is a kind byte and its value: `01` and an integer's eight bytes of two's complement,
//! `02`, a length and that many bytes of UTF-8, or `03` and `00` (false) or `01` (true). A tuple is
//! a tag, a count byte, then that many atoms. A template is a tag, a count byte, then that many
//! patterns: each is an atom, or one of the bytes `04` (any integer), `05` (any text), `06` (any
//! truth value) and `07` (anything), which are nowhere else. Numbers are big-endian. In the first
//! form a text's length is one byte, in the second one it is two; the limits are those of `Form`.
//!
//! All that is put is read again, all that is read is spelled so, and of bytes that spell nothing
//! the first fault from the left is returned, also if memory is short. `specs/Formats` has what
//! formats are made of, each with its spelling and its reader in one; `specs/Values` says what the
//! formats of atoms, tuples and templates are.
//!
//! All that has a spelling is `Spelled`, here and in the crates above: it is read, passed over,
//! written and counted by one interface, and so are lists of it (`read_list`, `skip_list`,
//! `push_list`, `list_len`).
//!
//! A call that may take memory has a fault for that; no other call takes any.
#![tactic(auto)]

mod fault;
mod kinds;
mod length;
mod limits;
mod list;
mod number;
mod offset;
mod parts;
mod reading;
mod skipping;
mod spelled;
mod writing;

pub use fault::ReadFault;
pub use kinds::{BOOL_FORMAL, INT_FORMAL, INTEGER, TEXT, TEXT_FORMAL, TRUTH, WILDCARD};
pub use length::tuple_len;
pub use limits::{KIND_BYTES, MAX_TUPLE_BYTES, NUMBER_BYTES, SHORT_NUMBER_BYTES};
pub use list::{list_len, push_list, read_list, skip_list};
pub use number::{read_bool, read_u8, read_u32, read_u64};
pub use offset::{get_atom, get_template, get_tuple};
pub use reading::{read_atom, read_template, read_tuple};
pub use skipping::{skip_template, skip_tuple};
pub use spelled::Spelled;
pub use writing::{put_atom, put_template, put_tuple};
