//! The values of the tuple space: atoms, tuples and templates, within their limits.
//!
//! A tuple is a tag and at most 32 fields; each of them is a 64-bit integer, a text of at most
//! 4,095 bytes of UTF-8, or a truth value. A template has patterns in place of the fields. Every
//! `Tuple` and every `Template` keeps these limits, so those who have one need not test them again.
//! `matches` says which tuples a template asks for, and `bindings` what its formals bind there. A
//! `Form` is one of the two ways to spell values in bytes, and `fits` says whether a tuple has a
//! spelling in one.
//!
//! Contracts see a text as its bytes, a tuple as the `Tuple` of `specs/Tuple` and a template as the
//! `Template` of `specs/Template`, and know nothing of capacities or places in memory.
//!
//! A call that may take memory has a fault for that; no other call takes any.
#![tactic(auto)]

mod atom;
mod fault;
mod form;
mod held;
mod limits;
mod matching;
mod pattern;
mod template;
mod text;
mod thread_safety;
mod tuple;

pub use atom::Atom;
pub use fault::ValueFault;
pub use form::{Form, fits};
pub use limits::{MAX_FIELDS, MAX_TEXT, ONE_MAX_FIELDS, ONE_MAX_TEXT};
pub use matching::{bindings, matches};
pub use pattern::Pattern;
pub use template::Template;
pub use text::Text;
pub use thread_safety::tuple_crosses;
pub use tuple::Tuple;
