//! The texts of atoms, tuples and templates: `read_..` reads them, `write_..` writes them.
//!
//! `split_..` and `skip_..` are for texts that are made of these: they take a value or a token off
//! the front of bytes, and give a fault by the count of bytes left, which `TextFault::placed` turns
//! into its offset; `push_..` appends a value's text.
#![tactic(auto)]

mod blank;
mod fault;
mod field;
mod integer;
mod item;
mod laws;
mod marks;
mod number;
mod offset;
mod row;
mod string;
mod whole;
mod word;
mod written;

pub use blank::skip_blanks;
pub use fault::TextFault;
pub use laws::{a_text_stands_for_one_value, what_is_written_stands_for_its_value};
pub use marks::{
    BACKSLASH, BOOL_LETTER, CARRIAGE_RETURN, CLOSING, COMMA, FALSE_LETTER, FEED_LETTER, INT_LETTER,
    LINE_FEED, MINUS, NINE, OPENING, QUESTION, QUOTE, RETURN_LETTER, SPACE, TAB, TAB_LETTER,
    TEXT_LETTER, TRUE_LETTER, WILDCARD, ZERO,
};
pub use number::split_number;
pub use offset::{read_atom_at, read_template_at};
pub use row::{skip_spaced_atom, skip_template, split_spaced_atom, split_template};
pub use whole::{check_end, read_template, read_tuple};
pub use word::skip_word;
pub use written::{push_atom, push_template, write_atom, write_tuple};
