//! Strings among words, as people type them.

use crate::fault::WordsFault;
use linda_text::read_atom_at;
use linda_tuple::Atom;
use std::alloc::Global;

/// The string that is at this place of the words, and the place after it.
///
/// # Errors
///
/// `Unknown` if no string is there; `Memory` if memory runs out.
pub fn string_at(alloc: Global, words: &str, at: usize) -> Result<(String, usize), WordsFault> {
    let (atom, behind) = read_atom_at(alloc, words, at)?;
    match atom {
        Atom::Text(text) => Ok((text.into_string(), behind)),
        _ => Err(WordsFault::Unknown),
    }
}
