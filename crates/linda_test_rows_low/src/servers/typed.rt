//! Tuples and templates, as people type them.

use linda_test_script::WordsFault;
use linda_text::{read_template, read_tuple};
use linda_tuple::{Template, Tuple};
use std::alloc::Global;

/// The tuple that the text is.
pub(crate) fn tuple_of(alloc: Global, text: &str) -> Result<Tuple, WordsFault> {
    Ok(read_tuple(alloc, text)?)
}

/// The template that the text is.
pub(crate) fn template_of(alloc: Global, text: &str) -> Result<Template, WordsFault> {
    Ok(read_template(alloc, text)?)
}
