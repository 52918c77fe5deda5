//! Values that are read from words.

use crate::values::told::Written;
use linda_test_script::{WordsFault, read_message, read_reply};
use linda_text::{read_template, read_tuple};
use linda_tuple::{Template, Tuple};
use linda_wire::{Message, Reply};
use std::alloc::{AllocError, Global};

/// A value that is read from its words, and can be copied.
pub(crate) trait Typed: Written {
    /// What the words say.
    fn of_words(alloc: Global, words: &str) -> Result<Self, WordsFault>;

    /// A copy of it.
    fn copied(&self, alloc: Global) -> Result<Self, AllocError>;
}

impl Typed for Tuple {
    fn of_words(alloc: Global, words: &str) -> Result<Tuple, WordsFault> {
        Ok(read_tuple(alloc, words)?)
    }

    fn copied(&self, alloc: Global) -> Result<Tuple, AllocError> {
        self.try_clone(alloc)
    }
}

impl Typed for Template {
    fn of_words(alloc: Global, words: &str) -> Result<Template, WordsFault> {
        Ok(read_template(alloc, words)?)
    }

    fn copied(&self, alloc: Global) -> Result<Template, AllocError> {
        self.try_clone(alloc)
    }
}

impl Typed for Message {
    fn of_words(alloc: Global, words: &str) -> Result<Message, WordsFault> {
        read_message(alloc, words)
    }

    fn copied(&self, alloc: Global) -> Result<Message, AllocError> {
        self.try_clone(alloc)
    }
}

impl Typed for Reply {
    fn of_words(alloc: Global, words: &str) -> Result<Reply, WordsFault> {
        read_reply(alloc, words)
    }

    fn copied(&self, alloc: Global) -> Result<Reply, AllocError> {
        self.try_clone(alloc)
    }
}

/// Whether the words say this value.
///
/// # Errors
///
/// `Unknown` if they say none; `Memory` if memory runs out.
pub(crate) fn is_said<V: Typed + PartialEq>(
    alloc: Global,
    value: &V,
    words: &str,
) -> Result<bool, WordsFault> {
    let said = V::of_words(alloc, words)?;
    Ok(said == *value)
}
