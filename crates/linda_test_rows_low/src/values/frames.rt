//! Messages and replies: what a stream of frames is made of.

use crate::values::notation::push_written;
use crate::values::told::Written;
use crate::values::typed::Typed;
use linda_test_script::{WordsFault, done, write_message, write_reply};
use linda_wire::{FramePayload, Message, Reply, encode_message, encode_reply};
use std::alloc::{AllocError, Global};

/// What is in a frame, and has words.
pub(crate) trait Spoken: FramePayload + Typed {
    /// Appends its frame.
    fn push_frame(&self, bytes: &mut Vec<u8>) -> Result<(), AllocError>;
}

impl Written for Message {
    fn written(&self, alloc: Global) -> Result<String, AllocError> {
        write_message(alloc, self)
    }
}

impl Spoken for Message {
    fn push_frame(&self, bytes: &mut Vec<u8>) -> Result<(), AllocError> {
        encode_message(bytes, self)
    }
}

impl Written for Reply {
    fn written(&self, alloc: Global) -> Result<String, AllocError> {
        write_reply(alloc, self)
    }
}

impl Spoken for Reply {
    fn push_frame(&self, bytes: &mut Vec<u8>) -> Result<(), AllocError> {
        encode_reply(bytes, self)
    }
}

/// Appends the words of a copy.
///
/// # Errors
///
/// `AllocError` if memory runs out.
pub(crate) fn push_words_of_copy<T: Spoken>(
    alloc: Global,
    came: &mut String,
    value: &T,
) -> Result<(), AllocError> {
    let copy = value.copied(alloc)?;
    push_written(came, &copy.written(alloc)?)
}

/// The frame of what the words say.
///
/// # Errors
///
/// `Unknown` if they say nothing; `Memory` if memory runs out.
pub(crate) fn frame_of<T: Spoken>(alloc: Global, words: &str) -> Result<Vec<u8>, WordsFault> {
    let mut frame = Vec::new(alloc);
    push_frame_of::<T>(alloc, &mut frame, words)?;
    Ok(frame)
}

fn push_frame_of<T: Spoken>(
    alloc: Global,
    frame: &mut Vec<u8>,
    words: &str,
) -> Result<(), WordsFault> {
    let value = T::of_words(alloc, words)?;
    done(value.push_frame(frame))
}
