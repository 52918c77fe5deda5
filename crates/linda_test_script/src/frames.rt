//! The bytes of the input and the output of a script.

use crate::fault::WordsFault;
use crate::lines::{said, told};
use crate::message::read_message;
use crate::reply::read_reply;
use hex::FromHexError;
use linda_wire::{encode_message, encode_reply};
use std::alloc::Global;

/// The frames of the messages that a script says, one after the other.
///
/// # Errors
///
/// `Unknown` if a line says no message; `Memory` if memory runs out.
pub fn said_frames(alloc: Global, script: &str) -> Result<Vec<u8>, WordsFault> {
    let mut frames = Vec::new(alloc);
    for line in script.lines() {
        if let Some(words) = said(line) {
            push_said(alloc, &mut frames, words)?;
        }
    }
    Ok(frames)
}

/// The frames of the replies in the output lines of a script, one after the other.
///
/// # Errors
///
/// `Unknown` if an output line is no reply; `Memory` if memory runs out.
pub fn told_frames(alloc: Global, script: &str) -> Result<Vec<u8>, WordsFault> {
    let mut frames = Vec::new(alloc);
    for line in script.lines() {
        if let Some(words) = told(line) {
            push_told(alloc, &mut frames, words)?;
        }
    }
    Ok(frames)
}

// Appends the frame of the message that is said, or the bytes whose digits are after the word
// `bytes`.
fn push_said(alloc: Global, frames: &mut Vec<u8>, words: &str) -> Result<(), WordsFault> {
    match words.strip_prefix("bytes ") {
        Some(digits) => Ok(frames.extend_from_slice(&read_hex(alloc, digits)?)?),
        None => Ok(encode_message(frames, &read_message(alloc, words)?)?),
    }
}

/// The bytes of hexadecimal digits, between which blanks may be.
///
/// # Errors
///
/// `Unknown` if they are none, or an odd number of them is in one piece; `Memory` if memory runs
/// out.
pub fn read_hex(alloc: Global, digits: &str) -> Result<Vec<u8>, WordsFault> {
    let mut bytes = Vec::new(alloc);
    for piece in digits.split(' ') {
        push_hex(alloc, &mut bytes, piece)?;
    }
    Ok(bytes)
}

fn push_hex(alloc: Global, bytes: &mut Vec<u8>, digits: &str) -> Result<(), WordsFault> {
    match hex::decode(alloc, digits.as_bytes()) {
        Ok(piece) => Ok(bytes.extend_from_slice(&piece)?),
        Err(FromHexError::OutOfMemory) => Err(WordsFault::Memory),
        Err(_) => Err(WordsFault::Unknown),
    }
}

// Appends the frame of the reply of an output line.
fn push_told(alloc: Global, frames: &mut Vec<u8>, words: &str) -> Result<(), WordsFault> {
    Ok(encode_reply(frames, &read_reply(alloc, words)?)?)
}
