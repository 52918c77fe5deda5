//! Bytes that pass the gate before a server.
//!
//! `comes DIGITS` lets these bytes come in two pieces, cut at each place, and gives what passes.

ghost use Rattle.std.specs.Prelude.{◌≤◌, length};

use linda_gate_pass::ClientGate;
use linda_test_script::{WordsFault, read_hex, split_word, tell};
use std::alloc::Global;

/// Plays a line of a row about the gate.
pub(crate) fn play_gate(alloc: Global, words: &str, came: &mut String) -> Result<(), WordsFault> {
    let (verb, digits) = split_word(words);
    if verb == "comes" {
        tell_passed(alloc, &read_hex(alloc, digits)?, came)
    } else {
        Err(WordsFault::Unknown)
    }
}

// Writes what passes, which has to be the same wherever the bytes are cut.
fn tell_passed(alloc: Global, bytes: &[u8], came: &mut String) -> Result<(), WordsFault> {
    let whole = passed(alloc, bytes, 0);
    for cut in 0..bytes.len() {
        if passed(alloc, bytes, cut).as_slice() != whole.as_slice() {
            return tell(came, "otherwise at another cut");
        }
    }
    if whole.is_empty() {
        tell(came, "nothing")
    } else {
        tell(came, hex::encode(alloc, &whole)?)
    }
}

// What has passed of these bytes, which come in two pieces.
fn passed(alloc: Global, bytes: &[u8], cut: usize) -> Vec<u8>
    requires { cut ≤ length bytes.now }
{
    let mut gate = ClientGate::new(alloc);
    let mut out = Vec::new(alloc);
    if gate.received(&bytes[..cut], &mut out).is_ok() {
        let _ = gate.received(&bytes[cut..], &mut out).is_ok();
    }
    out
}
