//! Bytes as words: a name, a text, or hexadecimal digits.

use crate::disks::torn::read_byte;
use linda_test_script::{WordsFault, done, read_hex, read_size, split_word, tell};
use std::alloc::{AllocError, Global};

/// Bytes that have a name, a line of each: the name, and the digits after it; the rows show what
/// each is made of. Names of banks in the first form begin with `old`, and those of banks in which
/// client 7 left with `away`.
const NAMED: &str = "\
    none \n\
    shut 00\n\
    new 014c4e44320000000000000001000000100000000000000001000000000000000000\n\
    closed 004c4e44320000000000000001000000100000000000000001000000000000000000\n\
    one 014c4e443200000000000000010000001000000000000000010000000000000000010000001b01000000\
        070000000000000001020001610101000000000000000300\n\
    both 014c4e443200000000000000010000001000000000000000010000000000000000010000003601000000\
        070000000000000001020001610101000000000000000301000000070000000000000002020001610101\
        000000000000000400\n\
    two 014c4e443200000000000000020000003b00000000000000020000000100000000000000010200016101\
        0100000000000000030000000100000007000000000000000101000000000000000100\n\
    three 014c4e443200000000000000010000001000000000000000010000000000000000010000001b01000000\
        0700000000000000010200016101010000000000000003010000002a0200000008000000000000000100\
        0000000000000103000000080000000000000002000000000000000100\n\
    away 014c4e443200000000000000010000001000000000000000010000000000000000010000001b01000000\
        0700000000000000010200016101010000000000000003010000000d0400000007000000000000000200\n\
    awaytwo 014c4e443200000000000000020000003300000000000000020000000100000000000000010200016101\
        010000000000000003000000010000000700000000000000020400\n\
    oldnew 014c4e44310000000000000001000000100000000000000001000000000000000000\n\
    oldone 014c4e443100000000000000010000001000000000000000010000000000000000010000001a01000000\
        0700000000000000010201610101000000000000000300\n\
    oldboth 014c4e443100000000000000010000001000000000000000010000000000000000010000003401000000\
        070000000000000001020161010100000000000000030100000007000000000000000202016101010000\
        00000000000400\n\
    oldtwo 014c4e443100000000000000020000003a00000000000000020000000100000000000000010201610101\
        00000000000000030000000100000007000000000000000101000000000000000100\n\
    oldthree 014c4e443100000000000000010000001000000000000000010000000000000000010000001a01000000\
        07000000000000000102016101010000000000000003010000002a020000000800000000000000010000\
        00000000000103000000080000000000000002000000000000000100";

/// As many equal bytes are given by their number.
const MANY: usize = 16;

/// The bytes that the words represent: those of this name; a text, `"abc"`; or pieces of
/// hexadecimal digits, if `34*00` is a byte so many times.
///
/// # Errors
///
/// `Unknown` if they represent none; `Memory`.
pub(crate) fn read_bytes(alloc: Global, words: &str) -> Result<Vec<u8>, WordsFault> {
    let mut bytes = Vec::new(alloc);
    push_bytes(alloc, &mut bytes, words)?;
    Ok(bytes)
}

/// Appends the bytes that the words represent.
///
/// # Errors
///
/// `Unknown` if they represent none; `Memory`. Some of them may then be there.
pub(crate) fn push_bytes(
    alloc: Global,
    bytes: &mut Vec<u8>,
    words: &str,
) -> Result<(), WordsFault> {
    match words.strip_prefix('"') {
        Some(text) => push_text(bytes, text),
        None => push_pieces(alloc, bytes, digits_of(words)),
    }
}

// Appends a text that comes after an opening quotation mark and ends with a closing one.
fn push_text(bytes: &mut Vec<u8>, text: &str) -> Result<(), WordsFault> {
    match text.strip_suffix('"') {
        Some(text) => done(bytes.extend_from_slice(text.as_bytes())),
        None => Err(WordsFault::Unknown),
    }
}

// The digits of the bytes of this name, or if nothing has it, the same words.
fn digits_of(words: &str) -> &str {
    match entry_of(words) {
        Some((_name, digits)) => digits,
        None => words,
    }
}

// The name and the digits of bytes of which this is the one or the other.
fn entry_of(words: &str) -> Option<(&'static str, &'static str)> {
    for line in NAMED.lines() {
        let (name, digits) = split_word(line);
        if words == name || words == digits {
            return Some((name, digits));
        }
    }
    None
}

// Appends the bytes of these pieces.
fn push_pieces(alloc: Global, bytes: &mut Vec<u8>, words: &str) -> Result<(), WordsFault> {
    for piece in words.split_whitespace() {
        push_piece(alloc, bytes, piece)?;
    }
    Ok(())
}

fn push_piece(alloc: Global, bytes: &mut Vec<u8>, piece: &str) -> Result<(), WordsFault> {
    match piece.split_once('*') {
        None => push_digits(alloc, bytes, piece),
        Some((count, digits)) => push_times(bytes, count, digits),
    }
}

fn push_digits(alloc: Global, bytes: &mut Vec<u8>, digits: &str) -> Result<(), WordsFault> {
    match read_hex(alloc, digits) {
        Ok(read) => done(bytes.extend_from_slice(&read)),
        Err(fault) => Err(fault),
    }
}

// Appends the byte of these digits, so many times.
fn push_times(bytes: &mut Vec<u8>, count: &str, digits: &str) -> Result<(), WordsFault> {
    let count = read_size(count)?;
    let byte = read_byte(digits)?;
    done(push_equal(bytes, byte, count))
}

fn push_equal(bytes: &mut Vec<u8>, byte: u8, count: usize) -> Result<(), AllocError> {
    for _ in 0..count {
        bytes.push(byte)?;
    }
    Ok(())
}

/// Writes the name of the bytes, or if they have none, their pieces.
pub(crate) fn tell_name(alloc: Global, bytes: &[u8], came: &mut String) -> Result<(), WordsFault> {
    match pieces_of(alloc, bytes) {
        Ok(pieces) => tell(came, name_of(&pieces)),
        Err(_) => Err(WordsFault::Memory),
    }
}

/// Writes the pieces of the bytes.
pub(crate) fn tell_pieces(
    alloc: Global,
    bytes: &[u8],
    came: &mut String,
) -> Result<(), WordsFault> {
    match pieces_of(alloc, bytes) {
        Ok(pieces) => tell(came, pieces),
        Err(_) => Err(WordsFault::Memory),
    }
}

// The name of the bytes of these digits, or if they have none, the digits.
fn name_of(digits: &str) -> &str {
    match entry_of(digits) {
        Some((name, _digits)) => name,
        None => digits,
    }
}

// The bytes in hexadecimal digits, if many equal ones one after another are a piece of their own.
fn pieces_of(alloc: Global, bytes: &[u8]) -> Result<String, AllocError> {
    let mut text = String::new(alloc);
    write_pieces(&mut text, bytes)?;
    String::from_str(alloc, text.trim())
}

// Appends these digits, with blanks around each piece of its own.
fn write_pieces(text: &mut String, bytes: &[u8]) -> Result<(), AllocError> {
    let mut byte = 0;
    let mut count: usize = 0;
    for next in bytes {
        if *next != byte {
            write_piece(text, byte, count)?;
            byte = *next;
            count = 0;
        }
        count = count.saturating_add(1);
    }
    write_piece(text, byte, count)
}

// Appends a byte, so many times.
fn write_piece(text: &mut String, byte: u8, count: usize) -> Result<(), AllocError> {
    if count >= MANY {
        return write!(text, " {count}*{byte:02x} ");
    }
    for _ in 0..count {
        write_byte(text, byte)?;
    }
    Ok(())
}

fn write_byte(text: &mut String, byte: u8) -> Result<(), AllocError> {
    write!(text, "{byte:02x}")
}
