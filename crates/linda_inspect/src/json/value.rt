//! Numbers, texts and tuples as JSON.

ghost use Rattle.std.specs.Prelude.{◌≡◌, ◌<◌, OnOk};
ghost use Rattle.std.specs.List.{flat_map};
ghost use Rattle.std.specs.Fmt.{decimal, signed_decimal};
ghost use Rattle.linda_inspect.specs.Json.{IsPushed, json_atom, json_byte, json_field, json_string};
ghost use Rattle.linda_inspect.specs.Json.{hex_digit, json_member, json_tuple};

use linda_tuple::{Atom, Tuple};
use std::alloc::AllocError;
use std::io::Write;

// A quote, a backslash and what comes before the space are written as escapes.
const QUOTE: u8 = b'"';

const BACKSLASH: u8 = b'\\';

const SPACE: u8 = b' ';

// The first hexadecimal digit, and the one that is ten.
const ZERO: u8 = b'0';

const TEN: u8 = b'a';

/// Appends the tuple: an array of its tag and its fields.
///
/// # Errors
///
/// `AllocError` if memory runs out; a part of it may then be there.
pub fn push_tuple(out: &mut Vec<u8>, tuple: &Tuple) -> Result<(), AllocError>
    ensures { OnOk result (IsPushed out.old out.new (json_tuple tuple.now)) }
{
    out.push(b'[')?;
    push_atom(out, tuple.tag())?;
    push_fields(out, tuple.fields())?;
    out.push(b']')?;
    Ok(())
}

// Each field, after a comma.
fn push_fields(out: &mut Vec<u8>, fields: &[Atom]) -> Result<(), AllocError>
    ensures { OnOk result (IsPushed out.old out.new (flat_map json_field fields.now)) }
{
    for field in fields {
        out.push(b',')?;
        push_atom(out, field)?;
    }
    Ok(())
}

/// An integer as a number, a text as a string, a truth value as such.
pub fn push_atom(out: &mut Vec<u8>, atom: &Atom) -> Result<(), AllocError>
    ensures { OnOk result (IsPushed out.old out.new (json_atom atom.now)) }
{
    match atom {
        Atom::Int(number) => push_integer(out, *number),
        Atom::Text(text) => push_string(out, text.as_str().as_bytes()),
        Atom::Bool(true) => out.extend_from_slice(b"true"),
        Atom::Bool(false) => out.extend_from_slice(b"false"),
    }
}

// An integer in decimal digits.
fn push_integer(out: &mut Vec<u8>, number: i64) -> Result<(), AllocError>
    ensures { OnOk result (IsPushed out.old out.new (signed_decimal number)) }
{
    if write!(out, "{number}").is_err() {
        return Err(AllocError);
    }
    Ok(())
}

// A number in decimal digits.
fn push_number(out: &mut Vec<u8>, number: u64) -> Result<(), AllocError>
    ensures { OnOk result (IsPushed out.old out.new (decimal number)) }
{
    if write!(out, "{number}").is_err() {
        return Err(AllocError);
    }
    Ok(())
}

/// Appends a name, as it is, and a number.
///
/// # Errors
///
/// `AllocError` if memory runs out; a part of it may then be there.
pub fn push_member(out: &mut Vec<u8>, name: &[u8], number: u64) -> Result<(), AllocError>
    ensures { OnOk result (IsPushed out.old out.new (json_member name.now number)) }
{
    out.extend_from_slice(name)?;
    push_number(out, number)
}

/// Appends the bytes of a text, between quotes.
///
/// # Errors
///
/// `AllocError` if memory runs out; a part of it may then be there.
pub fn push_string(out: &mut Vec<u8>, bytes: &[u8]) -> Result<(), AllocError>
    ensures { OnOk result (IsPushed out.old out.new (json_string bytes.now)) }
{
    out.push(QUOTE)?;
    push_content(out, bytes)?;
    out.push(QUOTE)?;
    Ok(())
}

fn push_content(out: &mut Vec<u8>, bytes: &[u8]) -> Result<(), AllocError>
    ensures { OnOk result (IsPushed out.old out.new (flat_map json_byte bytes.now)) }
{
    for byte in bytes {
        push_byte(out, *byte)?;
    }
    Ok(())
}

// A byte of a text, as itself or as an escape.
fn push_byte(out: &mut Vec<u8>, byte: u8) -> Result<(), AllocError>
    ensures { OnOk result (IsPushed out.old out.new (json_byte byte)) }
{
    if byte == QUOTE {
        return out.extend_from_slice(b"\\\"");
    }
    if byte == BACKSLASH {
        return out.extend_from_slice(b"\\\\");
    }
    if byte < SPACE {
        return out.extend_from_slice(&[
            b'\\',
            b'u',
            b'0',
            b'0',
            hex_digit(byte / 16),
            hex_digit(byte % 16),
        ]);
    }
    out.push(byte)?;
    Ok(())
}

// The digit of a number below 16.
fn hex_digit(number: u8) -> u8
    requires { number < 16 }
    ensures { result ≡ hex_digit number }
{
    if number < 10 {
        ZERO + number
    } else {
        TEN + (number - 10)
    }
}
