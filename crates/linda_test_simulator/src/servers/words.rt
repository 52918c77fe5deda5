//! Messages and replies of a run, without memory of their own, and the bytes that they have by
//! `docs/PROTOCOL.md`.

use linda_tuple::{Atom, Pattern, Template, Tuple};
use linda_wire::Message;
use std::alloc::AllocError;

/// The version of frames that is spoken.
pub const SPOKEN: u8 = 2;

/// How many words tuples begin with.
pub const WORDS: u32 = 4;

/// A tuple: a word, by its number, and a number.
#[derive(Clone, Copy, PartialEq, Eq)]
pub struct Value {
    pub word: u8,
    pub number: i64,
}

/// What the number of a tuple has to be.
#[derive(Clone, Copy, PartialEq, Eq)]
pub enum Field {
    Is(i64),
    AnyInt,
    AnyText,
    Any,
}

/// A template: a word, and what the number has to be.
#[derive(Clone, Copy, PartialEq, Eq)]
pub struct Form {
    pub word: u8,
    pub field: Field,
}

impl Form {
    /// Whether it matches the tuple.
    pub fn fits(self, value: Value) -> bool {
        if self.word != value.word {
            return false;
        }
        match self.field {
            Field::Is(number) => number == value.number,
            Field::AnyInt => true,
            Field::AnyText => false,
            Field::Any => true,
        }
    }
}

/// What a client sends.
#[derive(Clone, Copy, PartialEq, Eq)]
pub enum Said {
    Hello {
        version: u8,
        client: u32,
        fresh: bool,
    },
    Out {
        n: u64,
        value: Value,
    },
    Ask {
        ticket: u64,
        remove: bool,
        form: Form,
    },
    Accept {
        n: u64,
        ticket: u64,
        id: u64,
    },
    Cancel {
        ticket: u64,
    },
    Leave {
        n: u64,
    },
    /// A frame that spells nothing.
    Bad(Bad),
}

/// A frame that spells nothing.
#[derive(Clone, Copy, PartialEq, Eq)]
pub enum Bad {
    /// Its length is 0.
    Empty,
    /// Its length is above the greatest.
    Long,
    /// No message has this kind.
    Kind(u8),
    /// A Leave that ends after so many bytes of its number.
    Short(u8),
    /// A Cancel with a byte after it.
    More,
    /// An Ask whose truth value is none.
    Flag,
}

impl Bad {
    /// The offset that is reported.
    pub fn offset(self) -> u64 {
        match self {
            Bad::Empty => 0,
            Bad::Long => 0,
            Bad::Kind(_) => 4,
            Bad::Short(len) => u64::from(len % 8).wrapping_add(5),
            Bad::More => 13,
            Bad::Flag => 13,
        }
    }
}

/// What a server answers.
#[derive(Clone, Copy, PartialEq, Eq)]
pub enum Told {
    Welcome { last: u64 },
    Stored { n: u64, id: u64 },
    Offer { ticket: u64, id: u64, value: Value },
    Read { ticket: u64, id: u64, value: Value },
    Taken { n: u64, id: u64, value: Value },
    Gone { n: u64 },
    Refused { code: u8, detail: u64 },
    Left { n: u64 },
}

/// The letter of a word.
pub fn letter_of(word: u8) -> u8 {
    match word {
        0 => b'a',
        1 => b'b',
        2 => b'c',
        _ => b'd',
    }
}

// Appends an integer's atom.
fn push_int(out: &mut Vec<u8>, number: i64) -> Result<(), AllocError> {
    out.push(1)?;
    out.extend_from_slice(&number.to_be_bytes())
}

// Appends a word's atom, and that one field follows.
fn push_word(out: &mut Vec<u8>, word: u8) -> Result<(), AllocError> {
    out.extend_from_slice(&[2, 0, 1, letter_of(word), 1])
}

fn push_value(out: &mut Vec<u8>, value: Value) -> Result<(), AllocError> {
    push_word(out, value.word)?;
    push_int(out, value.number)
}

fn push_form(out: &mut Vec<u8>, form: Form) -> Result<(), AllocError> {
    push_word(out, form.word)?;
    match form.field {
        Field::Is(number) => push_int(out, number),
        Field::AnyInt => out.push(4).map_err(|_| AllocError),
        Field::AnyText => out.push(5).map_err(|_| AllocError),
        Field::Any => out.push(7).map_err(|_| AllocError),
    }
}

// Appends the length and the kind of a frame.
fn push_head(out: &mut Vec<u8>, len: u32, kind: u8) -> Result<(), AllocError> {
    out.extend_from_slice(&len.to_be_bytes())?;
    out.extend_from_slice(&[kind])
}

fn push_number(out: &mut Vec<u8>, number: u64) -> Result<(), AllocError> {
    out.extend_from_slice(&number.to_be_bytes())
}

fn push_byte(out: &mut Vec<u8>, byte: u8) -> Result<(), AllocError> {
    out.extend_from_slice(&[byte])
}

// How many bytes a template has.
fn len_of(form: Form) -> u32 {
    match form.field {
        Field::Is(_) => 14,
        _ => 6,
    }
}

/// Appends the frame of what a client sends.
pub fn push_said(out: &mut Vec<u8>, said: Said) -> Result<(), AllocError> {
    match said {
        Said::Hello {
            version,
            client,
            fresh,
        } => push_hello(out, version, client, fresh),
        Said::Out { n, value } => {
            push_head(out, 23, 2)?;
            push_number(out, n)?;
            push_value(out, value)
        }
        Said::Ask {
            ticket,
            remove,
            form,
        } => push_ask(out, ticket, remove, form),
        Said::Accept { n, ticket, id } => {
            push_head(out, 25, 4)?;
            push_number(out, n)?;
            push_number(out, ticket)?;
            push_number(out, id)
        }
        Said::Cancel { ticket } => {
            push_head(out, 9, 5)?;
            push_number(out, ticket)
        }
        Said::Leave { n } => {
            push_head(out, 9, 6)?;
            push_number(out, n)
        }
        Said::Bad(bad) => push_bad(out, bad),
    }
}

fn push_hello(out: &mut Vec<u8>, version: u8, client: u32, fresh: bool) -> Result<(), AllocError> {
    push_head(out, 7, 1)?;
    push_byte(out, version)?;
    out.extend_from_slice(&client.to_be_bytes())?;
    push_byte(out, if fresh { 1 } else { 0 })
}

fn push_ask(out: &mut Vec<u8>, ticket: u64, remove: bool, form: Form) -> Result<(), AllocError> {
    push_head(out, len_of(form).saturating_add(10), 3)?;
    push_number(out, ticket)?;
    push_byte(out, if remove { 1 } else { 0 })?;
    push_form(out, form)
}

fn push_bad(out: &mut Vec<u8>, bad: Bad) -> Result<(), AllocError> {
    match bad {
        Bad::Empty => out.extend_from_slice(&[0, 0, 0, 0]),
        Bad::Long => out.extend_from_slice(&[0, 4, 0, 1]),
        Bad::Kind(kind) => out.extend_from_slice(&[0, 0, 0, 3, kind, 0, 0]),
        Bad::Short(len) => {
            let len = len % 8;
            push_head(out, u32::from(len).saturating_add(1), 6)?;
            for _ in 0..len {
                push_byte(out, 0)?;
            }
            Ok(())
        }
        Bad::More => {
            push_head(out, 10, 5)?;
            push_number(out, 1)?;
            push_byte(out, 0)
        }
        Bad::Flag => {
            push_head(out, 10, 3)?;
            push_number(out, 1)?;
            push_byte(out, 2)
        }
    }
}

/// How many bytes the frame of a reply has.
pub fn len_of_told(told: Told) -> usize {
    match told {
        Told::Welcome { .. } => 13,
        Told::Stored { .. } => 21,
        Told::Offer { .. } => 35,
        Told::Read { .. } => 35,
        Told::Taken { .. } => 35,
        Told::Gone { .. } => 13,
        Told::Refused { .. } => 14,
        Told::Left { .. } => 13,
    }
}

/// Appends the frame of what a server answers.
pub fn push_told(out: &mut Vec<u8>, told: Told) -> Result<(), AllocError> {
    match told {
        Told::Welcome { last } => push_short(out, 0x11, last),
        Told::Stored { n, id } => {
            push_head(out, 17, 0x12)?;
            push_number(out, n)?;
            push_number(out, id)
        }
        Told::Offer { ticket, id, value } => push_found(out, 0x13, ticket, id, value),
        Told::Read { ticket, id, value } => push_found(out, 0x14, ticket, id, value),
        Told::Taken { n, id, value } => push_found(out, 0x15, n, id, value),
        Told::Gone { n } => push_short(out, 0x16, n),
        Told::Refused { code, detail } => {
            push_head(out, 10, 0x17)?;
            push_byte(out, code)?;
            push_number(out, detail)
        }
        Told::Left { n } => push_short(out, 0x18, n),
    }
}

// A reply with a number.
fn push_short(out: &mut Vec<u8>, kind: u8, number: u64) -> Result<(), AllocError> {
    push_head(out, 9, kind)?;
    push_number(out, number)
}

// A reply with a number, an id and a tuple.
fn push_found(
    out: &mut Vec<u8>,
    kind: u8,
    number: u64,
    id: u64,
    value: Value,
) -> Result<(), AllocError> {
    push_head(out, 31, kind)?;
    push_number(out, number)?;
    push_number(out, id)?;
    push_value(out, value)
}

/// What a message says, if it is one that clients of a run send.
pub fn said_of(message: &Message) -> Option<Said> {
    match message {
        Message::Hello {
            version,
            client,
            fresh,
        } => Some(Said::Hello {
            version: *version,
            client: *client,
            fresh: *fresh,
        }),
        Message::Out { n, tuple } => {
            let value = value_of(tuple)?;
            Some(Said::Out { n: *n, value })
        }
        Message::Ask {
            ticket,
            remove,
            template,
        } => {
            let form = form_of(template)?;
            Some(Said::Ask {
                ticket: *ticket,
                remove: *remove,
                form,
            })
        }
        Message::Accept { n, ticket, id } => Some(Said::Accept {
            n: *n,
            ticket: *ticket,
            id: *id,
        }),
        Message::Cancel { ticket } => Some(Said::Cancel { ticket: *ticket }),
        Message::Leave { n } => Some(Said::Leave { n: *n }),
    }
}

/// The tuple, if it is one of a run.
pub fn value_of(tuple: &Tuple) -> Option<Value> {
    let word = word_in(tuple.tag())?;
    match tuple.fields() {
        [Atom::Int(number)] => Some(Value {
            word,
            number: *number,
        }),
        _ => None,
    }
}

fn form_of(template: &Template) -> Option<Form> {
    let word = word_in(template.tag())?;
    let field = match template.fields() {
        [Pattern::Value(Atom::Int(number))] => Field::Is(*number),
        [Pattern::IntFormal] => Field::AnyInt,
        [Pattern::TextFormal] => Field::AnyText,
        [Pattern::Any] => Field::Any,
        _ => return None,
    };
    Some(Form { word, field })
}

// The number of a word.
fn word_in(tag: &Atom) -> Option<u8> {
    let Atom::Text(text) = tag else {
        return None;
    };
    match text.as_str().as_bytes() {
        b"a" => Some(0),
        b"b" => Some(1),
        b"c" => Some(2),
        b"d" => Some(3),
        _ => None,
    }
}
