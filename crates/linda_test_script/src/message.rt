//! Messages of clients, in words.

ghost use Rattle.std.specs.Prelude.{◌≡◌, IfOk};
ghost use Rattle.linda_shell_text.specs.MessageWords.{message_words};

use crate::fault::WordsFault;
use crate::lines::said;
use crate::number::{read_numbered, split_number, split_word};
use linda_shell_text::write_message;
use linda_text::{read_template, read_tuple};
use linda_wire::Message;
use std::alloc::Global;

/// The message that the words say, in the one way in which it is written.
///
/// # Errors
///
/// `Unknown` if they say no message so; `Memory` if memory runs out.
pub fn read_message(alloc: Global, text: &str) -> Result<Message, WordsFault>
    ensures { IfOk result (λ m. text.now ≡ message_words m) }
{
    let message = message_in(alloc, text)?;
    let written = write_message(alloc, &message)?;
    if written.as_str() == text {
        Ok(message)
    } else {
        Err(WordsFault::Unknown)
    }
}

/// The messages that a script says, each after the number of its client, as `7 out 1 ("a", 3)`.
///
/// # Errors
///
/// `Unknown` if a line says no message so; `Memory` if memory runs out.
pub fn read_messages(alloc: Global, script: &str) -> Result<Vec<(u32, Message)>, WordsFault> {
    let mut messages = Vec::new(alloc);
    for line in script.lines() {
        if let Some(words) = said(line) {
            let (client, words) = read_numbered(words)?;
            messages.push((client, read_message(alloc, words)?))?;
        }
    }
    Ok(messages)
}

/// The messages that the words say, with `; ` between them, each after the number of its client; of
/// no words none.
///
/// # Errors
///
/// `Unknown` if they say other than that; `Memory` if memory runs out.
pub fn read_batch(alloc: Global, words: &str) -> Result<Vec<(u32, Message)>, WordsFault> {
    let mut messages = Vec::new(alloc);
    if !words.is_empty() {
        for words in words.split("; ") {
            let (client, words) = read_numbered(words)?;
            messages.push((client, read_message(alloc, words)?))?;
        }
    }
    Ok(messages)
}

// The message that the words may say.
fn message_in(alloc: Global, text: &str) -> Result<Message, WordsFault> {
    let (word, rest) = split_word(text);
    match word {
        "hello" => hello_in(rest),
        "out" => out_in(alloc, rest),
        "in" => ask_in(alloc, rest, true),
        "rd" => ask_in(alloc, rest, false),
        "accept" => accept_in(rest),
        "cancel" => cancel_in(rest),
        "leave" => leave_in(rest),
        _ => Err(WordsFault::Unknown),
    }
}

fn hello_in(text: &str) -> Result<Message, WordsFault> {
    let (version, rest) = split_number(text)?;
    let (client, rest) = split_number(rest)?;
    match (u8::try_from(version), u32::try_from(client)) {
        (Ok(version), Ok(client)) => Ok(Message::Hello {
            version,
            client,
            fresh: rest == "fresh",
        }),
        _ => Err(WordsFault::Unknown),
    }
}

fn out_in(alloc: Global, text: &str) -> Result<Message, WordsFault> {
    let (n, rest) = split_number(text)?;
    let tuple = read_tuple(alloc, rest)?;
    Ok(Message::Out { n, tuple })
}

fn ask_in(alloc: Global, text: &str, remove: bool) -> Result<Message, WordsFault> {
    let (ticket, rest) = split_number(text)?;
    let template = read_template(alloc, rest)?;
    Ok(Message::Ask {
        ticket,
        remove,
        template,
    })
}

fn accept_in(text: &str) -> Result<Message, WordsFault> {
    let (n, rest) = split_number(text)?;
    let (ticket, rest) = split_number(rest)?;
    let (id, _rest) = split_number(rest)?;
    Ok(Message::Accept { n, ticket, id })
}

fn cancel_in(text: &str) -> Result<Message, WordsFault> {
    let (ticket, _rest) = split_number(text)?;
    Ok(Message::Cancel { ticket })
}

fn leave_in(text: &str) -> Result<Message, WordsFault> {
    let (n, _rest) = split_number(text)?;
    Ok(Message::Leave { n })
}
