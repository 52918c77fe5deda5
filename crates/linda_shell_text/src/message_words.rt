//! Messages and replies in words, as the trace of a script has them and the scripts for tests.

ghost use Rattle.std.specs.Prelude.{◌≡◌, IfOk};
ghost use Rattle.std.specs.String.{string_bytes};
ghost use Rattle.linda_wire.specs.declared.message.Message.TheVariants.{Ask, Hello, Out};
ghost use Rattle.linda_shell_text.specs.MessageWords.{entry_words, message_words, reply_words};

use linda_text::{push_template, write_tuple};
use linda_tuple::{Template, Tuple};
use linda_wire::{Message, Reply};
use std::alloc::{AllocError, Global};

/// The message in words, as `out 1 ("a", 3)`.
///
/// # Errors
///
/// `AllocError` if memory runs out.
pub fn write_message(alloc: Global, message: &Message) -> Result<String, AllocError>
    ensures { IfOk result (λ s. string_bytes s ≡ message_words message.now) }
{
    match message {
        Message::Hello {
            version,
            client,
            fresh,
        } => hello_words(alloc, *version, *client, *fresh),
        Message::Out { n, tuple } => out_words(alloc, *n, tuple),
        Message::Ask {
            ticket,
            remove,
            template,
        } => ask_words(alloc, *ticket, *remove, template),
        Message::Accept { n, ticket, id } => format!(in alloc; "accept {n} {ticket} {id}"),
        Message::Cancel { ticket } => format!(in alloc; "cancel {ticket}"),
        Message::Leave { n } => format!(in alloc; "leave {n}"),
    }
}

fn hello_words(alloc: Global, version: u8, client: u32, fresh: bool) -> Result<String, AllocError>
    ensures { IfOk result (λ s. string_bytes s ≡ message_words (Hello version client fresh)) }
{
    let word = if fresh { "fresh" } else { "known" };
    format!(in alloc; "hello {version} {client} {word}")
}

fn out_words(alloc: Global, n: u64, tuple: &Tuple) -> Result<String, AllocError>
    ensures { IfOk result (λ s. string_bytes s ≡ message_words (Out n tuple.now)) }
{
    let tuple = write_tuple(alloc, tuple)?;
    format!(in alloc; "out {n} {tuple}")
}

fn ask_words(
    alloc: Global,
    ticket: u64,
    remove: bool,
    template: &Template,
) -> Result<String, AllocError>
    ensures { IfOk result (λ s. string_bytes s ≡ message_words (Ask ticket remove template.now)) }
{
    let word = if remove { "in" } else { "rd" };
    let mut out = format!(in alloc; "{word} {ticket} ")?;
    push_template(&mut out, template)?;
    Ok(out)
}

/// The reply in words, as `offer 1 2 ("a", 3)`.
///
/// # Errors
///
/// `AllocError` if memory runs out.
pub fn write_reply(alloc: Global, reply: &Reply) -> Result<String, AllocError>
    ensures { IfOk result (λ s. string_bytes s ≡ reply_words reply.now) }
{
    match reply {
        Reply::Welcome { last } => format!(in alloc; "welcome {last}"),
        Reply::Stored { n, id } => format!(in alloc; "stored {n} {id}"),
        Reply::Offer { ticket, id, tuple } => words_of_entry(alloc, "offer", *ticket, *id, tuple),
        Reply::Read { ticket, id, tuple } => words_of_entry(alloc, "read", *ticket, *id, tuple),
        Reply::Taken { n, id, tuple } => words_of_entry(alloc, "taken", *n, *id, tuple),
        Reply::Gone { n } => format!(in alloc; "gone {n}"),
        Reply::Refused { code, detail } => format!(in alloc; "refused {code} {detail}"),
        Reply::Left { n } => format!(in alloc; "left {n}"),
    }
}

/// A word, two numbers and a tuple, as `offer 1 2 ("a", 3)`.
///
/// # Errors
///
/// `AllocError` if memory runs out.
pub fn words_of_entry(
    alloc: Global,
    word: &str,
    number: u64,
    id: u64,
    tuple: &Tuple,
) -> Result<String, AllocError>
    ensures { IfOk result (λ s. string_bytes s ≡ entry_words word.now number id tuple.now) }
{
    let tuple = write_tuple(alloc, tuple)?;
    format!(in alloc; "{word} {number} {id} {tuple}")
}
