//! Replies of servers, in words.

ghost use Rattle.std.specs.Prelude.{◌≡◌, IfOk};
ghost use Rattle.linda_shell_text.specs.MessageWords.{reply_words};

use crate::fault::WordsFault;
use crate::number::{split_number, split_word};
use linda_shell_text::write_reply;
use linda_text::read_tuple;
use linda_tuple::Tuple;
use linda_wire::Reply;
use std::alloc::Global;

/// The reply that the words say, in the one way in which it is written.
///
/// # Errors
///
/// `Unknown` if they say no reply so; `Memory` if memory runs out.
pub fn read_reply(alloc: Global, text: &str) -> Result<Reply, WordsFault>
    ensures { IfOk result (λ r. text.now ≡ reply_words r) }
{
    let reply = reply_in(alloc, text)?;
    let written = write_reply(alloc, &reply)?;
    if written.as_str() == text {
        Ok(reply)
    } else {
        Err(WordsFault::Unknown)
    }
}

// The reply that the words may say.
fn reply_in(alloc: Global, text: &str) -> Result<Reply, WordsFault> {
    let (word, rest) = split_word(text);
    let (first, rest) = split_number(rest)?;
    match word {
        "welcome" => Ok(Reply::Welcome { last: first }),
        "gone" => Ok(Reply::Gone { n: first }),
        "left" => Ok(Reply::Left { n: first }),
        _ => reply_of_two(alloc, word, first, rest),
    }
}

// The reply of two numbers or more that the words may say after the first number.
fn reply_of_two(alloc: Global, word: &str, first: u64, text: &str) -> Result<Reply, WordsFault> {
    let (second, rest) = split_number(text)?;
    match word {
        "stored" => Ok(Reply::Stored {
            n: first,
            id: second,
        }),
        "refused" => refusal(first, second),
        _ => with_tuple(word, first, second, read_tuple(alloc, rest)?),
    }
}

// The refusal of this code, if it is one.
fn refusal(code: u64, detail: u64) -> Result<Reply, WordsFault> {
    match u8::try_from(code) {
        Ok(code) => Ok(Reply::Refused { code, detail }),
        Err(_) => Err(WordsFault::Unknown),
    }
}

// The reply of this word, two numbers and a tuple.
fn with_tuple(word: &str, first: u64, id: u64, tuple: Tuple) -> Result<Reply, WordsFault> {
    match word {
        "offer" => Ok(Reply::Offer {
            ticket: first,
            id,
            tuple,
        }),
        "read" => Ok(Reply::Read {
            ticket: first,
            id,
            tuple,
        }),
        "taken" => Ok(Reply::Taken {
            n: first,
            id,
            tuple,
        }),
        _ => Err(WordsFault::Unknown),
    }
}
