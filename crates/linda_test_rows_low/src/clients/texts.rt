//! Texts of events: what is read, given by the one text that is written of it, or the fault.
//!
//! `read TEXT` reads the text, which is written as a string if it begins or ends with a blank or
//! has a tab in it. `nested COUNT NODE END` reads so many nodes that begin as the first string
//! says, and then the second one, and gives how many bases there are.

use linda_event::{Event, base_count};
use linda_shell_text::{EventTextFault, read_event, write_event};
use linda_test_script::{WordsFault, done, read_size, split_word, string_at};
use linda_text::TextFault;
use std::alloc::{AllocError, Global};

/// Plays a line of a row of texts.
pub fn play_text(alloc: Global, words: &str, came: &mut String) -> Result<(), WordsFault> {
    let (verb, rest) = split_word(words);
    match verb {
        "nested" => tell_nested(alloc, rest, came),
        "read" if rest.starts_with('"') => tell_quoted(alloc, rest, came),
        "read" => tell_event(alloc, rest, came),
        _ => Err(WordsFault::Unknown),
    }
}

// Writes the event that is read of a text that is there as a string.
fn tell_quoted(alloc: Global, words: &str, came: &mut String) -> Result<(), WordsFault> {
    let (text, _behind) = string_at(alloc, words, 0)?;
    tell_event(alloc, &text, came)
}

// Writes the event that is read.
fn tell_event(alloc: Global, text: &str, came: &mut String) -> Result<(), WordsFault> {
    match read_event(alloc, text) {
        Ok(event) => done(tell_written(alloc, &event, came)),
        Err(fault) => tell_fault(fault, came),
    }
}

// Writes the one text of the event.
fn tell_written(alloc: Global, event: &Event, came: &mut String) -> Result<(), AllocError> {
    let written = write_event(alloc, event)?;
    writeln!(came, "> {written}")
}

// Writes how many bases the event has that is read.
fn tell_nested(alloc: Global, words: &str, came: &mut String) -> Result<(), WordsFault> {
    let (count, rest) = split_word(words);
    let (node, behind) = string_at(alloc, rest, 0)?;
    let (end, _behind) = string_at(alloc, rest, behind)?;
    tell_bases(alloc, &nested(alloc, read_size(count)?, &node, &end)?, came)
}

// Writes how many bases the event of the text has.
fn tell_bases(alloc: Global, text: &str, came: &mut String) -> Result<(), WordsFault> {
    match read_event(alloc, text) {
        Ok(event) => done(writeln!(came, "> bases {}", base_count(&event))),
        Err(fault) => tell_fault(fault, came),
    }
}

// So many nodes that begin so, and the end.
fn nested(alloc: Global, count: usize, node: &str, end: &str) -> Result<String, AllocError> {
    let mut text = String::new(alloc);
    for _ in 0..count {
        text.push_str(node)?;
    }
    text.push_str(end)?;
    Ok(text)
}

fn tell_fault(fault: EventTextFault, came: &mut String) -> Result<(), WordsFault> {
    match fault {
        EventTextFault::Text(TextFault::Memory) => Err(WordsFault::Memory),
        fault => done(writeln!(came, "> {fault}")),
    }
}
