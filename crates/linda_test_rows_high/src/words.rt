//! Words of the command line, as they are read, and the lines of a pipe's faults.
//!
//! `task WORDS` gives the task, or the exit status if there is none; `version WORDS` gives `asked`
//! or `not asked`. Words of a command line have bars between them. `fault digits LINE`, `fault
//! memory LINE`, `fault read`, `fault write` and `fault turns` give the fault's line and its exit
//! status.

use linda_args::{asks_for_version, read_task};
use linda_pipe::PipeFault;
use linda_test_script::{WordsFault, done, read_numbered, split_word};
use std::alloc::{AllocError, Global};

/// Does what the words say.
pub(crate) fn play_words(alloc: Global, words: &str, came: &mut String) -> Result<(), WordsFault> {
    let (word, rest) = split_word(words);
    match word {
        "task" => tell_task(alloc, rest, came),
        "version" => tell_version(alloc, rest, came),
        "fault" => tell_fault(rest, came),
        _ => Err(WordsFault::Unknown),
    }
}

// Writes what the words of a command line ask for.
fn tell_task(alloc: Global, line: &str, came: &mut String) -> Result<(), WordsFault> {
    let words = words_of(alloc, line)?;
    done(tell_read(alloc, &words, came))
}

// Writes the task, or the exit status of the parser's fault, or of the help.
fn tell_read(alloc: Global, words: &[String], came: &mut String) -> Result<(), AllocError> {
    match read_task(alloc, words) {
        Ok(task) => writeln!(came, "> {task:?}"),
        Err(error) => writeln!(came, "> status {}", error.exit_code()),
    }
}

// Writes whether the words of a command line ask for the version.
fn tell_version(alloc: Global, line: &str, came: &mut String) -> Result<(), WordsFault> {
    let words = words_of(alloc, line)?;
    let asks = asks_for_version(&words);
    done(came.push_str(if asks { "> asked\n" } else { "> not asked\n" }))
}

// Writes the line and the exit status of the fault that the words name.
fn tell_fault(words: &str, came: &mut String) -> Result<(), WordsFault> {
    let fault = fault_of(words)?;
    done(writeln!(came, "> {fault}, status {}", fault.status()))
}

// The words of a command line, which are between bars.
fn words_of(alloc: Global, line: &str) -> Result<Vec<String>, AllocError> {
    let mut words = Vec::new(alloc);
    for word in line.split('|') {
        push_word(alloc, &mut words, word)?;
    }
    Ok(words)
}

// Appends a word.
fn push_word(alloc: Global, words: &mut Vec<String>, word: &str) -> Result<(), AllocError> {
    let word = String::from_str(alloc, word)?;
    Ok(words.push(word)?)
}

// The fault that the words name, with the number of its line.
fn fault_of(words: &str) -> Result<PipeFault, WordsFault> {
    let (word, rest) = split_word(words);
    match word {
        "digits" => Ok(PipeFault::NotHexadecimal(line_of(rest)?)),
        "memory" => Ok(PipeFault::Memory(line_of(rest)?)),
        "read" => Ok(PipeFault::Read),
        "write" => Ok(PipeFault::Write),
        "turns" => Ok(PipeFault::Turns),
        _ => Err(WordsFault::Unknown),
    }
}

// The number of the line that is in front.
fn line_of(words: &str) -> Result<u64, WordsFault> {
    let (line, _) = read_numbered(words)?;
    Ok(u64::from(line))
}
