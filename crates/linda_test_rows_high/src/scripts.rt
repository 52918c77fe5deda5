//! Scripts of `linda run`, and what they print, or their traces.
//!
//! A line is a line of the script, and what it prints comes after it: each time the script is run
//! from its beginning, and what it printed before has to come again. Its fault, if it has one,
//! comes after that. `servers N` begins a script over that many servers; if a row does not say so,
//! it is over one. `script TEXT` runs a script that is there as a string, since its blanks and line
//! ends matter, and gives all that it prints. `times N LINE` is a line that is there N times: how
//! many lines that prints is written, and the last of them. A tilde in a line represents a string
//! of 255 letters. `skip N` is N lines that are passed over.
//!
//! In a row of traces each line gives the lines of the trace in place of what is printed, which has
//! to be what is printed without a trace.

mod lines;

use linda_client::MAX_SERVERS;
use linda_shell::{LineFault, ScriptFault, run_script, trace_script};
use linda_test_script::{WordsFault, read_small_number, split_word, string_at};
use lines::{push_line, push_lines, push_skipped, tell_last};
use std::alloc::{AllocError, Global};

/// The player of rows of scripts, or of their traces.
#[derive(Drop)]
pub struct Scripts {
    are_traced: bool,
    servers: u32,
    /// The lines so far, and what they printed, or their trace.
    script: String,
    printed: String,
}

impl Scripts {
    /// An empty script over one server.
    pub fn new(alloc: Global, are_traced: bool) -> Scripts {
        Scripts {
            are_traced,
            servers: 1,
            script: String::new(alloc),
            printed: String::new(alloc),
        }
    }

    /// Begins a row: an empty script over one server.
    pub fn begin(&mut self, alloc: Global, are_traced: bool) {
        *self = Scripts::new(alloc, are_traced);
    }

    /// Plays a line.
    pub fn play(
        &mut self,
        alloc: Global,
        words: &str,
        came: &mut String,
    ) -> Result<(), WordsFault> {
        let (verb, rest) = split_word(words);
        match verb {
            "servers" => self.begin_over(alloc, rest),
            "skip" => push_skipped(&mut self.script, rest),
            "script" => self.play_script(alloc, rest, came),
            "times" => self.play_lines(alloc, rest, came),
            _ => self.play_line(alloc, words, came),
        }
    }

    // Begins a script over so many servers.
    fn begin_over(&mut self, alloc: Global, servers: &str) -> Result<(), WordsFault> {
        let servers = read_small_number(servers)?;
        self.begin(alloc, self.are_traced);
        self.servers = servers;
        Ok(())
    }

    // Runs the script that is there as a string.
    fn play_script(
        &mut self,
        alloc: Global,
        words: &str,
        came: &mut String,
    ) -> Result<(), WordsFault> {
        let (script, _behind) = string_at(alloc, words, 0)?;
        self.script = script;
        self.printed.clear();
        self.run(alloc, came, false)
    }

    // Runs the script with a line that is there so many times.
    fn play_lines(
        &mut self,
        alloc: Global,
        words: &str,
        came: &mut String,
    ) -> Result<(), WordsFault> {
        push_lines(&mut self.script, words)?;
        self.run(alloc, came, true)
    }

    // Runs the script with one more line.
    fn play_line(
        &mut self,
        alloc: Global,
        line: &str,
        came: &mut String,
    ) -> Result<(), WordsFault> {
        push_line(&mut self.script, line)?;
        self.run(alloc, came, false)
    }

    // Runs the script, and gives what it printed that it had not printed before: all of it, or only
    // the last line if there are many.
    fn run(&mut self, alloc: Global, came: &mut String, are_many: bool) -> Result<(), WordsFault> {
        let (printed, end) = if self.are_traced {
            traced_by(alloc, &self.script, self.servers)?
        } else {
            printed_by(alloc, &self.script, self.servers)?
        };
        tell_more(&printed, &self.printed, are_many, came)?;
        self.printed = printed;
        tell_end(end, came)
    }
}

// Writes what was printed after what had been printed before.
fn tell_more(
    printed: &str,
    before: &str,
    are_many: bool,
    came: &mut String,
) -> Result<(), AllocError> {
    match printed.strip_prefix(before) {
        None => came.push_str("> ? what was printed before does not come again\n"),
        Some(more) if are_many => tell_last(more, came),
        Some(more) => tell_lines(more, came),
    }
}

// Writes the fault that a script ended with, if there is one.
fn tell_end(end: Result<(), ScriptFault>, came: &mut String) -> Result<(), WordsFault> {
    match end {
        Ok(()) => Ok(()),
        Err(ScriptFault::Memory) => Err(WordsFault::Memory),
        Err(ScriptFault::Line(_, LineFault::Memory)) => Err(WordsFault::Memory),
        Err(fault) => Ok(writeln!(came, "> {fault}")?),
    }
}

// Writes what was printed, line by line.
fn tell_lines(printed: &str, came: &mut String) -> Result<(), AllocError> {
    match printed.strip_suffix("\n") {
        Some(lines) => {
            for line in lines.split('\n') {
                writeln!(came, "> {line}")?;
            }
            Ok(())
        }
        None if printed.is_empty() => Ok(()),
        None => writeln!(came, "> ? no line feed behind {printed}"),
    }
}

// What the script prints over so many servers, and how it ends.
fn printed_by(
    alloc: Global,
    script: &str,
    servers: u32,
) -> Result<(String, Result<(), ScriptFault>), WordsFault> {
    if servers < 1 || servers > MAX_SERVERS {
        return Err(WordsFault::Unknown);
    }
    let mut reader = script.as_bytes();
    let mut printed = Vec::new(alloc);
    let end = run_script(alloc, &mut reader, &mut printed, servers);
    Ok((text_of(alloc, &printed)?, end))
}

// The trace of the script over so many servers, and how it ends. What it prints has to be what it
// prints without one.
fn traced_by(
    alloc: Global,
    script: &str,
    servers: u32,
) -> Result<(String, Result<(), ScriptFault>), WordsFault> {
    let (alone, ended) = printed_by(alloc, script, servers)?;
    if servers < 1 || servers > MAX_SERVERS {
        return Err(WordsFault::Unknown);
    }
    let mut reader = script.as_bytes();
    let mut printed = Vec::new(alloc);
    let mut trace = Vec::new(alloc);
    let end = trace_script(alloc, &mut reader, &mut printed, &mut trace, servers);
    if text_of(alloc, &printed)? != alone || end != ended {
        return Err(WordsFault::Unknown);
    }
    Ok((text_of(alloc, &trace)?, end))
}

// The text of bytes that were written.
fn text_of(alloc: Global, bytes: &[u8]) -> Result<String, WordsFault> {
    match std::str::from_utf8(bytes) {
        Ok(text) => Ok(String::from_str(alloc, text)?),
        Err(_) => Err(WordsFault::Unknown),
    }
}
