//! A script from a reader, what it prints to a writer, and its trace to another one if that is
//! wanted.

ghost use Rattle.std.specs.Prelude.{◌≤◌};
ghost use Rattle.linda_client.specs.declared.limits.TheConstants.{MAX_SERVERS};

use super::Script;
use super::fault::ScriptFault;
use super::output::LineOutput;
use linda_shell_text::LineFault;
use std::alloc::Global;
use std::io::{Read, Write, sink};

// The most bytes of one read.
const BUFFER: usize = 4096;

/// Runs a script over so many new servers in memory, 1 to 16: a command a line, and a carriage
/// return at a line's end is dropped. What a command prints is written and flushed before the next
/// line is looked at. The last line may lack its line feed.
///
/// # Errors
///
/// `Line` with the number of the first line that was not done, from 1: what was printed so far is
/// written. `Read` and `Turns` if the script fails, or has not ended after 4,294,967,295 reads: all
/// lines that were whole are done. `Write` if the output fails. `Memory` if it runs out before the
/// first line.
pub fn run_script<R: Read, W: Write>(
    alloc: Global,
    reader: &mut R,
    writer: &mut W,
    servers: u32,
) -> Result<(), ScriptFault>
    requires some { 1 ≤ servers }
    requires few { servers ≤ MAX_SERVERS }
{
    let Ok(script) = Script::new(alloc, servers) else {
        return Err(ScriptFault::Memory);
    };
    let mut lines = Lines::new(alloc, script, LineOutput::new(alloc));
    play(alloc, reader, writer, &mut sink(), &mut lines)
}

/// Runs a script as `run_script` does, and writes its trace too: of each line, after what the line
/// printed.
///
/// # Errors
///
/// As `run_script`; `Write` also if the trace cannot be written. What happened up to the fault is
/// written as far as it can be.
pub fn trace_script<R: Read, W: Write, T: Write>(
    alloc: Global,
    reader: &mut R,
    writer: &mut W,
    tracer: &mut T,
    servers: u32,
) -> Result<(), ScriptFault>
    requires some { 1 ≤ servers }
    requires few { servers ≤ MAX_SERVERS }
{
    let Ok(script) = Script::new(alloc, servers) else {
        return Err(ScriptFault::Memory);
    };
    let Ok(out) = LineOutput::traced(alloc, servers) else {
        return Err(ScriptFault::Memory);
    };
    write_and_flush(tracer, out.told())?;
    let mut lines = Lines::new(alloc, script, out);
    lines.out.clear();
    play(alloc, reader, writer, tracer, &mut lines)
}

// Plays the lines of a script to its end.
fn play<R: Read, W: Write, T: Write>(
    alloc: Global,
    reader: &mut R,
    writer: &mut W,
    tracer: &mut T,
    lines: &mut Lines,
) -> Result<(), ScriptFault> {
    let mut buffer = [0; BUFFER];
    for _turn in 0..u32::MAX {
        let Ok(count) = reader.read(&mut buffer) else {
            return Err(ScriptFault::Read);
        };
        if count == 0 {
            return lines.end_line(alloc, writer, tracer);
        }
        lines.feed(alloc, &buffer[..count], writer, tracer)?;
    }
    Err(ScriptFault::Turns)
}

// Writes a text, if there is one, and flushes.
fn write_and_flush<W: Write>(writer: &mut W, text: &str) -> Result<(), ScriptFault> {
    if text.is_empty() {
        return Ok(());
    }
    if writer.write_all(text.as_bytes()).is_err() || writer.flush().is_err() {
        return Err(ScriptFault::Write);
    }
    Ok(())
}

// A script, the line that was begun, its number, and what comes of it.
#[derive(Drop)]
struct Lines {
    script: Script,
    line: Vec<u8>,
    number: u64,
    out: LineOutput,
}

impl Lines {
    // The first line of a script is still to come.
    fn new(alloc: Global, script: Script, out: LineOutput) -> Lines {
        Lines {
            script,
            line: Vec::new(alloc),
            number: 1,
            out,
        }
    }

    // Takes a piece of the script, and does the lines that end in it.
    fn feed<W: Write, T: Write>(
        &mut self,
        alloc: Global,
        piece: &[u8],
        writer: &mut W,
        tracer: &mut T,
    ) -> Result<(), ScriptFault> {
        for byte in piece {
            if *byte == b'\n' {
                self.end_line(alloc, writer, tracer)?;
            } else if self.line.push(*byte).is_err() {
                return Err(ScriptFault::Line(self.number, LineFault::Memory));
            }
        }
        Ok(())
    }

    // Does the line that was begun, and begins the next one.
    fn end_line<W: Write, T: Write>(
        &mut self,
        alloc: Global,
        writer: &mut W,
        tracer: &mut T,
    ) -> Result<(), ScriptFault> {
        let line = without_return(&self.line);
        let done = self
            .script
            .run_line(alloc, self.number, line, &mut self.out);
        write_and_flush(writer, self.out.printed())?;
        write_and_flush(tracer, self.out.told())?;
        if let Err(fault) = done {
            return Err(ScriptFault::Line(self.number, fault));
        }
        self.out.clear();
        self.line.clear();
        self.number = self.number.saturating_add(1);
        Ok(())
    }
}

// The line without the carriage return at its end, if there is one.
fn without_return(line: &[u8]) -> &[u8] {
    match line {
        [front @ .., b'\r'] => front,
        _ => line,
    }
}
