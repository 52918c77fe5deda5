//! Rows as a program: from standard input to standard output.

use crate::rows::{Player, play_rows};
use std::io;
use std::io::{ErrorKind, Input};
use std::process::ExitCode;

/// The exit status if standard input or output fails, or memory runs out.
const REFUSED: u8 = 3;

/// Plays the rows on standard input. On standard output are those that came otherwise than they
/// say, each with its first line that did, and at the end how many came as they say.
///
/// The exit status is 0; it is 3, with one line on standard error, if standard input or output
/// fails or memory runs out.
pub fn run_rows<R: Input + Print + Eprint + AllocGlobal, P: Player>(
    rt: &R,
    player: &mut P,
) -> ExitCode {
    match print_rows(rt, player) {
        Ok(()) => ExitCode::SUCCESS,
        Err(fault) => {
            let memory = fault.kind() == ErrorKind::OutOfMemory;
            let _ = rt.eprintln(if memory { "memory" } else { "io" });
            ExitCode::from(REFUSED)
        }
    }
}

// Plays the rows, and writes what came of them.
fn print_rows<R: Input + Print + Eprint + AllocGlobal, P: Player>(
    rt: &R,
    player: &mut P,
) -> io::Result<()> {
    let rows = io::read_to_string(rt.alloc(), rt.reader())?;
    let Ok(played) = play_rows(rt.alloc(), player, rows.as_str()) else {
        return Err(io::Error::from(ErrorKind::OutOfMemory));
    };
    rt.print(played.others.as_str())?;
    println!(rt; "{} rows as wanted", played.as_wanted)
}
