//! The command line.

mod args;
mod call;
mod inspect;
mod no_task;
mod options;
mod paths;
mod pipe;
mod ports;
mod run;
mod serve;
mod socket;
mod status;
mod table;
mod version;

ghost use Rattle.std.specs.Prelude.{◌≡◌, false, map, IfOk};
ghost use Rattle.std.specs.String.{string_bytes};
ghost use Rattle.clap.specs.Words.{app_of};
ghost use Rattle.linda_args.specs.Commands as spec;
ghost use Rattle.linda_args.specs.Commands.{HasServers, IsAskedBy, IsIn};
ghost use Rattle.linda_args.specs.Rules as rules;

use args::{bare_linda, with_command};
use call::{CALL, call_command, call_of};
use clap::{ArgMatches, Command, Error};
use inspect::{INSPECT, inspect_command, inspect_of};
use linda_inspect::Lists;
use linda_serve_plan::ServePlan;
use no_task::{NoTask, UNREAD, error_of};
pub use paths::Paths;
use pipe::{PIPE, pipe_command};
pub use ports::Ports;
use run::{RUN, run_command, run_of};
use serve::{SERVE, serve_command, serve_of};
use std::alloc::{AllocError, Global};
pub use version::{VERSION_LINES, asks_for_version};

/// What the command line asks for.
#[derive(Debug, Drop)]
pub enum Task {
    /// One volatile server and one connection, over standard input and output.
    Pipe,
    /// A script from standard input, played with this many servers: from 1 to `MAX_SERVERS`.
    Run {
        servers: u32,
        /// A fault of a line is explained, and so in the others below.
        explain: bool,
    },
    /// A run as `Run` is, with its trace written to this file.
    TracedRun {
        servers: u32,
        file: String,
        explain: bool,
    },
    /// Lines of a client from standard input, over servers that listen on ports of this machine;
    /// `again` if it goes on as a client that was used before.
    Call {
        client: u32,
        ports: Ports,
        again: bool,
        /// Lines that put tuples need not wait for one another.
        together: bool,
        explain: bool,
    },
    /// Lines as those of `Call`, over servers that listen on unix sockets.
    CallAt {
        client: u32,
        paths: Paths,
        again: bool,
        together: bool,
        explain: bool,
    },
    /// The store in a folder, served by this plan: on a port, at a unix socket or on both, with a
    /// log or without one. Its metrics count no tag if there is no status.
    Serve {
        plan: ServePlan,
        log: bool,
        explain: bool,
    },
    /// What the store in this folder comes to, with these lists; as lines, or as one JSON object.
    Inspect {
        dir: String,
        lists: Lists,
        json: bool,
        explain: bool,
    },
}

/// Reads the words of the command line, of which the first names the program.
///
/// # Errors
///
/// The parser's fault: a command that is missing or unknown, a word too many, a number that is
/// missing or not in its range, memory that ran out; or the help that was asked for. What the
/// parser cannot judge is refused in the same form, with the usage of the command: a mode, the
/// place of a status, tags without a status, too many sockets.
pub fn read_task(alloc: Global, words: &[String]) -> Result<Task, Error>
    // By the parser's definition the words name the task's command, and the task is as they say.
    ensures asked { IfOk result (IsAskedBy (map string_bytes words.now)) }
    ensures servers { IfOk result HasServers }
    ensures kept { IfOk result (λ task. spec.is_unkept task ≡ false) }
{
    let mut linda = command(alloc)?;
    let matches = linda.try_get_matches_from_mut(words)?;
    match task_of(alloc, &matches) {
        Ok(task) => Ok(task),
        Err(why) => Err(error_of(alloc, &matches, why)),
    }
}

// What the parser found that the words ask for.
fn task_of(alloc: Global, matches: &ArgMatches) -> Result<Task, NoTask>
    ensures { IfOk result (IsIn matches.now) }
{
    if let Some(_below) = matches.subcommand_matches(PIPE) {
        return Ok(Task::Pipe);
    }
    if let Some(below) = matches.subcommand_matches(RUN) {
        return run_of(alloc, below);
    }
    if let Some(below) = matches.subcommand_matches(CALL) {
        return call_of(alloc, below);
    }
    if let Some(below) = matches.subcommand_matches(SERVE) {
        return serve_of(alloc, below);
    }
    if let Some(below) = matches.subcommand_matches(INSPECT) {
        return inspect_of(alloc, below);
    }
    Err(UNREAD)
}

// The program's command.
fn command<'a>(alloc: Global) -> Result<Command<'a>, AllocError>
    ensures { IfOk result (λ c. app_of c ≡ rules.linda) }
{
    let piping = bare_linda(alloc).subcommand(pipe_command(alloc));
    let running = with_command(piping, run_command(alloc));
    let calling = with_command(running, call_command(alloc));
    let serving = with_command(calling, serve_command(alloc));
    with_command(serving, inspect_command(alloc))
}
