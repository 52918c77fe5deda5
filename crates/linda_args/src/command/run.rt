//! `linda run`: its command, and the runs that are read of its matches.

ghost use Rattle.std.specs.Prelude.{codes, IfOk};
ghost use Rattle.clap.specs.Words.{found_of};
ghost use Rattle.linda_args.specs.Commands.{IsOf};
ghost use Rattle.linda_args.specs.Options.{options_of};
ghost use Rattle.linda_args.specs.Rules as rules;
ghost use Rattle.linda_args.specs.Rules.{IsCommand};

use super::Task;
use super::args::bare_command;
use super::no_task::{NoTask, UNREAD};
use super::options::{EXPLAIN_LINES, explains, long_number};
use super::table::{ArgForm, Bond, Entry, with_entries};
use clap::builder::ValueParser;
use clap::{ArgMatches, Command};
use linda_client::MAX_SERVERS;
use std::alloc::{AllocError, Global};

/// The name of the command.
pub(super) const RUN: &str = "run";

/// The command that plays a script.
pub(super) fn run_command<'a>(alloc: Global) -> Result<Command<'a>, AllocError>
    ensures { IfOk result (IsCommand rules.run_command) }
{
    let about = "Play a script from standard input with servers in memory";
    with_entries(alloc, bare_command(alloc, RUN, about, SCRIPT), &ENTRIES)
}

/// Its arguments.
const ENTRIES: [Entry; 3] = [
    Entry {
        name: "servers",
        value: "N",
        help: "How many servers, from 1 to 16",
        form: ArgForm::Single,
        parser: ValueParser::Signed(1, MAX_SERVERS as i64),
        bond: Bond::Required,
    },
    Entry {
        name: "trace",
        value: "FILE",
        help: "Write what happened to this file, a line an event",
        form: ArgForm::Single,
        parser: ValueParser::String,
        bond: Bond::Optional,
    },
    EXPLAIN_LINES,
];

/// What is found below `run`; the parser has judged the number.
///
/// # Errors
///
/// `NoTask` if memory runs out.
pub(super) fn run_of(alloc: Global, below: &ArgMatches) -> Result<Task, NoTask>
    ensures { IfOk result (IsOf (codes "run") (options_of (found_of below.now))) }
{
    let Some(servers) = long_number(below, "servers") else {
        return Err(UNREAD);
    };
    if servers < 1 || servers > MAX_SERVERS {
        return Err(UNREAD);
    }
    let explain = explains(below);
    match below.get_str("trace") {
        None => Ok(Task::Run { servers, explain }),
        Some(file) => {
            let file = String::from_str(alloc, file)?;
            Ok(Task::TracedRun {
                servers,
                file,
                explain,
            })
        }
    }
}

const SCRIPT: &str = "Examples, of which the second keeps the trace:\n  \
    linda run --servers 2 < script\n  \
    linda run --servers 2 --trace trace < script\n\n\
    A script:\n  \
    7 out (\"a\", 3)\n  \
    8 sync in (\"a\", ?i)\n  \
    state 1";
