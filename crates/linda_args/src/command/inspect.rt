//! `linda inspect`: its command, and what is read of its matches.

ghost use Rattle.std.specs.Prelude.{codes, IfOk};
ghost use Rattle.clap.specs.Words.{found_of};
ghost use Rattle.linda_args.specs.Commands.{IsOf};
ghost use Rattle.linda_args.specs.Options.{options_of};
ghost use Rattle.linda_args.specs.Rules as rules;
ghost use Rattle.linda_args.specs.Rules.{IsCommand};

use super::Task;
use super::args::bare_command;
use super::no_task::NoTask;
use super::options::{EXPLAIN_END, explains, is_set, text_of};
use super::table::{ArgForm, Bond, Entry, with_entries};
use clap::builder::ValueParser;
use clap::{ArgMatches, Command};
use linda_inspect::Lists;
use std::alloc::{AllocError, Global};

/// The name of the command.
pub(super) const INSPECT: &str = "inspect";

/// The command that says what a folder holds.
pub(super) fn inspect_command<'a>(alloc: Global) -> Result<Command<'a>, AllocError>
    ensures { IfOk result (IsCommand rules.inspect_command) }
{
    let about =
        "Show what the store in a folder holds, and whether it would be served; nothing is written";
    let bare = bare_command(alloc, INSPECT, about, INSPECTING);
    with_entries(alloc, bare, &ENTRIES)
}

/// Its arguments.
const ENTRIES: [Entry; 5] = [
    Entry {
        name: "dir",
        value: "DIR",
        help: "The folder of the store",
        form: ArgForm::Word,
        parser: ValueParser::String,
        bond: Bond::Required,
    },
    Entry {
        name: "tuples",
        value: "",
        help: "A line for each tuple",
        form: ArgForm::Flag,
        parser: ValueParser::Bool,
        bond: Bond::Optional,
    },
    Entry {
        name: "clients",
        value: "",
        help: "A line for each client, with its kept reply",
        form: ArgForm::Flag,
        parser: ValueParser::Bool,
        bond: Bond::Optional,
    },
    Entry {
        name: "json",
        value: "",
        help: "One JSON object instead of the lines",
        form: ArgForm::Flag,
        parser: ValueParser::Bool,
        bond: Bond::Optional,
    },
    EXPLAIN_END,
];

/// What is found below `inspect`.
///
/// # Errors
///
/// `NoTask` if memory runs out.
pub(super) fn inspect_of(alloc: Global, below: &ArgMatches) -> Result<Task, NoTask>
    ensures { IfOk result (IsOf (codes "inspect") (options_of (found_of below.now))) }
{
    let dir = text_of(alloc, below, "dir")?;
    let lists = Lists {
        tuples: is_set(below, "tuples"),
        clients: is_set(below, "clients"),
    };
    Ok(Task::Inspect {
        dir,
        lists,
        json: is_set(below, "json"),
        explain: explains(below),
    })
}

const INSPECTING: &str = "Examples:\n  \
    mkdir store\n  \
    linda inspect store --tuples --clients\n  \
    linda inspect store --tuples --json > store.json";
