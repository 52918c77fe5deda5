//! `linda call`: its command, and the calls that are read of its matches.

ghost use Rattle.std.specs.Prelude.{codes, IfOk};
ghost use Rattle.clap.specs.Words.{found_of};
ghost use Rattle.linda_args.specs.Commands.{IsOf};
ghost use Rattle.linda_args.specs.Options.{options_of};
ghost use Rattle.linda_args.specs.Rules as rules;
ghost use Rattle.linda_args.specs.Rules.{IsCommand};

use super::Task;
use super::args::full_command;
use super::no_task::{NoTask, UNREAD};
use super::options::{EXPLAIN_LINES, explains, is_set, long_number};
use super::paths::Paths;
use super::ports::Ports;
use super::table::{ArgForm, Bond, Entry, with_entries};
use clap::builder::ValueParser;
use clap::{ArgMatches, Command};
use std::alloc::{AllocError, Global};

/// The name of the command.
pub(super) const CALL: &str = "call";

/// The command of a client.
pub(super) fn call_command<'a>(alloc: Global) -> Result<Command<'a>, AllocError>
    ensures { IfOk result (IsCommand rules.call_command) }
{
    let about =
        "Put and take tuples at servers that listen on ports or unix sockets of this machine";
    let full = full_command(alloc, CALL, about, CALLING, CALLS);
    with_entries(alloc, full, &ENTRIES)
}

/// Its arguments.
const ENTRIES: [Entry; 6] = [
    Entry {
        name: "client",
        value: "C",
        help: "Client number, from 0 to 4294967295; no other client may use it",
        form: ArgForm::Single,
        parser: ValueParser::Signed(0, 4294967295),
        bond: Bond::Required,
    },
    Entry {
        name: "ports",
        value: "PORT",
        help: "Ports of servers 0, 1, .., from 1 to 16 of them; none with --socket",
        form: ArgForm::Words,
        parser: ValueParser::Signed(1, 65535),
        bond: Bond::Unless("socket"),
    },
    Entry {
        name: "socket",
        value: "PATH",
        help: "Where a server listens; once for each of servers 0, 1, .., 16 at most",
        form: ArgForm::Repeated,
        parser: ValueParser::NonEmptyString,
        bond: Bond::Without("ports"),
    },
    Entry {
        name: "again",
        value: "",
        help: "Go on as a client that was used before",
        form: ArgForm::Flag,
        parser: ValueParser::Bool,
        bond: Bond::Optional,
    },
    Entry {
        name: "together",
        value: "",
        help: "Put tuples without waiting, up to 64 before their outcomes",
        form: ArgForm::Flag,
        parser: ValueParser::Bool,
        bond: Bond::Optional,
    },
    EXPLAIN_LINES,
];

/// What is found below `call`: ports, or paths if there are none.
///
/// # Errors
///
/// `NoTask` if there are too many paths, or if memory runs out.
pub(super) fn call_of(alloc: Global, below: &ArgMatches) -> Result<Task, NoTask>
    ensures { IfOk result (IsOf (codes "call") (options_of (found_of below.now))) }
{
    let Some(client) = long_number(below, "client") else {
        return Err(UNREAD);
    };
    let again = is_set(below, "again");
    let together = is_set(below, "together");
    let explain = explains(below);
    if let Some(ports) = Ports::found(alloc, below)? {
        return Ok(Task::Call {
            client,
            ports,
            again,
            together,
            explain,
        });
    }
    let paths = Paths::found(alloc, below)?;
    Ok(Task::CallAt {
        client,
        paths,
        again,
        together,
        explain,
    })
}

const CALLS: &str = "linda call [OPTIONS] --client <C> <PORT>...\n       \
    linda call [OPTIONS] --client <C> --socket <PATH>...";

const CALLING: &str = "Examples, beside a server on port 7707, and one at a unix socket:\n  \
    echo 'out (\"job\", 1)' | linda call --client 1 7707\n  \
    echo 'sync in (\"job\", ?i)' | linda call --client 2 7707\n  \
    echo 'out (\"job\", 1)' | linda call --client 3 --socket store/socket";
