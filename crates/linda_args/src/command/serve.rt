//! `linda serve`: its command, and what is read of its matches.

ghost use Rattle.std.specs.Prelude.{codes, IfOk};
ghost use Rattle.clap.specs.Words.{found_of};
ghost use Rattle.linda_args.specs.Commands.{IsOf};
ghost use Rattle.linda_args.specs.Options.{options_of};
ghost use Rattle.linda_args.specs.Rules as rules;
ghost use Rattle.linda_args.specs.Rules.{IsCommand};

use super::Task;
use super::args::full_command;
use super::no_task::{NoTask, UNREAD};
use super::options::{EXPLAIN_END, explains, is_set, long_number, short_number, text_of, texts_of};
use super::socket::socket_found;
use super::status::{is_uncounted, status_found};
use super::table::{ArgForm, Bond, Entry, with_entries};
use super::version::version;
use clap::builder::ValueParser;
use clap::{ArgMatches, Command};
use linda_serve_plan::ServePlan;
use std::alloc::{AllocError, Global};

/// The name of the command.
pub(super) const SERVE: &str = "serve";

/// The command that serves a folder.
pub(super) fn serve_command<'a>(alloc: Global) -> Result<Command<'a>, AllocError>
    ensures { IfOk result (IsCommand rules.serve_command) }
{
    let about = "Serve the store in a folder on a port of this machine";
    let full = full_command(alloc, SERVE, about, SERVING, SERVES);
    with_entries(alloc, full, &ENTRIES)
}

/// Its arguments.
const ENTRIES: [Entry; 11] = [
    Entry {
        name: "port",
        value: "P",
        help: "Port to listen on, 0 for any free one; not required with --socket",
        form: ArgForm::Single,
        parser: ValueParser::Signed(0, 65535),
        bond: Bond::Unless("socket"),
    },
    Entry {
        name: "dir",
        value: "D",
        help: "Folder of the store; a new store is created if it has none",
        form: ArgForm::Single,
        parser: ValueParser::String,
        bond: Bond::Required,
    },
    Entry {
        name: "sessions",
        value: "K",
        help: "End after K connections, from 0 to 4294967295",
        form: ArgForm::Single,
        parser: ValueParser::Signed(0, 4294967295),
        bond: Bond::Optional,
    },
    Entry {
        name: "log",
        value: "",
        help: "Write a log to standard error: a line a minute, and one at each event",
        form: ArgForm::Flag,
        parser: ValueParser::Bool,
        bond: Bond::Optional,
    },
    Entry {
        name: "lease",
        value: "S",
        help: "End a client that holds a tuple in silence for S seconds, from 1 to 4294967295",
        form: ArgForm::Single,
        parser: ValueParser::Signed(1, 4294967295),
        bond: Bond::Optional,
    },
    Entry {
        name: "status",
        value: "Q",
        help: "Serve the status over HTTP on port Q, from 1 to 65535, \
            or at a unix socket, if Q has a slash",
        form: ArgForm::Single,
        parser: ValueParser::String,
        bond: Bond::Optional,
    },
    Entry {
        name: "metric",
        value: "TAG",
        help: "Count the tuples with this tag in the metrics of the status; once for each tag",
        form: ArgForm::Repeated,
        parser: ValueParser::String,
        bond: Bond::Optional,
    },
    Entry {
        name: "socket",
        value: "PATH",
        help: "Listen on a unix socket at this path, beside a port or instead of it",
        form: ArgForm::Single,
        parser: ValueParser::NonEmptyString,
        bond: Bond::Optional,
    },
    Entry {
        name: "mode",
        value: "MODE",
        help: "Mode of the socket, three octal digits: who may connect; 600 by default",
        form: ArgForm::Single,
        parser: ValueParser::String,
        bond: Bond::With("socket"),
    },
    Entry {
        name: "wait",
        value: "",
        help: "Wait while another server has the folder open, and then serve it",
        form: ArgForm::Flag,
        parser: ValueParser::Bool,
        bond: Bond::Optional,
    },
    EXPLAIN_END,
];

/// What is found below `serve`; the parser has judged the numbers.
///
/// # Errors
///
/// `NoTask` if the mode or the status is none, if tags are counted without a status, or if memory
/// runs out.
pub(super) fn serve_of(alloc: Global, below: &ArgMatches) -> Result<Task, NoTask>
    ensures { IfOk result (IsOf (codes "serve") (options_of (found_of below.now))) }
{
    let port = short_number(below, "port");
    let socket = socket_found(alloc, below)?;
    if port.is_none() && socket.is_none() {
        return Err(UNREAD);
    }
    let folder = text_of(alloc, below, "dir")?;
    let lease = long_number(below, "lease");
    if lease == Some(0) {
        return Err(UNREAD);
    }
    let status = status_found(alloc, below)?;
    let metrics = texts_of(alloc, below, "metric")?;
    if is_uncounted(&status, &metrics) {
        return Err(UNCOUNTED);
    }
    Ok(Task::Serve {
        plan: ServePlan {
            port,
            socket,
            folder,
            sessions: long_number(below, "sessions"),
            lease,
            waits: is_set(below, "wait"),
            status,
            metrics,
            version: version(),
        },
        log: is_set(below, "log"),
        explain: explains(below),
    })
}

/// Why tags are refused beside no status.
const UNCOUNTED: NoTask = NoTask::Refused(
    "the argument '--metric <TAG>' cannot be used without '--status'",
);

const SERVES: &str = "linda serve [OPTIONS] --port <P> --dir <D>\n       \
    linda serve [OPTIONS] --socket <PATH> --dir <D>";

const SERVING: &str = "Examples:\n  \
    mkdir store\n  \
    linda serve --port 7707 --dir store\n  \
    linda serve --port 7707 --dir store --log 2> log";
