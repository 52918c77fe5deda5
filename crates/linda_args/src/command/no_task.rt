//! The fault, in the parser's own form, of words that the parser takes and that ask for no task.

use super::call::{CALL, call_command};
use super::serve::serve_command;
use clap::error::ErrorKind;
use clap::{ArgMatches, Command, Error};
use std::alloc::{AllocError, Global};

/// Why what the parser found is no task.
#[derive(Clone, Copy, Debug)]
pub(super) enum NoTask {
    /// Memory ran out.
    Memory,
    /// The words are refused, for this reason.
    Refused(&'static str),
}

impl From<AllocError> for NoTask {
    fn from(_error: AllocError) -> NoTask {
        NoTask::Memory
    }
}

/// An argument is missing, or a number is out of range. The parser refuses such words first.
pub(super) const UNREAD: NoTask = NoTask::Refused(
    "an argument is missing, or a number is out of range",
);

/// The fault in the parser's form, with the usage of the command that was found.
pub(super) fn error_of(alloc: Global, matches: &ArgMatches, why: NoTask) -> Error {
    match why {
        NoTask::Memory => Error::from(AllocError),
        NoTask::Refused(reason) => match refused(alloc, matches, reason) {
            Ok(error) => error,
            Err(error) => Error::from(error),
        },
    }
}

// The fault for this reason.
fn refused(alloc: Global, matches: &ArgMatches, reason: &str) -> Result<Error, AllocError> {
    let mut command = command_of(alloc, matches)?;
    command.error(ErrorKind::ValueValidation, reason)
}

// The command that was found: what is refused here is a server or a call.
fn command_of<'a>(alloc: Global, matches: &ArgMatches) -> Result<Command<'a>, AllocError> {
    match matches.subcommand_matches(CALL) {
        Some(_) => call_command(alloc),
        None => serve_command(alloc),
    }
}
