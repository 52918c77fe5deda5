//! Commands, as the parser takes them.

ghost use Rattle.std.specs.Prelude.{◌≡◌, IfOk};
ghost use Rattle.clap.specs.Words.{App, app_of, new_app, with_subcommand};
ghost use Rattle.linda_args.specs.Rules as rules;
ghost use Rattle.linda_args.specs.Rules.{IsCommand};

use clap::Command;
use std::alloc::{AllocError, Global};

/// The program's command with none below it.
pub(super) fn bare_linda<'a>(alloc: Global) -> Command<'a>
    ensures { app_of result ≡ rules.bare_linda }
{
    bare_command(alloc, "linda", "A tuple space", STARTING).subcommand_required(true)
}

/// A command of this name with no argument.
pub(super) fn bare_command<'a>(
    alloc: Global,
    name: &'a str,
    about: &'a str,
    after: &'a str,
) -> Command<'a>
    ensures { IsCommand (new_app name.entry.now) result }
{
    Command::new(alloc, name).about(about).after_help(after)
}

/// A bare command whose usage has these forms.
pub(super) fn full_command<'a>(
    alloc: Global,
    name: &'a str,
    about: &'a str,
    after: &'a str,
    forms: &'a str,
) -> Command<'a>
    ensures { IsCommand (new_app name.entry.now) result }
{
    bare_command(alloc, name, about, after).override_usage(forms)
}

/// The command with one more below it, if there was memory for both.
pub(super) fn with_command<'a>(
    command: Result<Command<'a>, AllocError>,
    below: Result<Command<'a>, AllocError>,
) -> Result<Command<'a>, AllocError>
    ensures { (old app : App) → IfOk command.entry (λ c. app_of c ≡ old)
        → IfOk below.entry (IsCommand app)
        → IfOk result (λ c. app_of c ≡ with_subcommand old app.top) }
{
    command?.subcommand(below?)
}

const STARTING: &str = "Examples:\n  \
    mkdir store\n  \
    linda serve --port 7707 --dir store &\n  \
    echo 'out (\"job\", 1)' | linda call --client 1 7707\n\n\
    linda --version, linda -V and linda version print the version, and the forms of banks\n\
    and frames.";
