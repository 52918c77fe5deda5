//! Arguments of commands, as entries of a table: one entry for each argument.

ghost use Rattle.std.specs.Prelude.{◌≡◌, false, fold, IfOk};
ghost use Rattle.clap.specs.Words.{App, rule_of, with_rule};
ghost use Rattle.linda_args.specs.Entries as spec;
ghost use Rattle.linda_args.specs.Entries.{rule_in, rules_in};
ghost use Rattle.linda_args.specs.Rules.{IsCommand};

use clap::builder::ValueParser;
use clap::{Arg, ArgAction, Command};
use linda_client::MAX_SERVERS;
use std::alloc::{AllocError, Global};

/// An argument of a command.
#[derive(Clone, Copy)]
pub(super) struct Entry {
    /// The argument's name. If it is an option, two hyphens come before the name.
    pub(super) name: &'static str,
    /// What help calls the value; empty if the argument takes none.
    pub(super) value: &'static str,
    pub(super) help: &'static str,
    pub(super) form: ArgForm,
    /// What the value has to be.
    pub(super) parser: ValueParser<'static>,
    pub(super) bond: Bond,
}

/// How an argument is written.
#[derive(Clone, Copy)]
pub(super) enum ArgForm {
    /// An option without a value.
    Flag,
    /// An option with a value.
    Single,
    /// An option with a value, once or more often.
    Repeated,
    /// A word.
    Word,
    /// Words, from one to as many as servers there may be.
    Words,
}

/// Whether an argument has to be there, and with which others.
#[derive(Clone, Copy)]
pub(super) enum Bond {
    /// The argument may be there.
    Optional,
    /// The argument must be there.
    Required,
    /// The argument must be there unless the argument of this name is.
    Unless(&'static str),
    /// The argument may be there if the argument of this name is.
    With(&'static str),
    /// The argument may be there if the argument of this name is not.
    Without(&'static str),
}

/// The command with an argument for each entry, in order, if there was memory for all of them.
pub(super) fn with_entries<'a>(
    alloc: Global,
    command: Command<'a>,
    entries: &[Entry],
) -> Result<Command<'a>, AllocError>
    ensures { (app : App) → IsCommand app command.entry
        → IfOk result (IsCommand (fold with_rule app (rules_in entries.now))) }
{
    let mut grown = command;
    for entry in entries {
        grown = grown.arg(arg_of(alloc, entry)?)?;
    }
    Ok(grown)
}

// The argument of an entry.
fn arg_of<'a>(alloc: Global, entry: &Entry) -> Result<Arg<'a>, AllocError>
    ensures rule { IfOk result (λ r. rule_of r ≡ rule_in entry.now) }
    ensures own { IfOk result (λ r. r.global ≡ false) }
{
    let arg = Arg::new(alloc, entry.name)
        .help(entry.help)
        .value_parser(entry.parser);
    bound(formed(arg, entry), entry.bond)
}

// The argument in the form of its entry.
fn formed<'a>(arg: Arg<'a>, entry: &Entry) -> Arg<'a>
    ensures rule { rule_of result
        ≡ spec.formed entry.now.form entry.now.name.now (rule_of arg.entry) }
    ensures own { result.global ≡ arg.entry.global }
{
    match entry.form {
        ArgForm::Flag => arg.long(entry.name).action(ArgAction::SetTrue),
        ArgForm::Single => arg
            .long(entry.name)
            .value_name(entry.value)
            .action(ArgAction::Set),
        ArgForm::Repeated => arg
            .long(entry.name)
            .value_name(entry.value)
            .action(ArgAction::Append),
        ArgForm::Word => arg.value_name(entry.value).action(ArgAction::Set),
        ArgForm::Words => arg
            .value_name(entry.value)
            .action(ArgAction::Set)
            .num_args(1..=MAX_SERVERS as usize),
    }
}

// The argument with its bond to others.
fn bound<'a>(arg: Arg<'a>, bond: Bond) -> Result<Arg<'a>, AllocError>
    ensures rule { IfOk result (λ r. rule_of r ≡ spec.bound bond (rule_of arg.entry)) }
    ensures own { IfOk result (λ r. r.global ≡ arg.entry.global) }
{
    match bond {
        Bond::Optional => Ok(arg),
        Bond::Required => Ok(arg.required(true)),
        Bond::Unless(other) => arg.required_unless_present(other),
        Bond::With(other) => arg.requires_arg(other),
        Bond::Without(other) => arg.conflicts_with(other),
    }
}
