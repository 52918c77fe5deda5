//! Lines of what comes of a client's call.

use linda_client::{ClientFault, Outcome, Reaction};
use linda_shell_text::write_outcome;
use linda_test_script::{WordsFault, done, write_message};
use linda_wire::Message;
use std::alloc::{AllocError, Global};

/// Appends all that came of a call of this client, a line for each part.
pub fn push_told(
    alloc: Global,
    came: &mut String,
    client: u32,
    answer: Result<Reaction, ClientFault>,
) -> Result<(), WordsFault> {
    match answer {
        Ok(reaction) => done(push_reaction(alloc, came, client, &reaction)),
        Err(fault) => tell_refused(fault, came),
    }
}

/// Appends why a call was refused.
pub fn tell_refused(fault: ClientFault, came: &mut String) -> Result<(), WordsFault> {
    match fault {
        ClientFault::Memory => Err(WordsFault::Memory),
        fault => done(writeln!(came, "> refused {fault}")),
    }
}

fn push_reaction(
    alloc: Global,
    came: &mut String,
    client: u32,
    reaction: &Reaction,
) -> Result<(), AllocError> {
    for (server, message) in &reaction.packets {
        push_packet(alloc, came, *server, message)?;
    }
    if let Some(outcome) = &reaction.outcome {
        push_outcome(alloc, came, client, outcome)?;
    }
    if let Some((server, code, detail)) = reaction.fault {
        writeln!(came, "> fault {server} {code} {detail}")?;
    }
    Ok(())
}

fn push_packet(
    alloc: Global,
    came: &mut String,
    server: u32,
    message: &Message,
) -> Result<(), AllocError> {
    let words = write_message(alloc, message)?;
    writeln!(came, "> {server} {words}")
}

fn push_outcome(
    alloc: Global,
    came: &mut String,
    client: u32,
    outcome: &Outcome,
) -> Result<(), AllocError> {
    came.push_str("> ")?;
    if let Outcome::Synced { base, .. } = outcome {
        write!(came, "base {base}: ")?;
    }
    came.push_str(write_outcome(alloc, client, outcome)?.as_str())
}
