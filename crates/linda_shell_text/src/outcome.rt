//! Outcomes of a client's calls, as the lines that are printed.

ghost use Rattle.std.specs.Prelude.{◌≡◌, ◌++◌, ℕ, List, IfOk, OnOk, Some, codes};
ghost use Rattle.std.specs.Fmt.{decimal};
ghost use Rattle.std.specs.List.{flat_map};
ghost use Rattle.std.specs.String.{string_bytes};
ghost use Rattle.linda_text.specs.Written.{IsWrittenBehind, written_atom, written_field};
ghost use Rattle.linda_shell_text.specs.MessageWords.{spaced};
ghost use Rattle.linda_shell_text.specs.OutcomeLines.{
  IsRefusal,
  fault_words,
  got_words,
  line_of,
  listed,
  match_words,
  named_list,
  outcome_words,
  refusal_words,
  signs,
};

use linda_client::{ClientFault, Got, Outcome};
use linda_text::{push_atom, write_tuple};
use linda_tuple::{Atom, Tuple};
use std::alloc::{AllocError, Global};

/// The line of an outcome of this client, with its line feed.
///
/// # Errors
///
/// `AllocError` if memory runs out.
pub fn write_outcome(alloc: Global, client: u32, outcome: &Outcome) -> Result<String, AllocError>
    ensures { IfOk result (λ s. string_bytes s ≡ line_of client (outcome_words outcome.now)) }
{
    let mut line = format!(in alloc; "{client} ")?;
    push_outcome(alloc, &mut line, outcome)?;
    line.push_str("\n")?;
    Ok(line)
}

/// The line of a call that the client refuses, with its line feed; `None` for a fault that no call
/// of a script has.
///
/// # Errors
///
/// `AllocError` if memory runs out.
pub fn write_refusal(
    alloc: Global,
    client: u32,
    fault: ClientFault,
) -> Result<Option<String>, AllocError>
    ensures { IfOk result (IsRefusal client (refusal_words fault)) }
{
    match fault {
        ClientFault::Left => refused(alloc, client, "left"),
        ClientFault::Busy => refused(alloc, client, "busy"),
        ClientFault::Idle => refused(alloc, client, "idle"),
        ClientFault::TooDeep => refused(alloc, client, "too deep"),
        ClientFault::TooManyBases => refused(alloc, client, "too many bases"),
        ClientFault::Spent => refused(alloc, client, "spent"),
        ClientFault::ServersRange => Ok(None),
        ClientFault::NoServer => Ok(None),
        ClientFault::Memory => Ok(None),
    }
}

// The line of a call that is refused for this.
fn refused(alloc: Global, client: u32, words: &str) -> Result<Option<String>, AllocError>
    ensures { IfOk result (IsRefusal client (Some words.now)) }
{
    let mut line = format!(in alloc; "{client} ")?;
    push_refused(&mut line, words)?;
    line.push_str("\n")?;
    Ok(Some(line))
}

// Why a call is refused.
fn push_refused(line: &mut String, words: &str) -> Result<(), AllocError>
    ensures { OnOk result (IsWrittenBehind line.old line.new
        (codes "refused" ++ spaced words.now)) }
{
    write!(line, "refused {words}")
}

/// The line of a refusal that a server sent to this client, with its line feed.
///
/// # Errors
///
/// `AllocError` if memory runs out.
pub fn write_fault(alloc: Global, client: u32, fault: (u32, u8, u64)) -> Result<String, AllocError>
    ensures { IfOk result (λ s. string_bytes s
        ≡ line_of client (fault_words fault.0 fault.1 fault.2)) }
{
    let (server, code, detail) = fault;
    let mut line = format!(in alloc; "{client} ")?;
    push_fault(&mut line, server, code, detail)?;
    line.push_str("\n")?;
    Ok(line)
}

// What a server refused.
fn push_fault(line: &mut String, server: u32, code: u8, detail: u64) -> Result<(), AllocError>
    ensures { OnOk result (IsWrittenBehind line.old line.new (fault_words server code detail)) }
{
    write!(line, "fault {server} {code} {detail}")
}

// What came of a call.
fn push_outcome(alloc: Global, line: &mut String, outcome: &Outcome) -> Result<(), AllocError>
    ensures { OnOk result (IsWrittenBehind line.old line.new (outcome_words outcome.now)) }
{
    match outcome {
        Outcome::Stored { server, id } => write!(line, "stored {server} {id}"),
        Outcome::Synced {
            got,
            labels,
            raised,
            ..
        } => {
            push_got(alloc, line, got)?;
            push_signs(line, labels.as_slice(), raised.as_slice())
        }
        Outcome::Dropped { raised } => push_dropped(line, raised.as_slice()),
        Outcome::Left => line.push_str("left"),
    }
}

// The numbers of the nacks that a synchronization raised which was dropped.
fn push_dropped(line: &mut String, raised: &[u64]) -> Result<(), AllocError>
    ensures { OnOk result (IsWrittenBehind line.old line.new
        (named_list (codes "dropped raised") decimal raised.now)) }
{
    push_named_list(line, "dropped raised", raised)
}

// The labels of a synchronization, and the numbers of the nacks that it raised.
fn push_signs(line: &mut String, labels: &[u64], raised: &[u64]) -> Result<(), AllocError>
    ensures { OnOk result (IsWrittenBehind line.old line.new (signs labels.now raised.now)) }
{
    push_named_list(line, " labels", labels)?;
    push_named_list(line, " raised", raised)
}

// What a synchronization got.
fn push_got(alloc: Global, line: &mut String, got: &Got) -> Result<(), AllocError>
    ensures { OnOk result (IsWrittenBehind line.old line.new (got_words got.now)) }
{
    match got {
        Got::Took {
            server,
            id,
            tuple,
            bindings,
        } => push_match(
            alloc,
            line,
            "took",
            *server,
            *id,
            tuple,
            bindings.as_slice(),
        ),
        Got::Copied {
            server,
            id,
            tuple,
            bindings,
        } => push_match(
            alloc,
            line,
            "read",
            *server,
            *id,
            tuple,
            bindings.as_slice(),
        ),
        Got::Alarm => line.push_str("alarm"),
        Got::Always(value) => push_always(line, value),
    }
}

// A word, at which server and under which id a tuple was, the tuple, and what its template bound.
fn push_match(
    alloc: Global,
    line: &mut String,
    word: &str,
    server: u32,
    id: u64,
    tuple: &Tuple,
    bindings: &[Atom],
) -> Result<(), AllocError>
    ensures { OnOk result (IsWrittenBehind line.old line.new
        (match_words word.now server id tuple.now bindings.now)) }
{
    let text = write_tuple(alloc, tuple)?;
    write!(line, "{word} {server} {id} {text}")?;
    push_named_list(line, " binds", bindings)
}

// A value that is always there.
fn push_always(line: &mut String, value: &Atom) -> Result<(), AllocError>
    ensures { OnOk result (IsWrittenBehind line.old line.new
        (codes "always " ++ written_atom value.now)) }
{
    line.push_str("always ")?;
    push_atom(line, value)
}

// A name and a list.
fn push_named_list<T: Listed>(line: &mut String, name: &str, items: &[T]) -> Result<(), AllocError>
    ensures { OnOk result (IsWrittenBehind line.old line.new
        (named_list name.now T.text items.now)) }
{
    line.push_str(name)?;
    line.push_str(" [")?;
    push_items(line, items)?;
    line.push_str("]")
}

// What is in a list.
fn push_items<T: Listed>(line: &mut String, items: &[T]) -> Result<(), AllocError>
    ensures { OnOk result (IsWrittenBehind line.old line.new (listed T.text items.now)) }
{
    match items {
        [] => Ok(()),
        [one, others @ ..] => {
            one.push(line)?;
            push_others(line, others)
        }
    }
}

// What is in a list after the first.
fn push_others<T: Listed>(line: &mut String, others: &[T]) -> Result<(), AllocError>
    ensures { OnOk result (IsWrittenBehind line.old line.new
        (flat_map (written_field T.text) others.now)) }
{
    for item in others {
        line.push_str(", ")?;
        item.push(line)?;
    }
    Ok(())
}

// What may be in a list.
trait Listed {
    ghost text: { Self → List ℕ };

    fn push(&self, line: &mut String) -> Result<(), AllocError>
        ensures { OnOk result (IsWrittenBehind line.old line.new (text self.now)) };
}

impl Listed for u64 {
    ghost use Rattle.std.specs.Fmt.{decimal};

    ghost text = { decimal };

    fn push(&self, line: &mut String) -> Result<(), AllocError> {
        write!(line, "{self}")
    }
}

impl Listed for Atom {
    ghost use Rattle.linda_text.specs.Written.{written_atom};

    ghost text = { written_atom };

    fn push(&self, line: &mut String) -> Result<(), AllocError> {
        push_atom(line, self)
    }
}
