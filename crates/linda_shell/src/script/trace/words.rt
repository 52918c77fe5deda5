//! Deeds, in the words of a trace.

ghost use Rattle.std.specs.Prelude.{◌≡◌, IfOk};
ghost use Rattle.std.specs.String.{string_bytes};
ghost use Rattle.linda_shell.specs.TraceWords.{deed_words};

use linda_shell_text::words_of_entry;
use linda_store_state::Deed;
use std::alloc::{AllocError, Global};

/// A deed in words, as `take 8 1 1`.
///
/// # Errors
///
/// `AllocError` if memory runs out.
pub(super) fn write_deed(alloc: Global, deed: &Deed) -> Result<String, AllocError>
    ensures { IfOk result (λ s. string_bytes s ≡ deed_words deed.now) }
{
    match deed {
        Deed::Out { client, n, tuple } => {
            words_of_entry(alloc, "out", u64::from(*client), *n, tuple)
        }
        Deed::Take { client, n, id } => format!(in alloc; "take {client} {n} {id}"),
        Deed::Pass { client, n, id } => format!(in alloc; "pass {client} {n} {id}"),
        Deed::Leave { client, n } => format!(in alloc; "leave {client} {n}"),
    }
}
