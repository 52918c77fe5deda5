//! Events that are all of a text, but for blanks before and after them.
//!
//! A text is judged first, which takes no memory; then the event is made. So every fault is
//! returned before `Memory`.

ghost use Rattle.std.specs.Prelude.{◌≡◌, length, IfOk, IsOk, IsErrOf, Ok};
ghost use Rattle.linda_event.specs.Trees.{Tree, tree_of};
ghost use Rattle.linda_text.specs.declared.fault.TextFault.TheVariants.{Memory};
ghost use Rattle.linda_shell_text.specs.declared.fault.EventTextFault.TheVariants.{Text};
ghost use Rattle.linda_shell_text.specs.EventTexts.{IsEventAlone};
ghost use Rattle.linda_shell_text.specs.Reading.{only_event};
ghost use Rattle.linda_shell_text.specs.Steps.{Gives, told, settled_fault};

use crate::fault::EventTextFault;
use crate::limits::MAX_NESTED;
use crate::node::build_event;
use crate::skipping::skip_event;
use linda_event::Event;
use linda_text::{check_end, skip_blanks};
use std::alloc::Global;

/// Reads an event, as `choose [in ("a", ?i), alarm 3]`.
///
/// # Errors
///
/// The first fault from the left: one of texts, or `TooManyNested` if a node would be under 1,000
/// others; `Text(Memory)` if the text is an event and there is no memory for it.
pub fn read_event(alloc: Global, text: &str) -> Result<Event, EventTextFault>
    // The event that is read is all there is, but for blanks.
    ensures found { IfOk result (λ event. IsEventAlone text.now (tree_of event)) }
    // If an event is all there is, it is read, unless memory runs out: so a text is refused only if
    // it is no event.
    ensures only { (event : Tree) → IsEventAlone text.now event → Gives tree_of result (Ok event) }
    // Which fault it is, and where.
    ensures exact { Gives tree_of result (told (length text.now) (only_event text.now)) }
    // Memory runs out only if an event is all there is.
    ensures memory { IsErrOf result (Text Memory) → (event : Tree) × IsEventAlone text.now event }
{
    match only_event(alloc, text) {
        Ok(event) => Ok(event),
        Err(fault) => Err(fault.placed(text.len())),
    }
}

#[tactic(auto, unfolding(crate::specs::Reading::only_event))]
fn only_event(alloc: Global, text: &str) -> Result<Event, EventTextFault>
    ensures value { Gives tree_of result (only_event text.now) }
    ensures memory { IsErrOf result (Text Memory) → IsOk (only_event text.now) }
{
    let bytes = skip_blanks(text.as_bytes());
    check_end(skip_event(bytes, MAX_NESTED)?)?;
    let (event, _rest) = build_event(alloc, bytes, MAX_NESTED)?;
    Ok(event)
}

impl EventTextFault {
    // The fault given by its offset, if it counts the bytes left of so many.
    fn placed(self, len: usize) -> EventTextFault
        ensures value { result ≡ settled_fault len self }
        ensures memory { result ≡ Text Memory → self ≡ Text Memory }
    {
        match self {
            EventTextFault::Text(fault) => EventTextFault::Text(fault.placed(len)),
            EventTextFault::TooManyNested => EventTextFault::TooManyNested,
        }
    }
}
