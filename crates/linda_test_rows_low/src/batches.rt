//! Messages of one call.

ghost use Rattle.std.specs.Prelude.{IfOk, ◌≤◌, length};
ghost use Rattle.linda_store_step.specs.declared.size.TheConstants.{MAX_BATCH};

use linda_store_step::MAX_BATCH;
use linda_test_script::{WordsFault, read_batch};
use linda_wire::Message;
use std::alloc::Global;

/// The messages that the words say, which are few enough for one call.
pub(crate) fn batch(alloc: Global, words: &str) -> Result<Vec<(u32, Message)>, WordsFault>
    ensures { IfOk result (λ messages. length messages.items ≤ MAX_BATCH) }
{
    few(read_batch(alloc, words)?)
}

/// The same messages, if they are few enough for one call.
pub(crate) fn few(messages: Vec<(u32, Message)>) -> Result<Vec<(u32, Message)>, WordsFault>
    ensures { IfOk result (λ messages. length messages.items ≤ MAX_BATCH) }
{
    if messages.len() > MAX_BATCH {
        return Err(WordsFault::Unknown);
    }
    Ok(messages)
}
