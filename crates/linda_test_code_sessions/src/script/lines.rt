//! Lines that say what came of a call.

use linda_shared::{Progress, Receipt, SharedFault};
use linda_test_script::{WordsFault, write_reply};
use linda_wire::Reply;
use std::alloc::{AllocError, Global};

/// What was written, or the fault that memory ran out.
pub(super) fn written(done: Result<(), AllocError>) -> Result<(), WordsFault> {
    Ok(done?)
}

/// How a snapshot in steps went on.
pub(super) fn word_of(progress: Progress) -> &'static str {
    match progress {
        Progress::Idle => "> idle\n",
        Progress::Going => "> going\n",
        Progress::Done => "> done\n",
    }
}

/// Writes why a call failed.
pub(super) fn tell_fault(fault: SharedFault, came: &mut String) -> Result<(), WordsFault> {
    written(writeln!(came, "> {fault}"))
}

/// Writes replies to a client.
pub(super) fn tell_all(
    alloc: Global,
    client: u32,
    replies: &[Reply],
    came: &mut String,
) -> Result<(), AllocError> {
    for reply in replies {
        let words = write_reply(alloc, reply)?;
        writeln!(came, "> {client} {words}")?;
    }
    Ok(())
}

/// Writes a receipt, if there is one.
pub(super) fn tell_receipt(receipt: &Option<Receipt>, came: &mut String) -> Result<(), WordsFault> {
    match receipt {
        Some(receipt) => {
            written(writeln!(came, "> {} did {}", receipt.client(), receipt.number()))
        }
        None => Ok(()),
    }
}

/// Writes the receipts that there are.
pub(super) fn tell_receipts(
    receipts: &[Option<Receipt>],
    came: &mut String,
) -> Result<(), WordsFault> {
    for receipt in receipts {
        tell_receipt(receipt, came)?;
    }
    Ok(())
}
