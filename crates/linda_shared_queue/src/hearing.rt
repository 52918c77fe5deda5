//! Hearing of a message's answer by its session.

ghost use Rattle.std.specs.Prelude.{◌≡◌, ◌<◌, Ok, IfOk, IfErr, OnOk, IfSome};
ghost use Rattle.linda_store_step.specs.Reported.{IsDeedOf};
ghost use Rattle.linda_shared_accounts.specs.Account.{account_of};
ghost use Rattle.linda_shared_accounts.specs.Ring.{IsNext, with_receipt};
ghost use Rattle.linda_shared_accounts.specs.Receipts.{number_in};
ghost use Rattle.linda_shared_queue.specs.Hearing as spec;
ghost use Rattle.linda_shared_queue.specs.Hearing.{IsHeard, IsAnswered, HearsDeed};
ghost use Rattle.linda_shared_queue.specs.Seat.{with_told, back, IsLeft, IsLost, IsToldOf};

use crate::answer::Answer;
use linda_shared_accounts::{
    Account, Ack, Effect, Receipt, SharedFault, SharedReceipt, is_deed_of,
};
use linda_wire::Message;
use std::sync::ledger::Ledger;

/// The account hears the answer to its message. A receipt joins its ring, and comes out as a copy.
///
/// # Errors
///
/// `Receipt`: a deed was reported to the account that the message does not ask for, or one that is
/// not the next of its ring. `Down`: the copy was lost. Else the fault of the server, and nothing
/// was done.
pub fn hear<A: Drop, L: Ledger>(
    account: &mut Account<L>,
    message: &Message,
    answer: Answer<A, L>,
) -> Result<Option<Receipt>, SharedFault>
    requires { 0 < account.old.asked }
    ensures ok { IfOk result (λ r. account.new ≡ with_told (back account.old) r) }
    ensures err { IfErr result (λ fault. IsLeft message.now (back account.old) fault account.new) }
    ensures deed { IfOk result (IsToldOf account.old.client message.now) }
    ensures next { IfOk result (λ o. IfSome o (IsNext account.old.client account.old.ring)) }
    // The answer says what comes of it: `Receipt` only of a deed that is not due, and `Down` only
    // if the server says so, or the copy was lost.
    ensures heard { IsHeard account.old message.now answer.answered.told answer.copy result }
{
    let (answered, copy) = answer.into_parts();
    let (_, told) = account.hear(answered);
    match told {
        Effect::Deed(receipt) => {
            note(account, message, receipt)?;
            match copy {
                Some(Effect::Deed(copy)) => Ok(Some(copy)),
                Some(Effect::NoDeed) => unreachable!(),
                Some(Effect::Failed(_)) => unreachable!(),
                None => Err(SharedFault::Down),
            }
        }
        Effect::NoDeed => match copy {
            Some(_) => Ok(None),
            None => Err(SharedFault::Down),
        },
        Effect::Failed(fault) => Err(plain(fault)),
    }
}

/// The account hears the answer to its message, of which there is no copy. A receipt joins its
/// ring.
///
/// # Errors
///
/// `Receipt`: a deed was reported to the account that the message does not ask for, or one that is
/// not the next of its ring. Else the fault of the server, and nothing was done.
pub fn hear_answer<A: Drop, L: Ledger>(
    account: &mut Account<L>,
    message: &Message,
    answered: Ack<A, L>,
) -> Result<(), SharedFault>
    requires { 0 < account.old.asked }
    // Nothing was reported to it, or a deed that the message asks for, whose receipt joined the
    // ring after the others;
    ensures ok { OnOk result (IsLost message.now (back account.old) account.new) }
    // else it is as before, but for `Receipt`.
    ensures err { IfErr result (λ fault. IsLeft message.now (back account.old) fault account.new) }
    // The answer says what comes of it: `Receipt` only of a deed that is not due, and `Down` only
    // if the server says so.
    ensures heard { IsAnswered account.old message.now answered.told result }
{
    let (_, told) = account.hear(answered);
    match told {
        Effect::Deed(receipt) => note(account, message, receipt),
        Effect::NoDeed => Ok(()),
        Effect::Failed(fault) => Err(plain(fault)),
    }
}

// Notes the receipt, if its deed is one that the message asks for.
fn note<L: Ledger>(
    account: &mut Account<L>,
    message: &Message,
    receipt: SharedReceipt,
) -> Result<(), SharedFault>
    ensures ok { OnOk result (account.new
        ≡ account_of account.old.client account.old.deeds account.old.asked
        (with_receipt account.old.ring receipt)) }
    ensures err { IfErr result (λ fault. (account.new ≡ account.old)
        × (fault ≡ SharedFault.Receipt account.old.client (number_in receipt))) }
    ensures deed { OnOk result (IsDeedOf account.old.client message.now receipt.deed) }
    ensures next { OnOk result (IsNext account.old.client account.old.ring receipt) }
    ensures heard { HearsDeed account.old message.now receipt (Ok tt) result }
{
    let client = account.client();
    let number = receipt.number();
    if !is_deed_of(client, message, &receipt.get().deed) {
        return Err(SharedFault::Receipt { client, number });
    }
    if !account.note(receipt) {
        return Err(SharedFault::Receipt { client, number });
    }
    Ok(())
}

// A fault of the whole batch: never that of one receipt.
fn plain(fault: SharedFault) -> SharedFault
    ensures { result ≡ spec.plain fault }
{
    match fault {
        SharedFault::Receipt { .. } => SharedFault::Down,
        other => other,
    }
}
