//! The next bank of a server, while it is written in steps on the disk that is not in use.
//!
//! What the server does meanwhile is noted here: before messages are served, a copy of each tuple
//! that they may take is put aside; and then their deeds are noted. If memory runs out, or there is
//! no room for them in it, it is given up, and in no other case: the bank in use has everything.

ghost use Rattle.std.specs.Prelude.{◌≡◌, ◌≤◌, ℕ, List, length, true, None, OnOk, IfOk, IfErr};
ghost use Rattle.std.specs.Prelude.{IfSome, IfNone};
ghost use Rattle.std.specs.Option.{is_some};
ghost use Rattle.linda_wire.specs.declared.message.Message as messages;
ghost use Rattle.linda_store_state.specs.State as states;
ghost use Rattle.linda_store_state.specs.State.{IsState};
ghost use Rattle.linda_store_state.specs.Deed.{is_taken};
ghost use Rattle.linda_store_step.specs.declared.size.TheConstants.{MAX_GROUP};
ghost use Rattle.linda_snap.specs.Replay.{GoesOn};
ghost use Rattle.linda_snap.specs.BankWriter.{Follows, HasNoRoomFor};
ghost use Rattle.linda_server.specs.Next.{IsSafeIn, IsSpared, AreSpared, KeepsUp};
ghost use Rattle.linda_server.specs.Messages.{messages_of};

use crate::serving::Messages;
use linda_bag::IndexBag;
use linda_snap::BankWriter;
use linda_store_state::{Deed, State};
use linda_wire::Message;
use std::alloc::{AllocError, Global};

/// The next bank, and the offset after what is written of it.
#[derive(Drop)]
pub(crate) struct NextBank {
    pub(crate) writer: BankWriter,
    pub(crate) at: usize,
}

/// The next bank, if memory did not run out for it.
pub(crate) fn unless_spent(next: Result<Option<NextBank>, AllocError>) -> Option<NextBank>
    ensures { IfOk next (λ o. result ≡ o) × IfErr next (λ e. result ≡ None) }
{
    match next {
        Ok(next) => next,
        Err(_) => None,
    }
}

/// Puts aside a copy of each tuple that a message may take. If there is a next bank, it
/// is handed back.
///
/// # Errors
///
/// `AllocError` if memory runs out: it is given up.
pub(crate) fn with_taken_copied(
    next: Option<NextBank>,
    alloc: Global,
    state: &State<IndexBag>,
    batch: Messages<'_>,
) -> Result<Option<NextBank>, AllocError>
    ensures follows { IfOk result (λ o. IfSome o (λ n. KeepsUp next state.now n state.now)) }
    ensures safe { IfOk result (λ o. IfSome o (λ n.
        AreSpared n.writer state.now.bag (messages_of batch.entry))) }
    ensures kept { IfOk result (λ o. is_some o ≡ is_some next) }
{
    match next {
        None => Ok(None),
        Some(next) => {
            let NextBank { mut writer, at } = next;
            copy_taken(&mut writer, alloc, state, batch)?;
            Ok(Some(NextBank { writer, at }))
        }
    }
}

// The same of the bank itself.
fn copy_taken(
    writer: &mut BankWriter,
    alloc: Global,
    state: &State<IndexBag>,
    batch: Messages<'_>,
) -> Result<(), AllocError>
    ensures follows { (front : List ℕ) → Follows writer.old front state.now
        → Follows writer.new front state.now }
    ensures safe { OnOk result
        (AreSpared writer.new state.now.bag (messages_of batch.entry)) }
    ensures same { (writer.new.generation ≡ writer.old.generation)
        × (writer.new.limit ≡ writer.old.limit) }
{
    match batch {
        Messages::One(client, message) => {
            let _ = client;
            copy_taken_of(writer, alloc, state, message)
        }
        Messages::Many(messages) => copy_taken_of_each(writer, alloc, state, messages),
    }
}

// The same for each of several messages.
fn copy_taken_of_each(
    writer: &mut BankWriter,
    alloc: Global,
    state: &State<IndexBag>,
    messages: &[(u32, Message)],
) -> Result<(), AllocError>
    ensures follows { (front : List ℕ) → Follows writer.old front state.now
        → Follows writer.new front state.now }
    ensures safe { OnOk result (AreSpared writer.new state.now.bag messages.now) }
    ensures same { (writer.new.generation ≡ writer.old.generation)
        × (writer.new.limit ≡ writer.old.limit) }
{
    for message in messages {
        copy_taken_of(writer, alloc, state, &message.1)?;
    }
    Ok(())
}

// The same for one message.
fn copy_taken_of(
    writer: &mut BankWriter,
    alloc: Global,
    state: &State<IndexBag>,
    message: &Message,
) -> Result<(), AllocError>
    ensures follows { (front : List ℕ) → Follows writer.old front state.now
        → Follows writer.new front state.now }
    ensures safe { OnOk result (IsSpared writer.new state.now.bag message.now) }
    ensures same { (writer.new.generation ≡ writer.old.generation)
        × (writer.new.limit ≡ writer.old.limit) }
    ensures others { (ms : List (ℕ × messages.Message))
        → AreSpared writer.old state.now.bag ms → AreSpared writer.new state.now.bag ms }
{
    match message {
        Message::Accept { id, .. } => writer.put_aside(alloc, state, *id),
        Message::Hello { .. }
        | Message::Out { .. }
        | Message::Ask { .. }
        | Message::Cancel { .. }
        | Message::Leave { .. } => Ok(()),
    }
}

/// Notes what was done in one call of the server. If there is a next bank, it is handed back, but
/// for one that has no room for this: that one is given up.
///
/// # Errors
///
/// `AllocError` if memory runs out: it is given up.
pub(crate) fn with_deeds_logged(
    next: Option<NextBank>,
    alloc: Global,
    deeds: &[Deed],
) -> Result<Option<NextBank>, AllocError>
    requires { length deeds.now ≤ MAX_GROUP }
    ensures follows { (st new : states.State) → IsState st → GoesOn st deeds.now new
        → ((id : ℕ) → is_taken id deeds.now ≡ true → IsSafeIn next st.bag id)
        → IfOk result (λ o. IfSome o (λ n. KeepsUp next st n new)) }
    ensures kept { IfOk result (λ o. IfNone o
        (IfSome next (λ n. HasNoRoomFor n.writer deeds.now))) }
{
    match next {
        None => Ok(None),
        Some(next) => {
            let NextBank { mut writer, at } = next;
            match writer.buffer_deeds(alloc, deeds) {
                Ok(true) => Ok(Some(NextBank { writer, at })),
                Ok(false) => Ok(None),
                Err(fault) => Err(fault),
            }
        }
    }
}
