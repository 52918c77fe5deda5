//! Writing a state as a snapshot in the form of new banks, and how many bytes that takes.

ghost use Rattle.std.specs.Prelude.{◌≡◌, ◌++◌, ◌<◌, ◌+◌, ◌^◌, length, OnOk, IfSome};
ghost use Rattle.std.specs.Prelude.{IfNone};
ghost use Rattle.std.specs.FinMap.{entries};
ghost use Rattle.linda_codec.specs.Formats.{short_number};
ghost use Rattle.linda_codec.specs.declared.limits.TheConstants.{SHORT_NUMBER_BYTES};
ghost use Rattle.linda_store_state.specs.State.{IsState};
ghost use Rattle.linda_store_state.specs.DeedFormat.{written};
ghost use Rattle.linda_snap.specs.Snapshot as format;
ghost use Rattle.linda_snap.specs.Snapshot.{clients_bytes, listed, spell_state, FitsState};

use crate::cursor::{kept_after, tuple_from};
use crate::entry::{kept_len, push_kept, push_placed};
use linda_bag::Bag;
use linda_book::Book;
use linda_codec::{NUMBER_BYTES, SHORT_NUMBER_BYTES};
use linda_store_state::State;
use std::alloc::AllocError;

/// The bytes of a snapshot of a state that keeps nothing: the next id, and the counts of tuples and
/// of clients.
pub const EMPTY_STATE_BYTES: usize = NUMBER_BYTES + SHORT_NUMBER_BYTES + SHORT_NUMBER_BYTES;

/// Appends the spelling of the state in the form of new banks. If memory runs out, a part of it may
/// follow the old bytes.
///
/// # Errors
///
/// `AllocError` if memory runs out.
pub fn put_state<B: Bag>(out: &mut Vec<u8>, state: &State<B>) -> Result<(), AllocError>
    requires ranges { IsState state.now }
    requires short { length (spell_state written state.now) < 2 ^ 32 }
    ensures ok { OnOk result (out.new.items ≡ out.old.items ++ spell_state written state.now) }
    // It had a spelling, as every state has that is in its ranges and so short.
    ensures fits { OnOk result (FitsState written state.now) }
{
    out.extend_from_slice(&state.next.to_be_bytes())?;
    push_tuples(out, state)?;
    push_book(out, &state.book)?;
    Ok(())
}

// Appends the count of the tuples, and each with its id; likewise.
fn push_tuples<B: Bag>(out: &mut Vec<u8>, state: &State<B>) -> Result<(), AllocError>
    requires ranges { IsState state.now }
    requires short { length (entries state.now.bag) < 2 ^ 32 }
    ensures ok { OnOk result (out.new.items
        ≡ out.old.items ++ (listed (format.placed written)).spell (entries state.now.bag)) }
    ensures fits { OnOk result ((listed (format.placed written)).Fits (entries state.now.bag)) }
{
    push_count(out, state.bag.len())?;
    let mut from = 0;
    while let Some((id, tuple)) = tuple_from(state, from) {
        push_placed(out, id, tuple)?;
        from = id + 1;
    }
    Ok(())
}

// Appends the count of the clients, and each with its number and reply; likewise.
fn push_book(out: &mut Vec<u8>, book: &Book) -> Result<(), AllocError>
    requires { length (entries book.now) < 2 ^ 32 }
    ensures ok { OnOk result (out.new.items
        ≡ out.old.items ++ (listed (format.kept written)).spell (entries book.now)) }
    ensures fits { OnOk result ((listed (format.kept written)).Fits (entries book.now)) }
{
    push_count(out, book.len())?;
    let mut last = None;
    while let Some((client, entry)) = kept_after(book, last) {
        push_kept(out, client, entry.0, entry.1)?;
        last = Some(client);
    }
    Ok(())
}

// Appends a count.
pub(crate) fn push_count(out: &mut Vec<u8>, count: usize) -> Result<(), AllocError>
    requires { count < 2 ^ 32 }
    ensures { OnOk result (out.new.items ≡ out.old.items ++ short_number.spell count) }
{
    let count = count as u32;
    out.extend_from_slice(&count.to_be_bytes())
}

/// What is left of so many bytes once the state is spelled in them; `None` if it spells more. No
/// memory is taken. It walks over the clients, if it is not given how many bytes they spell, and
/// not over the tuples: the bag keeps their bytes.
pub(crate) fn room_after<B: Bag>(
    state: &State<B>,
    clients: Option<usize>,
    room: usize,
) -> Option<usize>
    requires ranges { IsState state.now }
    requires clients { IfSome clients (λ bytes. bytes ≡ clients_bytes state.now.book) }
    ensures some { IfSome result (λ left. left + length (spell_state written state.now) ≡ room) }
    ensures none { IfNone result (room < length (spell_state written state.now)) }
{
    let room = room.checked_sub(NUMBER_BYTES)?;
    let room = room_after_tuples(state, room)?;
    match clients {
        None => room_after_book(&state.book, room),
        Some(bytes) => room_after_bytes(room, bytes),
    }
}

// What is left of `room` bytes after a count and `bytes` bytes.
fn room_after_bytes(room: usize, bytes: usize) -> Option<usize>
    ensures some { IfSome result (λ left. left + (SHORT_NUMBER_BYTES + bytes) ≡ room) }
    ensures none { IfNone result (room < SHORT_NUMBER_BYTES + bytes) }
{
    let left = room.checked_sub(SHORT_NUMBER_BYTES)?;
    left.checked_sub(bytes)
}

// The same of the tuples with their count.
#[tactic(auto, using(crate::proofs::PuttingLaws::all_placed))]
fn room_after_tuples<B: Bag>(state: &State<B>, room: usize) -> Option<usize>
    requires { IsState state.now }
    ensures some { IfSome result (λ left.
        left + length ((listed (format.placed written)).spell (entries state.now.bag)) ≡ room) }
    ensures none { IfNone result (room
        < length ((listed (format.placed written)).spell (entries state.now.bag))) }
{
    let left = room.checked_sub(SHORT_NUMBER_BYTES)?;
    let ids = state.bag.len().checked_mul(NUMBER_BYTES)?;
    let left = left.checked_sub(ids)?;
    state.bag.room_after(left)
}

// The same of the book.
fn room_after_book(book: &Book, room: usize) -> Option<usize>
    ensures some { IfSome result (λ left.
        left + length ((listed (format.kept written)).spell (entries book.now)) ≡ room) }
    ensures none { IfNone result (room
        < length ((listed (format.kept written)).spell (entries book.now))) }
{
    let mut left = room.checked_sub(SHORT_NUMBER_BYTES)?;
    let mut last = None;
    while let Some((client, entry)) = kept_after(book, last) {
        left = left.checked_sub(kept_len(entry.1))?;
        last = Some(client);
    }
    Some(left)
}
