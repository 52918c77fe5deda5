//! Reading a state from a snapshot.

ghost use Rattle.std.specs.Prelude.{◌≡◌, ◌≢◌, ◌<◌, ◌≤◌, true, false, IfOk, IfErr};
ghost use Rattle.std.specs.FinMap.{entries};
ghost use Rattle.linda_wire.specs.declared.limits.TheConstants.{NUMBER_LIMIT};
ghost use Rattle.linda_store_state.specs.State as states;
ghost use Rattle.linda_snap.specs.declared.reading.SnapshotFault.TheVariants.{Memory};
ghost use Rattle.linda_snap.specs.Snapshot as format;
ghost use Rattle.linda_snap.specs.Snapshot.{IsSnapshot};
ghost use Rattle.linda_snap.specs.Reading.{IsRun, IsNoRun, IsPlacedBelow, IsNumbered};
ghost use Rattle.linda_snap.specs.Reading.{IsListed, IsNotListed, IsNoSnapshot, ANY_COUNT};
ghost use Rattle.linda_snap.specs.Reading.{fault_of_read};
ghost use Rattle.linda_wire.specs.declared.limits.TheConstants.{MAX_CLIENTS};

use crate::entry::{read_kept, read_placed};
use linda_bag::Bag;
use linda_book::Book;
use linda_codec::{ReadFault, read_u32, read_u64};
use linda_store_state::{NUMBER_LIMIT, State};
use linda_tuple::Form;
use linda_wire::MAX_CLIENTS;
use std::alloc::{AllocError, AllocFailed, Global};
use thiserror::Error;

/// Why no state was read.
#[derive(Clone, Copy, Debug, PartialEq, Eq, Error)]
pub enum SnapshotFault {
    /// The bytes are no state's spelling: cut short, or longer, or of another form, or out of a
    /// range.
    #[error("no snapshot")]
    NoSnapshot,
    /// No memory for the state.
    #[error("out of memory")]
    Memory,
}

impl From<AllocError> for SnapshotFault {
    ghost from_gives = { λ _ fault. fault ≡ Memory };

    fn from(_error: AllocError) -> SnapshotFault {
        SnapshotFault::Memory
    }
}

impl From<ReadFault> for SnapshotFault {
    ghost from_gives = { λ fault told. told ≡ fault_of_read fault };

    fn from(fault: ReadFault) -> SnapshotFault {
        match fault {
            ReadFault::Memory => SnapshotFault::Memory,
            ReadFault::Short => SnapshotFault::NoSnapshot,
            ReadFault::BadKind(_) => SnapshotFault::NoSnapshot,
            ReadFault::BadBool(_) => SnapshotFault::NoSnapshot,
            ReadFault::BadText(_) => SnapshotFault::NoSnapshot,
            ReadFault::TooMany(_) => SnapshotFault::NoSnapshot,
            ReadFault::LongText(_) => SnapshotFault::NoSnapshot,
        }
    }
}

/// Reads the state that all of the bytes spell in the form.
///
/// # Errors
///
/// `NoSnapshot` if they spell none that is in its ranges; `Memory`.
pub fn get_state<B: Bag>(alloc: Global, form: Form, bytes: &[u8]) -> Result<State<B>, SnapshotFault>
    // What is read is spelled so, and in its ranges.
    ensures found { IfOk result (λ st. IsSnapshot form bytes.now st) }
    // A state that is spelled so is read, or memory runs out.
    ensures only { (st : states.State) → IsSnapshot form bytes.now st
        → IfOk result (λ s. s ≡ st) × IfErr result (λ f. f ≡ SnapshotFault.Memory) }
    // It is refused only if the bytes spell no state.
    ensures fault { IfErr result (λ f. f ≢ SnapshotFault.Memory → IsNoSnapshot form bytes.now) }
{
    read_state(alloc, form, bytes)
}

// Reads the state. The clause on other states follows from these.
fn read_state<B: Bag>(alloc: Global, form: Form, bytes: &[u8]) -> Result<State<B>, SnapshotFault>
    ensures found { IfOk result (λ st. IsSnapshot form bytes.now st) }
    ensures fault { IfErr result (λ f. f ≢ SnapshotFault.Memory → IsNoSnapshot form bytes.now) }
{
    let (next, rest) = read_u64(bytes)?;
    if next == 0 || next > NUMBER_LIMIT {
        return Err(SnapshotFault::NoSnapshot);
    }
    let (bag, rest) = listed_tuples(alloc, form, rest, next)?;
    let (book, rest) = listed_clients(alloc, form, rest)?;
    if !rest.is_empty() {
        return Err(SnapshotFault::NoSnapshot);
    }
    Ok(State { bag, book, next })
}

// Reads the count of the tuples, and the tuples.
fn listed_tuples<B: Bag>(
    alloc: Global,
    form: Form,
    bytes: &[u8],
    next: u64,
) -> Result<(B, &[u8]), SnapshotFault>
    ensures found { IfOk result (λ x.
        IsListed (format.placed form) (IsPlacedBelow next) ANY_COUNT bytes.now
        (entries (B.contents x.0)) x.1.now) }
    ensures fault { IfErr result (λ f. f ≢ SnapshotFault.Memory
        → IsNotListed (format.placed form) (IsPlacedBelow next) ANY_COUNT bytes.now) }
{
    let (count, rest) = read_u32(bytes)?;
    let (bag, rest) = read_tuples(alloc, form, rest, count, next)?;
    Ok((bag, rest))
}

// Reads the count of the clients, and the clients with what is kept for them.
fn listed_clients(alloc: Global, form: Form, bytes: &[u8]) -> Result<(Book, &[u8]), SnapshotFault>
    ensures found { IfOk result (λ x. IsListed (format.kept form) IsNumbered MAX_CLIENTS bytes.now
        (entries x.0) x.1.now) }
    ensures fault { IfErr result (λ f. f ≢ SnapshotFault.Memory
        → IsNotListed (format.kept form) IsNumbered MAX_CLIENTS bytes.now) }
{
    let (count, rest) = read_u32(bytes)?;
    if count as usize > MAX_CLIENTS {
        return Err(SnapshotFault::NoSnapshot);
    }
    let (book, rest) = read_clients(alloc, form, rest, count)?;
    Ok((book, rest))
}

// Reads so many tuples with their ids, which rise and are below the next one.
fn read_tuples<B: Bag>(
    alloc: Global,
    form: Form,
    bytes: &[u8],
    count: u32,
    next: u64,
) -> Result<(B, &[u8]), SnapshotFault>
    ensures found { IfOk result (λ x.
        IsRun (format.placed form) (IsPlacedBelow next) count bytes.now
        (entries (B.contents x.0)) x.1.now) }
    ensures fault { IfErr result (λ f. f ≢ SnapshotFault.Memory
        → IsNoRun (format.placed form) (IsPlacedBelow next) count bytes.now) }
{
    let mut bag = B::empty(alloc);
    let mut low = 0;
    let mut rest = bytes;
    for _ in 0..count {
        let (id, tuple, after) = read_placed(alloc, form, rest)?;
        if !is_place(low, id, next) {
            return Err(SnapshotFault::NoSnapshot);
        }
        bag.insert(id, tuple)?;
        low = id + 1;
        rest = after;
    }
    Ok((bag, rest))
}

// Whether the id is neither below that one nor 0, and below the next one.
fn is_place(low: u64, id: u64, next: u64) -> bool
    ensures yes { result ≡ true → (low ≤ id) × ((1 ≤ id) × (id < next)) }
    ensures no { result ≡ false → low ≤ id → 1 ≤ id → id < next → ⊥ }
{
    low <= id && id > 0 && id < next
}

// Reads so many clients with what is kept for them; the clients rise.
fn read_clients(
    alloc: Global,
    form: Form,
    bytes: &[u8],
    count: u32,
) -> Result<(Book, &[u8]), SnapshotFault>
    ensures found { IfOk result (λ x. IsRun (format.kept form) IsNumbered count bytes.now
        (entries x.0) x.1.now) }
    ensures fault { IfErr result (λ f. f ≢ SnapshotFault.Memory
        → IsNoRun (format.kept form) IsNumbered count bytes.now) }
{
    let mut book = Book::new(alloc);
    let mut low = 0;
    let mut rest = bytes;
    for _ in 0..count {
        let (client, entry, after) = read_kept(alloc, form, rest)?;
        if !is_kept(low, client, entry.0) {
            return Err(SnapshotFault::NoSnapshot);
        }
        book.keep(client, entry.0, entry.1)?;
        low = u64::from(client) + 1;
        rest = after;
    }
    Ok((book, rest))
}

// Whether the client is not below that one, and the number is one that may be kept.
fn is_kept(low: u64, client: u32, n: u64) -> bool
    ensures yes { result ≡ true → (low ≤ client) × ((1 ≤ n) × (n < NUMBER_LIMIT)) }
    ensures no { result ≡ false → low ≤ client → 1 ≤ n → n < NUMBER_LIMIT → ⊥ }
{
    low <= u64::from(client) && n > 0 && n < NUMBER_LIMIT
}
