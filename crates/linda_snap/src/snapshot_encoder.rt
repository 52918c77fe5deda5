//! A snapshot that is written in steps, while the server goes on between them.
//!
//! It is one of the state at its beginning. Tuples are written by rising id: one that is taken
//! before its turn is put aside, and new tuples have greater ids and are not of it. What is kept
//! for clients is copied at the beginning, and written last. `specs/SnapshotEncoder` says what it
//! has written, and what it owes.

ghost use Rattle.std.specs.Prelude.{◌≡◌, ◌≤◌, ◌<◌, ◌^◌, ◌++◌, ℕ, List, length, None, Some};
ghost use Rattle.std.specs.Prelude.{◌+◌, ◌⊎◌, OnOk, OnErr, IfOk, IfErr, IsErrOf, IfSome, IfNone};
ghost use Rattle.std.specs.FinMap.{entries};
ghost use Rattle.linda_journal.specs.declared.limits.TheConstants.{MIN_BYTES};
ghost use Rattle.linda_store_state.specs.State as states;
ghost use Rattle.linda_store_state.specs.State.{IsState};
ghost use Rattle.linda_store_state.specs.DeedFormat.{written};
ghost use Rattle.linda_snap.specs.SnapshotEncoder.{Tuples, Owes, IsThrough, IsFirst, IsFirstOwed};
ghost use Rattle.linda_snap.specs.SnapshotEncoder.{seen, earlier_of, IsSafe};
ghost use Rattle.linda_snap.specs.BookCopy.{Clients, Copies, IsCopyFor};
ghost use Rattle.linda_snap.specs.Clients.{HasTuples};
ghost use Rattle.linda_snap.specs.Snapshot.{clients_bytes, spell_state};
ghost use Rattle.linda_snap.specs.declared.entry.TheConstants.{MAX_KEPT_BYTES};

use crate::book_copy::BookCopy;
use crate::clients::copy_book;
use crate::entry::push_placed;
use crate::putting::push_count;
use crate::renewal::{SwitchFault, len_within};
use linda_bag::{Bag, ListBag};
use linda_book::Book;
use linda_store_state::State;
use linda_tuple::Tuple;
use std::alloc::{AllocError, Global};
use std::mem;

/// How many tuples a step looks at, at most.
pub const STEP_TUPLES: u32 = 4_096;

/// A snapshot that is begun.
#[derive(Drop)]
pub struct SnapshotEncoder {
    // All tuples of lesser ids are written.
    from: u64,
    // The next id at its beginning.
    next: u64,
    // Tuples that were taken since, before their turn.
    aside: ListBag,
    // What was kept for clients, and how many these are.
    book: Book,
    count: u32,
    // How many bytes all of it has.
    len: usize,
}

impl SnapshotEncoder {
    /// Begins a snapshot of the state, for a bank of this limit. Returns it with its first bytes,
    /// which are to be written. If it is given a whole copy of the clients, it takes that, and else
    /// it walks over them; it walks over no tuple.
    ///
    /// # Errors
    ///
    /// `BankFull` exactly if a bank with this snapshot would be longer than the limit: the copy is
    /// as it was. Else `Memory` if memory runs out.
    pub fn begin<B: Bag>(
        alloc: Global,
        state: &State<B>,
        limit: usize,
        copy: &mut Option<BookCopy>,
    ) -> Result<(SnapshotEncoder, Vec<u8>), SwitchFault>
        requires ranges { IsState state.now }
        requires short { limit < 2 ^ 32 }
        requires copied { IsCopyFor copy.old state.now.book }
        ensures begun { IfOk result (λ d. Owes state.now d.0 d.1.items state.now.bag) }
        ensures len { IfOk result (λ d. d.0.len ≡ length (spell_state written state.now)) }
        ensures next { IfOk result (λ d. d.0.next ≡ state.now.next) }
        ensures room { OnOk result (MIN_BYTES + 1 + length (spell_state written state.now)
            ≤ limit) }
        ensures full { IsErrOf result SwitchFault.BankFull
            → limit < MIN_BYTES + 1 + length (spell_state written state.now) }
        ensures fault { IfErr result (λ fault. (fault ≡ SwitchFault.BankFull)
            ⊎ (fault ≡ SwitchFault.Memory)) }
        ensures taken { OnOk result (copy.new ≡ None) }
        ensures kept { IsErrOf result SwitchFault.BankFull → copy.new ≡ copy.old }
    {
        let Some(len) = len_within(state, bytes_copied(copy.as_ref()), limit) else {
            return Err(SwitchFault::BankFull);
        };
        match spell_first(alloc, state, take_whole(copy), len) {
            Ok(begun) => Ok(begun),
            Err(_) => Err(SwitchFault::Memory),
        }
    }

    /// How many bytes the whole snapshot has.
    pub fn len(&self) -> usize
        ensures { result ≡ self.now.len }
    {
        self.len
    }

    /// Puts aside a copy of the tuple of this id, if it is there and its turn is still to come:
    /// then it may be taken.
    ///
    /// # Errors
    ///
    /// `AllocError` if memory runs out; nothing changed.
    pub fn put_aside<B: Bag>(
        &mut self,
        alloc: Global,
        state: &State<B>,
        id: u64,
    ) -> Result<(), AllocError>
        ensures owes { (begun : states.State) (bytes : List ℕ)
            → Owes begun self.old bytes state.now.bag → Owes begun self.new bytes state.now.bag }
        ensures aside { OnOk result (IsSafe self.new state.now.bag id) }
        ensures others { (q : ℕ) → IsSafe self.old state.now.bag q
            → IsSafe self.new state.now.bag q }
        ensures same { (self.new.from ≡ self.old.from) × (self.new.next ≡ self.old.next)
            × (self.new.len ≡ self.old.len) }
    {
        if id < self.from || id >= self.next {
            return Ok(());
        }
        let Some(tuple) = state.bag.get(id) else {
            return Ok(());
        };
        let copy = tuple.try_clone(alloc)?;
        self.aside.insert(id, copy)?;
        Ok(())
    }

    /// Spells the next tuples, one at least, until they have so many bytes, or there are 4,096 of
    /// them. Returns their bytes, which are to be written after those before; `None` if all are
    /// written.
    ///
    /// # Errors
    ///
    /// `AllocError` if memory runs out; nothing changed.
    pub fn spell_next<B: Bag>(
        &mut self,
        alloc: Global,
        state: &State<B>,
        most: usize,
    ) -> Result<Option<Vec<u8>>, AllocError>
        ensures goes_on { (begun : states.State) (bytes : List ℕ)
            → Owes begun self.old bytes state.now.bag
            → IfOk result (λ step. IfSome step (λ more.
            Owes begun self.new (bytes ++ more.items) state.now.bag)) }
        ensures through { (begun : states.State) (bytes : List ℕ)
            → Owes begun self.old bytes state.now.bag
            → IfOk result (λ step. IfNone step (IsThrough begun self.new)) }
        ensures some { IfOk result (λ step. IfSome step (λ more. 0 < length more.items)) }
        ensures most { IfOk result (λ step. IfSome step (λ more.
            length more.items ≤ most + MAX_KEPT_BYTES)) }
        ensures ended { IfOk result (λ step. IfNone step (self.new ≡ self.old)) }
        ensures err { OnErr result (self.new ≡ self.old) }
        ensures next { self.new.next ≡ self.old.next }
    {
        let Some((first, tuple)) = self.owed_from(state, self.from) else {
            return Ok(None);
        };
        let mut more = Vec::new(alloc);
        push_placed(&mut more, first, tuple)?;
        let mut from = first + 1;
        for _ in 1..STEP_TUPLES {
            if more.len() >= most {
                break;
            }
            let Some((id, tuple)) = self.owed_from(state, from) else {
                break;
            };
            push_placed(&mut more, id, tuple)?;
            from = id + 1;
        }
        self.from = from;
        Ok(Some(more))
    }

    /// What is written last, after all tuples: what was kept for its clients, and how many these
    /// are.
    pub fn into_book(self) -> (Book, u32)
        ensures book { (begun : states.State) (bytes : List ℕ) (now : Tuples)
            → Owes begun self bytes now
            → (result.0 ≡ begun.book) × (result.1 ≡ length (entries begun.book)) }
        ensures tuples { (begun : states.State) (bytes : List ℕ) (now : Tuples)
            → Owes begun self bytes now → IsThrough begun self
            → length (spell_state written begun) < 2 ^ 32 → HasTuples begun bytes }
    {
        let SnapshotEncoder { book, count, .. } = self;
        (book, count)
    }

    // The first tuple that it owes, from this id on.
    fn owed_from<'a, B: Bag>(&'a self, state: &'a State<B>, from: u64) -> Option<(u64, &'a Tuple)>
        ensures { IsFirstOwed self.now state.now.bag from (seen result) }
    {
        let there = first_below(&state.bag, from, self.next);
        let aside = first_below(&self.aside, from, self.next);
        earlier(there, aside)
    }
}

// A snapshot of so many bytes, and its first ones: the next id and the count of tuples. The clients
// are those that were copied before, if they were.
fn spell_first<B: Bag>(
    alloc: Global,
    state: &State<B>,
    clients: Option<Book>,
    len: usize,
) -> Result<(SnapshotEncoder, Vec<u8>), AllocError>
    requires ranges { IsState state.now }
    requires short { length (spell_state written state.now) < 2 ^ 32 }
    requires copied { IfSome clients (λ book. book ≡ state.now.book) }
    ensures begun { IfOk result (λ d. Owes state.now d.0 d.1.items state.now.bag) }
    ensures len { IfOk result (λ d. d.0.len ≡ len) }
    ensures next { IfOk result (λ d. d.0.next ≡ state.now.next) }
{
    let book = unless_copied(alloc, clients, &state.book)?;
    let count = as_count(state.book.len());
    let mut bytes = Vec::new(alloc);
    bytes.extend_from_slice(&state.next.to_be_bytes())?;
    push_count(&mut bytes, state.bag.len())?;
    let snapshot = SnapshotEncoder {
        from: 0,
        next: state.next,
        aside: ListBag::new(alloc),
        book,
        count,
        len,
    };
    Ok((snapshot, bytes))
}

// How many bytes the clients spell, if there is a whole copy of them.
fn bytes_copied(copy: Option<&BookCopy>) -> Option<usize>
    ensures { (book : Clients) → IfSome copy.entry (λ c. Copies c.now book)
        → IfSome result (λ bytes. bytes ≡ clients_bytes book) }
{
    match copy {
        None => None,
        Some(copy) => copy.bytes(),
    }
}

// Takes the copy, and gives the book that is copied if it is whole.
fn take_whole(copy: &mut Option<BookCopy>) -> Option<Book>
    ensures taken { copy.new ≡ None }
    ensures whole { (book : Clients) → IsCopyFor copy.old book
        → IfSome result (λ whole. whole ≡ book) }
{
    match mem::replace(copy, None) {
        None => None,
        Some(copy) => copy.into_whole(),
    }
}

// The clients that were copied before, or a copy of them.
fn unless_copied(alloc: Global, before: Option<Book>, book: &Book) -> Result<Book, AllocError>
    requires { IfSome before (λ copy. copy ≡ book.now) }
    ensures { IfOk result (λ copy. copy ≡ book.now) }
{
    match before {
        Some(copy) => Ok(copy),
        None => copy_book(alloc, book),
    }
}

// A count that has four bytes.
fn as_count(count: usize) -> u32
    requires { count < 2 ^ 32 }
    ensures { result ≡ count }
{
    count as u32
}

// The first tuple of the bag from an id on and below another one.
fn first_below<B: Bag>(bag: &B, from: u64, next: u64) -> Option<(u64, &Tuple)>
    ensures { IsFirst (B.contents bag.now) from next (seen result) }
{
    let Some((id, tuple)) = bag.entry_from(from) else {
        return None;
    };
    if id < next { Some((id, tuple)) } else { None }
}

// That of the lesser id, and the first one if both have the same.
fn earlier<'a>(
    one: Option<(u64, &'a Tuple)>,
    other: Option<(u64, &'a Tuple)>,
) -> Option<(u64, &'a Tuple)>
    ensures { seen result ≡ earlier_of (seen one.entry) (seen other.entry) }
{
    match (one, other) {
        (None, other) => other,
        (Some(one), None) => Some(one),
        (Some(one), Some(other)) => {
            if other.0 < one.0 {
                Some(other)
            } else {
                Some(one)
            }
        }
    }
}
