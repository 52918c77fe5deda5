//! A new bank that is written in steps while its server goes on: a snapshot of the state in which
//! it began, and after it the records of what was done since. `specs/BankWriter` says what is
//! written, and what is still to come.

ghost use Rattle.std.specs.Prelude.{◌≡◌, ◌≤◌, ◌<◌, ◌^◌, ◌*◌, ◌+◌, ◌++◌, ◌⊎◌, ℕ, List, length, None};
ghost use Rattle.std.specs.Prelude.{true, false, OnOk, IfOk, IfErr, IsErrOf, IfSome, IfNone};
ghost use Rattle.linda_journal.specs.declared.limits.TheConstants.{MIN_BYTES};
ghost use Rattle.linda_journal.specs.declared.limits.TheConstants.{MAX_DEEDS, MAX_RECORDS};
ghost use Rattle.linda_store_state.specs.State as states;
ghost use Rattle.linda_store_state.specs.State.{IsState};
ghost use Rattle.linda_store_state.specs.Deed.{is_taken};
ghost use Rattle.linda_store_state.specs.DeedFormat.{written};
ghost use Rattle.linda_snap.specs.BookCopy.{IsCopyFor};
ghost use Rattle.linda_snap.specs.Replay.{GoesOn};
ghost use Rattle.linda_snap.specs.Snapshot.{spell_state};
ghost use Rattle.linda_snap.specs.BankWriter.{Follows, IsBehindTuples, IsSafeFor, IsNext};
ghost use Rattle.linda_snap.specs.BankWriter.{HasNoRoomFor, bytes_in, heading};
ghost use Rattle.linda_snap.specs.declared.entry.TheConstants.{MAX_KEPT_BYTES};

use crate::book_copy::BookCopy;
use crate::clients::Clients;
use crate::deed_log::DeedLog;
use crate::renewal::SwitchFault;
use crate::snapshot_encoder::SnapshotEncoder;
use linda_bag::Bag;
use linda_journal::{CLOSED, MIN_BYTES, push_heading, records_for, spell_deeds};
use linda_store_state::{BANK_FORM, Deed, State};
use std::alloc::{AllocError, Global};
use std::mem;

/// A new bank that is written in steps.
#[derive(Drop)]
pub struct BankWriter {
    generation: u64,
    // The most bytes that the bank may take, and how many its snapshot has.
    limit: usize,
    len: usize,
    // The snapshot, until all its tuples are written, and then its clients, until all of these are.
    snapshot: Option<SnapshotEncoder>,
    clients: Option<Clients>,
    // The records of what was done since it began, and how many they are.
    since: DeedLog,
    records: usize,
}

/// What is to be written next.
#[derive(Drop)]
pub enum BankChunk {
    /// These bytes, and then more.
    More(Vec<u8>),
    /// The last bytes, up to the closed gate of the journal.
    Last(Vec<u8>),
}

impl BankWriter {
    /// Begins a bank of this generation and limit with a snapshot of the state. Returns it with the
    /// first bytes after its first gate, which are to be written. If it is given a whole copy of
    /// the clients, it takes that, and else it walks over them; it walks over no tuple.
    ///
    /// # Errors
    ///
    /// `BankFull` exactly if a bank with this snapshot would be longer than the limit: the copy is
    /// as it was. Else `Memory` if memory runs out.
    pub fn begin<B: Bag>(
        alloc: Global,
        state: &State<B>,
        generation: u64,
        limit: usize,
        copy: &mut Option<BookCopy>,
    ) -> Result<(BankWriter, Vec<u8>), SwitchFault>
        requires ranges { IsState state.now }
        requires low { 1 ≤ generation }
        requires short { limit < 2 ^ 32 }
        requires copied { IsCopyFor copy.old state.now.book }
        ensures follows { IfOk result (λ x. Follows x.0 x.1.items state.now) }
        ensures generation { IfOk result (λ x. x.0.generation ≡ generation) }
        ensures limit { IfOk result (λ x. x.0.limit ≡ limit) }
        ensures room { OnOk result (MIN_BYTES + 1 + length (spell_state written state.now)
            ≤ limit) }
        ensures full { IsErrOf result SwitchFault.BankFull
            → limit < MIN_BYTES + 1 + length (spell_state written state.now) }
        ensures fault { IfErr result (λ fault. (fault ≡ SwitchFault.BankFull)
            ⊎ (fault ≡ SwitchFault.Memory)) }
        ensures taken { OnOk result (copy.new ≡ None) }
        ensures kept { IsErrOf result SwitchFault.BankFull → copy.new ≡ copy.old }
    {
        match SnapshotEncoder::begin(alloc, state, limit, copy) {
            Err(fault) => Err(fault),
            Ok((snapshot, first)) => {
                let len = snapshot.len();
                match spell_start(alloc, generation, len, &first) {
                    Err(_) => Err(SwitchFault::Memory),
                    Ok(bytes) => {
                        let begun = BankWriter {
                            generation,
                            limit,
                            len,
                            snapshot: Some(snapshot),
                            clients: None,
                            since: DeedLog::new(alloc),
                            records: 0,
                        };
                        Ok((begun, bytes))
                    }
                }
            }
        }
    }

    /// The generation of the bank.
    pub fn generation(&self) -> u64
        ensures { result ≡ self.now.generation }
    {
        self.generation
    }

    /// How many records the bank has at its end.
    pub fn records(&self) -> usize
        ensures { result ≡ self.now.records }
    {
        self.records
    }

    /// Puts aside a copy of the tuple of this id, if it is there and the snapshot owes it: then it
    /// may be taken.
    ///
    /// # Errors
    ///
    /// `AllocError` if memory runs out; nothing changed.
    pub fn put_aside<B: Bag>(
        &mut self,
        alloc: Global,
        state: &State<B>,
        id: u64,
    ) -> Result<(), AllocError>
        ensures follows { (front : List ℕ)
            → Follows self.old front state.now → Follows self.new front state.now }
        ensures aside { OnOk result (IsSafeFor self.new state.now.bag id) }
        ensures others { (q : ℕ) → IsSafeFor self.old state.now.bag q
            → IsSafeFor self.new state.now.bag q }
        ensures generation { self.new.generation ≡ self.old.generation }
        ensures limit { self.new.limit ≡ self.old.limit }
    {
        match &mut self.snapshot {
            None => Ok(()),
            Some(snapshot) => snapshot.put_aside(alloc, state, id),
        }
    }

    /// Notes what was done in one call of the server; returns whether there was room for it. There
    /// is none only if a deed has no spelling in the form of new banks, or if the bank would pass
    /// its limit.
    ///
    /// # Errors
    ///
    /// `AllocError` if memory runs out.
    pub fn buffer_deeds(&mut self, alloc: Global, deeds: &[Deed]) -> Result<bool, AllocError>
        requires few { length deeds.now ≤ MAX_DEEDS * MAX_RECORDS }
        ensures noted { (front : List ℕ) (st new : states.State)
            → IsState st → GoesOn st deeds.now new
            → ((id : ℕ) → is_taken id deeds.now ≡ true → IsSafeFor self.old st.bag id)
            → Follows self.old front st
            → IfOk result (λ is_noted. is_noted ≡ true → Follows self.new front new) }
        ensures full { IfOk result (λ is_noted. is_noted ≡ false
            → HasNoRoomFor self.old deeds.now) }
        ensures generation { self.new.generation ≡ self.old.generation }
        ensures limit { self.new.limit ≡ self.old.limit }
    {
        let Some(bytes) = spell_deeds(alloc, BANK_FORM, deeds)? else {
            return Ok(false);
        };
        if !has_room(self.limit, self.len, self.since.len(), bytes.len()) {
            return Ok(false);
        }
        self.since.extend(&bytes)?;
        self.records = counted(self.records, records_for(deeds.len()));
        Ok(true)
    }

    /// The next bytes, one at least, and so many at most with one entry more, which are to be
    /// written after those before.
    ///
    /// # Errors
    ///
    /// `AllocError` if memory runs out.
    pub fn next<B: Bag>(
        &mut self,
        alloc: Global,
        state: &State<B>,
        most: usize,
    ) -> Result<BankChunk, AllocError>
        ensures next { (front : List ℕ) → Follows self.old front state.now
            → IfOk result (λ chunk. IsNext chunk self.new front state.now) }
        ensures some { IfOk result (λ chunk. 0 < length (bytes_in chunk)) }
        ensures most { IfOk result (λ chunk. length (bytes_in chunk) ≤ most + MAX_KEPT_BYTES) }
        ensures generation { self.new.generation ≡ self.old.generation }
        ensures same { (self.new.limit ≡ self.old.limit) × (self.new.records ≡ self.old.records) }
    {
        match self.next_tuples(alloc, state, most)? {
            Some(bytes) => Ok(BankChunk::More(bytes)),
            None => match self.begin_clients(alloc, most)? {
                Some(bytes) => Ok(BankChunk::More(bytes)),
                None => match self.next_clients(alloc, most)? {
                    Some(bytes) => Ok(BankChunk::More(bytes)),
                    None => self.next_records(alloc, most),
                },
            },
        }
    }

    // The next tuples of the snapshot; `None` if all are written.
    fn next_tuples<B: Bag>(
        &mut self,
        alloc: Global,
        state: &State<B>,
        most: usize,
    ) -> Result<Option<Vec<u8>>, AllocError>
        ensures some { (front : List ℕ) → Follows self.old front state.now
            → IfOk result (λ o. IfSome o (λ bytes.
            Follows self.new (front ++ bytes.items) state.now)) }
        ensures none { (front : List ℕ) → Follows self.old front state.now
            → IfOk result (λ o. IfNone o (IsBehindTuples self.new front state.now)) }
        ensures long { IfOk result (λ o. IfSome o (λ bytes. 0 < length bytes.items)) }
        ensures most { IfOk result (λ o. IfSome o (λ bytes.
            length bytes.items ≤ most + MAX_KEPT_BYTES)) }
        ensures generation { self.new.generation ≡ self.old.generation }
        ensures same { (self.new.limit ≡ self.old.limit) × (self.new.records ≡ self.old.records) }
    {
        match &mut self.snapshot {
            None => Ok(None),
            Some(snapshot) => snapshot.spell_next(alloc, state, most),
        }
    }

    // The count of the clients and the first of them, after the tuples; `None` if they are written.
    fn begin_clients(&mut self, alloc: Global, most: usize) -> Result<Option<Vec<u8>>, AllocError>
        ensures some { (front : List ℕ) (st : states.State) → IsBehindTuples self.old front st
            → IfOk result (λ o. IfSome o (λ bytes.
            Follows self.new (front ++ bytes.items) st)) }
        ensures none { (front : List ℕ) (st : states.State) → IsBehindTuples self.old front st
            → IfOk result (λ o. IfNone o (Follows self.new front st)) }
        ensures long { IfOk result (λ o. IfSome o (λ bytes. 0 < length bytes.items)) }
        ensures most { IfOk result (λ o. IfSome o (λ bytes.
            length bytes.items ≤ most + MAX_KEPT_BYTES)) }
        ensures ended { OnOk result (self.new.snapshot ≡ None) }
        ensures generation { self.new.generation ≡ self.old.generation }
        ensures same { (self.new.limit ≡ self.old.limit) × (self.new.records ≡ self.old.records) }
    {
        match mem::replace(&mut self.snapshot, None) {
            None => Ok(None),
            Some(snapshot) => {
                let (book, count) = snapshot.into_book();
                let (clients, bytes) = Clients::begin(alloc, book, count, most)?;
                self.clients = Some(clients);
                Ok(Some(bytes))
            }
        }
    }

    // The next clients, which end the snapshot; `None` if it has ended.
    fn next_clients(&mut self, alloc: Global, most: usize) -> Result<Option<Vec<u8>>, AllocError>
        requires { self.old.snapshot ≡ None }
        ensures some { (front : List ℕ) (st : states.State) → Follows self.old front st
            → IfOk result (λ o. IfSome o (λ bytes.
            Follows self.new (front ++ bytes.items) st)) }
        ensures none { (front : List ℕ) (st : states.State) → Follows self.old front st
            → IfOk result (λ o. IfNone o (Follows self.new front st)) }
        ensures long { IfOk result (λ o. IfSome o (λ bytes. 0 < length bytes.items)) }
        ensures most { IfOk result (λ o. IfSome o (λ bytes.
            length bytes.items ≤ most + MAX_KEPT_BYTES)) }
        ensures ended { IfOk result (λ o. IfNone o (self.new.clients ≡ None)) }
        ensures same { (self.new.snapshot ≡ None) × (self.new.generation ≡ self.old.generation)
            × (self.new.limit ≡ self.old.limit) × (self.new.records ≡ self.old.records) }
    {
        match mem::replace(&mut self.clients, None) {
            None => Ok(None),
            Some(clients) => {
                let mut clients = clients;
                match clients.spell_next(alloc, most)? {
                    None => Ok(None),
                    Some(bytes) => {
                        self.clients = Some(clients);
                        Ok(Some(bytes))
                    }
                }
            }
        }
    }

    // The next records, so many bytes of them, but one at least; with the last ones the closed
    // gate.
    fn next_records(&mut self, alloc: Global, most: usize) -> Result<BankChunk, AllocError>
        requires ended { (self.old.snapshot ≡ None) × (self.old.clients ≡ None) }
        ensures next { (front : List ℕ) (st : states.State) → Follows self.old front st
            → IfOk result (λ chunk. IsNext chunk self.new front st) }
        ensures long { IfOk result (λ chunk. 0 < length (bytes_in chunk)) }
        ensures most { IfOk result (λ chunk. length (bytes_in chunk) ≤ most + MAX_KEPT_BYTES) }
        ensures generation { self.new.generation ≡ self.old.generation }
        ensures same { (self.new.limit ≡ self.old.limit) × (self.new.records ≡ self.old.records) }
    {
        let most = one_at_least(most);
        let left = self.since.left();
        let mut bytes = Vec::new(alloc);
        if left.len() > most {
            let (piece, _) = left.split_at(most);
            bytes.extend_from_slice(piece)?;
            self.since.mark_written(most);
            return Ok(BankChunk::More(bytes));
        }
        bytes.extend_from_slice(left)?;
        bytes.push(CLOSED)?;
        Ok(BankChunk::Last(bytes))
    }
}

// One, if it is none.
fn one_at_least(most: usize) -> usize
    ensures some { 1 ≤ result }
    ensures few { result ≤ most + 1 }
{
    if most == 0 { 1 } else { most }
}

// What comes first after the first gate.
fn spell_start(
    alloc: Global,
    generation: u64,
    len: usize,
    first: &[u8],
) -> Result<Vec<u8>, AllocError>
    requires { len < 2 ^ 32 }
    ensures { IfOk result (λ v. v.items ≡ heading generation len ++ first.now) }
{
    let mut bytes = Vec::new(alloc);
    push_heading(&mut bytes, generation, len)?;
    bytes.extend_from_slice(first)?;
    Ok(bytes)
}

// So many records and so many more.
fn counted(records: usize, more: usize) -> usize
    ensures { records + more < 2 ^ 64 → result ≡ records + more }
{
    records.saturating_add(more)
}

// Whether a bank whose snapshot has so many bytes, and its records so many and then so many more,
// keeps within the limit.
fn has_room(limit: usize, len: usize, since: usize, more: usize) -> bool
    ensures yes { result ≡ true → MIN_BYTES + 1 + len + (since + more) ≤ limit }
    ensures no { result ≡ false → limit < MIN_BYTES + 1 + len + (since + more) }
    ensures small { result ≡ true → since + more < 2 ^ 64 }
{
    let Some(all) = since.checked_add(more) else {
        return false;
    };
    let Some(all) = all.checked_add(len) else {
        return false;
    };
    let Some(all) = all.checked_add(MIN_BYTES + 1) else {
        return false;
    };
    all <= limit
}
