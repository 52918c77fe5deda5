//! The clients of a snapshot that is written in steps: what was kept for them at its beginning, in
//! a copy, and which of them are written. A large tuple of a kept reply is there once for both.
//! `specs/Clients` says what is still to come.

ghost use Rattle.std.specs.Prelude.{◌≡◌, ◌<◌, ◌≤◌, ◌+◌, ◌++◌, ℕ, List, length, OnOk, OnErr, IfOk};
ghost use Rattle.std.specs.Prelude.{IfSome, IfNone};
ghost use Rattle.std.specs.FinMap.{entries};
ghost use Rattle.linda_store_state.specs.State as states;
ghost use Rattle.linda_snap.specs.Clients.{OwesClients, HasTuples, AreThrough};
ghost use Rattle.linda_snap.specs.declared.entry.TheConstants.{MAX_KEPT_BYTES};

use crate::cursor::{kept_after, next_entry};
use crate::entry::push_kept;
use linda_book::Book;
use std::alloc::{AllocError, Global};

/// How many clients a step looks at, at most.
const STEP_CLIENTS: u32 = 4_096;

/// The clients of a snapshot.
#[derive(Drop)]
pub(crate) struct Clients {
    // What was kept for them.
    book: Book,
    // The last one that is written.
    last: Option<u32>,
}

impl Clients {
    /// The clients of a book, after all tuples of their snapshot. Returns them with the first
    /// bytes: the count that is given and the first clients, until there are `most` bytes or more,
    /// or 4,096 clients.
    ///
    /// # Errors
    ///
    /// `AllocError` if memory runs out.
    pub(crate) fn begin(
        alloc: Global,
        book: Book,
        count: u32,
        most: usize,
    ) -> Result<(Clients, Vec<u8>), AllocError>
        ensures owes { (begun : states.State) (bytes : List ℕ)
            → HasTuples begun bytes → book ≡ begun.book → count ≡ length (entries begun.book)
            → IfOk result (λ x. OwesClients begun x.0 (bytes ++ x.1.items)) }
        ensures some { IfOk result (λ x. 0 < length x.1.items) }
        ensures most { IfOk result (λ x. length x.1.items ≤ most + MAX_KEPT_BYTES) }
    {
        let mut bytes = Vec::new(alloc);
        bytes.extend_from_slice(&count.to_be_bytes())?;
        let mut clients = Clients { book, last: None };
        clients.push_next(&mut bytes, most)?;
        Ok((clients, bytes))
    }

    /// Spells the next clients, one at least, until they have so many bytes, or there are 4,097 of
    /// them. Returns their bytes, which are to be written after those before; `None` if all are
    /// written.
    ///
    /// # Errors
    ///
    /// `AllocError` if memory runs out: they are not to be used then.
    pub(crate) fn spell_next(
        &mut self,
        alloc: Global,
        most: usize,
    ) -> Result<Option<Vec<u8>>, AllocError>
        ensures goes_on { (begun : states.State) (bytes : List ℕ)
            → OwesClients begun self.old bytes
            → IfOk result (λ step. IfSome step (λ more.
            OwesClients begun self.new (bytes ++ more.items))) }
        ensures through { IfOk result (λ step. IfNone step (AreThrough self.old)) }
        ensures some { IfOk result (λ step. IfSome step (λ more. 0 < length more.items)) }
        ensures most { IfOk result (λ step. IfSome step (λ more.
            length more.items ≤ most + MAX_KEPT_BYTES)) }
    {
        let Some((client, entry)) = kept_after(&self.book, self.last) else {
            return Ok(None);
        };
        let mut more = Vec::new(alloc);
        push_kept(&mut more, client, entry.0, entry.1)?;
        self.last = Some(client);
        self.push_next(&mut more, most)?;
        Ok(Some(more))
    }

    // Appends the next clients, until there are so many bytes, or 4,096 more clients.
    fn push_next(&mut self, out: &mut Vec<u8>, most: usize) -> Result<(), AllocError>
        requires few { length out.old.items ≤ most + MAX_KEPT_BYTES }
        ensures owes { (begun : states.State) (bytes : List ℕ)
            → OwesClients begun self.old (bytes ++ out.old.items)
            → OnOk result (OwesClients begun self.new (bytes ++ out.new.items)) }
        ensures grows { OnOk result (length out.old.items ≤ length out.new.items) }
        ensures most { OnOk result (length out.new.items ≤ most + MAX_KEPT_BYTES) }
        ensures err { OnErr result (self.new ≡ self.old) }
    {
        let mut last = self.last;
        for _ in 0..STEP_CLIENTS {
            if out.len() >= most {
                break;
            }
            let Some((client, entry)) = kept_after(&self.book, last) else {
                break;
            };
            push_kept(out, client, entry.0, entry.1)?;
            last = Some(client);
        }
        self.last = last;
        Ok(())
    }
}

/// A copy of the book, which shares its large tuples.
///
/// # Errors
///
/// `AllocError` if memory runs out.
pub(crate) fn copy_book(alloc: Global, book: &Book) -> Result<Book, AllocError>
    ensures { IfOk result (λ copy. copy ≡ book.now) }
{
    let mut copy = Book::new(alloc);
    let mut last = None;
    while let Some((client, entry)) = next_entry(book, last) {
        let reply = entry.1.try_clone(alloc)?;
        copy.keep(client, entry.0, reply)?;
        last = Some(client);
    }
    Ok(copy)
}
