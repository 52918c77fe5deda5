//! A copy of a book that is made in pieces, while the book changes between them. A snapshot in
//! steps that has a whole one walks over no client at its beginning.

ghost use Rattle.std.specs.Prelude.{◌≡◌, ◌≢◌, ℕ, true, false, None, Some};
ghost use Rattle.std.specs.Prelude.{IfSome, OnSome};
ghost use Rattle.std.specs.FinMap as map;
ghost use Rattle.linda_snap.specs.Snapshot.{clients_bytes};

use crate::cursor::next_entry;
use crate::entry::kept_len;
use linda_book::{Book, KeptReply};
use linda_store_state::Deed;
use std::alloc::Global;

/// A copy of the first clients of a book, or of all of them, which shares their large tuples.
#[derive(Drop)]
pub struct BookCopy {
    book: Book,
    // The last client up to which all are copied.
    last: Option<u32>,
    // All are copied.
    is_whole: bool,
    // How many bytes they spell in a snapshot.
    bytes: usize,
    ghost counted: { bytes ≡ clients_bytes book },
}

impl BookCopy {
    ghost use Rattle.linda_store_state.specs.State.{State, IsState};
    ghost use Rattle.linda_snap.specs.Replay.{GoesOn};
    ghost use Rattle.linda_snap.specs.BookCopy.{Clients, Copies, reaches, bytes_at};

    /// A copy of no clients yet. It takes no memory.
    pub fn new(alloc: Global) -> BookCopy
        ensures copies { (book : Clients) → Copies result book }
    {
        BookCopy {
            book: Book::new(alloc),
            last: None,
            is_whole: false,
            bytes: 0,
        }
    }

    /// Whether all clients of the book are copied.
    pub fn is_whole(&self) -> bool
        ensures { result ≡ self.now.is_whole }
    {
        self.is_whole
    }

    /// Copies the next clients of the book, so many at most. Returns `None` if memory runs out, or
    /// if what is copied would spell more than 2^64 bytes.
    pub fn go_on(self, alloc: Global, book: &Book, most: u32) -> Option<BookCopy>
        ensures copies { Copies self book.now → IfSome result (λ x. Copies x book.now) }
    {
        let mut copy = self;
        for _ in 0..most {
            if copy.is_whole {
                break;
            }
            copy.copy_next(alloc, book)?;
        }
        Some(copy)
    }

    /// Copies anew what the book has now, after these deeds, for their clients, as far as it has
    /// come. Returns `None` if memory runs out, or if what is copied would spell more than 2^64
    /// bytes.
    pub fn renew(self, alloc: Global, book: &Book, deeds: &[Deed]) -> Option<BookCopy>
        ensures copies { (old new : State) → IsState old → GoesOn old deeds.now new
            → new.book ≡ book.now → Copies self old.book → IfSome result (λ x. Copies x book.now) }
    {
        let mut copy = self;
        for deed in deeds {
            copy.copy_again(alloc, book, deed.client())?;
        }
        Some(copy)
    }

    /// How many bytes the clients of the book spell in a snapshot, if all are copied.
    pub(crate) fn bytes(&self) -> Option<usize>
        ensures { (book : Clients) → Copies self.now book
            → IfSome result (λ bytes. bytes ≡ clients_bytes book) }
    {
        if self.is_whole {
            Some(self.bytes)
        } else {
            None
        }
    }

    /// The book that is copied, if all of it is.
    pub(crate) fn into_whole(self) -> Option<Book>
        ensures { (book : Clients) → Copies self book → IfSome result (λ whole. whole ≡ book) }
    {
        let BookCopy { book, is_whole, .. } = self;
        if is_whole { Some(book) } else { None }
    }

    // Copies the next client; if there is none, the copy is whole.
    fn copy_next(&mut self, alloc: Global, book: &Book) -> Option<()>
        requires { self.old.is_whole ≡ false }
        ensures copies { Copies self.old book.now → OnSome result (Copies self.new book.now) }
    {
        let Some((client, entry)) = next_entry(book, self.last) else {
            self.is_whole = true;
            return Some(());
        };
        self.put(alloc, client, entry.0, entry.1)?;
        self.last = Some(client);
        Some(())
    }

    // Copies what the book has for the client, if the copy has come to it.
    fn copy_again(&mut self, alloc: Global, book: &Book, client: u32) -> Option<()>
        ensures here { OnSome result (reaches self.new client ≡ true
            → map.get self.new.book client ≡ map.get book.now client) }
        ensures none { OnSome result (reaches self.new client ≡ false
            → map.get self.new.book client ≡ map.get self.old.book client) }
        ensures others { OnSome result ((c : ℕ) → c ≢ client
            → map.get self.new.book c ≡ map.get self.old.book c) }
        ensures same { (self.new.last ≡ self.old.last) × (self.new.is_whole ≡ self.old.is_whole) }
    {
        if !self.has_come_to(client) {
            return Some(());
        }
        let (n, reply) = book.kept(client)?;
        self.put(alloc, client, n, reply)
    }

    // Whether it has come to the client.
    fn has_come_to(&self, client: u32) -> bool
        ensures { result ≡ reaches self.now client }
    {
        let is_within = match self.last {
            None => false,
            Some(last) => client <= last,
        };
        self.is_whole || is_within
    }

    // Keeps a copy of the entry for the client, in place of the one that was kept.
    fn put(&mut self, alloc: Global, client: u32, n: u64, reply: &KeptReply) -> Option<()>
        ensures put { OnSome result (self.new.book
            ≡ map.insert self.old.book client (n, reply.now)) }
        ensures same { (self.new.last ≡ self.old.last) × (self.new.is_whole ≡ self.old.is_whole) }
    {
        let more = self.bytes.checked_add(kept_len(reply))?;
        let bytes = more - self.len_at(client);
        let Ok(copy) = reply.try_clone(alloc) else {
            return None;
        };
        let Ok(()) = self.book.keep(client, n, copy) else {
            return None;
        };
        self.bytes = bytes;
        Some(())
    }

    // How many bytes what is kept for the client spells.
    fn len_at(&self, client: u32) -> usize
        ensures { result ≡ bytes_at (map.get self.now.book client) }
    {
        match self.book.kept(client) {
            None => 0,
            Some(kept) => kept_len(kept.1),
        }
    }
}
