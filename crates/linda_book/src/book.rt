//! The book of a server: for each client the number of its last numbered message, and the reply.

ghost use Rattle.std.specs.Prelude.{◌≡◌, ◌≤◌, ◌<◌, ℕ, None, Some, IfNone, IfSome, IsSome};
ghost use Rattle.std.specs.Prelude.{OnOk, OnErr};
ghost use Rattle.std.specs.Option.{option_map};
ghost use Rattle.std.specs.FinMap as map;
ghost use Rattle.linda_book.specs.Entries.{left_in, number_in};
ghost use Rattle.linda_book.specs.Classes.{class_of, IsClass};

use crate::class::{self, Class};
use crate::kept_reply::KeptReply;
use std::alloc::{AllocError, Global};
use std::collections::BTreeMap;
use std::marker::Model;
use std::ops::Bound;

/// What is kept for each client, at most one entry a client. Contracts see a finite map from
/// clients to pairs of a number and a reply. The book itself sets no limit to clients or numbers.
pub struct Book {
    entries: BTreeMap<u32, (u64, KeptReply)>,
}

impl Drop for Book {
    fn drop(self) {
        let Book { entries: _ } = self;
    }
}

impl Model for Book {
    ghost use Rattle.std.specs.Ordering.{nat_cmp};
    ghost use Rattle.std.specs.FinMap as map;
    ghost use Rattle.linda_book.specs.Entries.{Entry};
    ghost use Rattle.linda_book.specs.Codes.{book_code};

    ghost Value = { map.FinMap nat_cmp Entry };

    ghost coded = { book_code };

    ghost view = { λ b. map.from_entries {R = nat_cmp} b.entries.entries };
}

impl Book {
    /// A book of no clients, which takes no memory until one is kept.
    pub fn new(alloc: Global) -> Book
        ensures { result ≡ map.empty }
    {
        Book {
            entries: BTreeMap::new(alloc),
        }
    }

    /// The number that is kept for the client, 0 if there is none.
    pub fn last(&self, client: u32) -> u64
        ensures { result ≡ number_in (map.get self.now client) }
    {
        match self.entries.get(&client) {
            Some(entry) => entry.0,
            None => 0,
        }
    }

    /// The number that is kept for the client, 0 if there is none, and whether the client left by
    /// that.
    pub fn standing(&self, client: u32) -> (u64, bool)
        ensures last { result.0 ≡ number_in (map.get self.now client) }
        ensures left { result.1 ≡ left_in (map.get self.now client) }
    {
        match self.entries.get(&client) {
            Some(entry) => (entry.0, entry.1.is_left()),
            None => (0, false),
        }
    }

    /// How the number of a message compares to the last one that is kept for the client.
    #[tactic(auto, using(crate::proofs::MeaningLaws::class_means))]
    pub fn classify(&self, client: u32, n: u64) -> Class
        ensures class { result ≡ class_of (number_in (map.get self.now client))
            (left_in (map.get self.now client)) n }
        ensures means { IsClass (number_in (map.get self.now client))
            (left_in (map.get self.now client)) n result }
    {
        let (last, left) = self.standing(client);
        class::class_of(last, left, n)
    }

    /// The number and the reply that are kept for the client.
    pub fn kept(&self, client: u32) -> Option<(u64, &KeptReply)>
        ensures { option_map (λ e. (e.0, e.1.now)) result ≡ map.get self.now client }
    {
        match self.entries.get(&client) {
            Some(entry) => Some((entry.0, &entry.1)),
            None => None,
        }
    }

    /// Keeps the number and the reply for the client, in place of those that were kept.
    ///
    /// # Errors
    ///
    /// `AllocError` if memory runs out, and then the book is as before. It comes only for a client
    /// for which nothing is kept: to replace an entry takes no memory.
    pub fn keep(&mut self, client: u32, n: u64, reply: KeptReply) -> Result<(), AllocError>
        ensures ok { OnOk result (self.new ≡ map.insert self.old client (n, reply)) }
        ensures err { OnErr result (self.new ≡ self.old) }
        ensures absent { OnErr result (map.get self.old client ≡ None) }
    {
        self.entries.insert(client, (n, reply))?;
        Ok(())
    }

    /// How many clients the book keeps.
    pub fn len(&self) -> usize
        ensures { result ≡ map.len self.now }
    {
        self.entries.len()
    }

    /// The least client of the book that is not below `client`; `None` only if there is none.
    pub fn next_from(&self, client: u32) -> Option<u32>
        ensures found { IfSome result (λ next. IsSome (map.get self.now next)) }
        ensures above { IfSome result (λ next. client ≤ next) }
        ensures least { IfSome result (λ next. (c : ℕ) → client ≤ c → c < next
            → map.get self.now c ≡ None) }
        ensures none { IfNone result ((c : ℕ) → client ≤ c → map.get self.now c ≡ None) }
    {
        let (next, _) = self.entry_from(client)?;
        Some(next)
    }

    /// The least client of the book that is above `client`; `None` only if there is none.
    pub fn next_after(&self, client: u32) -> Option<u32>
        ensures found { IfSome result (λ next. IsSome (map.get self.now next)) }
        ensures above { IfSome result (λ next. client < next) }
        ensures least { IfSome result (λ next. (c : ℕ) → client < c → c < next
            → map.get self.now c ≡ None) }
        ensures none { IfNone result ((c : ℕ) → client < c → map.get self.now c ≡ None) }
    {
        let (next, _) = self.entry_after(client)?;
        Some(next)
    }

    /// The least client of the book that is not below `client`, with the number and the reply that
    /// are kept for it; `None` only if there is none.
    pub fn entry_from(&self, client: u32) -> Option<(u32, (u64, &KeptReply))>
        ensures found { IfSome result (λ e. map.get self.now e.0 ≡ Some (e.1.0, e.1.1.now)) }
        ensures above { IfSome result (λ e. client ≤ e.0) }
        ensures least { IfSome result (λ e. (c : ℕ) → client ≤ c → c < e.0
            → map.get self.now c ≡ None) }
        ensures none { IfNone result ((c : ℕ) → client ≤ c → map.get self.now c ≡ None) }
    {
        let (next, entry) = self.entries.range(client..).next()?;
        Some((*next, (entry.0, &entry.1)))
    }

    /// The least client of the book that is above `client`, with the number and the reply that are
    /// kept for it; `None` only if there is none.
    pub fn entry_after(&self, client: u32) -> Option<(u32, (u64, &KeptReply))>
        ensures found { IfSome result (λ e. map.get self.now e.0 ≡ Some (e.1.0, e.1.1.now)) }
        ensures above { IfSome result (λ e. client < e.0) }
        ensures least { IfSome result (λ e. (c : ℕ) → client < c → c < e.0
            → map.get self.now c ≡ None) }
        ensures none { IfNone result ((c : ℕ) → client < c → map.get self.now c ≡ None) }
    {
        let above = (Bound::Excluded(client), Bound::Unbounded);
        let (next, entry) = self.entries.range(above).next()?;
        Some((*next, (entry.0, &entry.1)))
    }
}
