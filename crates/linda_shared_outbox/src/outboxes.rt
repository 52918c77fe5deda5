//! The outboxes of all clients.

ghost use Rattle.std.specs.Prelude.{◌≡◌, ◌≢◌, ℕ, ◌+◌, ◌<◌, Some, None, [], ◌∷◌};
ghost use Rattle.std.specs.Prelude.{vec_len, OnOk, OnErr, OnSome, IfSome, IfNone};
ghost use Rattle.std.specs.Prelude.{true};
ghost use Rattle.std.specs.Option.{is_some};
ghost use Rattle.std.specs.Ordering.{nat_cmp};
ghost use Rattle.std.specs.BTreeMap as tree;
ghost use Rattle.linda_shared_outbox.specs.Boxes.{box_of, AllHeard, AllOwned, AllTaken, AreApart};
ghost use Rattle.linda_shared_outbox.specs.Boxes.{TakesMore};
ghost use Rattle.linda_shared_outbox.specs.Replies.{replies_to, opened, with_more, emptied};
ghost use Rattle.linda_shared_outbox.specs.Replies.{handed_out};

use crate::keys::next_key;
use crate::opened::Opened;
use crate::outbox::{Outbox, make_place, put, take_out, unlist};
use crate::sent::Sent;
use linda_wire::Reply;
use slab::Slab;
use std::alloc::{AllocError, Global};
use std::collections::BTreeMap;

/// For each client that has an outbox the replies that wait for it.
#[derive(Drop)]
pub struct Outboxes {
    keys: BTreeMap<u32, usize>,
    boxes: Slab<Outbox>,
    waiting: Vec<u32>,
    opened: Opened,
    ghost taken: { AllTaken keys boxes },
    ghost owned: { AllOwned keys boxes },
    ghost apart: { AreApart keys },
    ghost heard: { AllHeard keys boxes waiting.items },
}

impl Outboxes {
    ghost use Rattle.linda_shared_outbox.specs.Waiting.{waits_for, HasRoom, HasPlaces, IsAbove};

    /// No outboxes. Takes no memory until one is opened.
    pub fn new(alloc: Global) -> Outboxes
        ensures { (c : ℕ) → waits_for result c ≡ None }
    {
        Outboxes {
            keys: BTreeMap::new(alloc),
            boxes: Slab::new(alloc),
            waiting: Vec::new(alloc),
            opened: Opened::none(alloc),
        }
    }

    /// Sets the present second: outboxes are noted as opened in it. Seconds never fall; until one
    /// is set nothing is noted.
    pub fn set_second(&mut self, second: u64)
        ensures { waits_for self.new ≡ waits_for self.old }
    {
        self.opened.set_second(second);
    }

    /// For how many seconds the client has its outbox; nothing if it has none, or if that was not
    /// noted.
    pub fn age(&self, client: u32) -> Option<u64> {
        self.opened.age(client)
    }

    /// Whether the client has an outbox.
    pub fn has(&self, client: u32) -> bool
        ensures { result ≡ is_some (waits_for self.now client) }
    {
        self.keys.contains_key(&client)
    }

    /// The least client that has an outbox, of those above the last one, or of all if there is no
    /// last one; nothing if there is none. Takes no walk over the others.
    pub fn next_after(&self, last: Option<u32>) -> Option<u32>
        ensures found { IfSome result (λ next. is_some (waits_for self.now next) ≡ true) }
        ensures above { IfSome result (λ next. IsAbove last next) }
        ensures least { IfSome result (λ next. (c : ℕ) → IsAbove last c → c < next
            → waits_for self.now c ≡ None) }
        ensures none { IfNone result ((c : ℕ) → IsAbove last c → waits_for self.now c ≡ None) }
    {
        next_key(&self.keys, last)
    }

    /// Gives the client an empty outbox; if it has one, nothing changes.
    ///
    /// # Errors
    ///
    /// `AllocError` if memory runs out, and then nothing changes.
    pub fn open(&mut self, alloc: Global, client: u32) -> Result<(), AllocError>
        ensures at { OnOk result (waits_for self.new client ≡ opened (waits_for self.old client)) }
        ensures others { (c : ℕ) → c ≢ client → waits_for self.new c ≡ waits_for self.old c }
        ensures err { OnErr result ((c : ℕ) → waits_for self.new c ≡ waits_for self.old c) }
    {
        if self.has(client) {
            return Ok(());
        }
        self.boxes.reserve(1)?;
        let key = self.boxes.vacant_key();
        self.keys.insert(client, key)?;
        self.boxes.insert_reserved(Outbox {
            replies: Vec::new(alloc),
            is_listed: false,
        });
        self.opened.note(client);
        Ok(())
    }

    /// Takes the client's outbox away, with what waits there.
    pub fn shut(&mut self, client: u32)
        ensures at { waits_for self.new client ≡ None }
        ensures others { (c : ℕ) → c ≢ client → waits_for self.new c ≡ waits_for self.old c }
    {
        if let Some(key) = self.keys.remove(&client) {
            self.boxes.try_remove(key);
            self.opened.forget(client);
        }
    }

    /// Makes room for all that is sent, so that to post it takes no memory.
    ///
    /// # Errors
    ///
    /// `AllocError` if memory runs out. What waits stays as it is.
    pub fn make_places(&mut self, sends: &[(u32, Reply)]) -> Result<(), AllocError>
        ensures room { OnOk result (HasPlaces self.new sends.now) }
        ensures same { (c : ℕ) → waits_for self.new c ≡ waits_for self.old c }
    {
        self.waiting.reserve(sends.len())?;
        for send in sends {
            self.make_place(send.0, sends.len())?;
        }
        Ok(())
    }

    // Makes room for so many more replies to the client.
    fn make_place(&mut self, client: u32, more: usize) -> Result<(), AllocError>
        ensures room { OnOk result (TakesMore more (box_of self.new.keys self.new.boxes client)) }
        ensures kept { (c n : ℕ) → TakesMore n (box_of self.old.keys self.old.boxes c)
            → TakesMore n (box_of self.new.keys self.new.boxes c) }
        ensures same { (c : ℕ) → waits_for self.new c ≡ waits_for self.old c }
        ensures waiting { self.new.waiting ≡ self.old.waiting }
    {
        if let Some(key) = key_of(&self.keys, client) {
            make_place(&mut self.boxes, key, more)?;
        }
        Ok(())
    }

    /// Posts what is sent, each reply to its client's outbox, if there is one.
    pub fn post_all(&mut self, sends: Vec<(u32, Reply)>)
        requires { HasPlaces self.old sends.items }
        ensures { (c : ℕ) →
            waits_for self.new c ≡ with_more (replies_to c sends.items) (waits_for self.old c) }
    {
        for send in sends {
            self.post(send.0, send.1);
        }
    }

    // Posts one reply.
    fn post(&mut self, client: u32, reply: Reply)
        requires { HasRoom 1 self.old client }
        ensures at { waits_for self.new client
            ≡ with_more (reply ∷ []) (waits_for self.old client) }
        ensures others { (c : ℕ) → c ≢ client →
            box_of self.new.keys self.new.boxes c ≡ box_of self.old.keys self.old.boxes c }
        ensures room { (n : ℕ) → HasRoom (n + 1) self.old client → HasRoom n self.new client }
    {
        if let Some(key) = key_of(&self.keys, client) {
            if put(&mut self.boxes, key, reply) {
                self.waiting.push_reserved(client);
            }
        }
    }

    /// What waits for the client, in order. Its outbox is empty then.
    pub fn drain(&mut self, alloc: Global, client: u32) -> Vec<Reply>
        ensures out { result.items ≡ handed_out (waits_for self.old client) }
        ensures at { waits_for self.new client ≡ emptied (waits_for self.old client) }
        ensures others { (c : ℕ) → c ≢ client → waits_for self.new c ≡ waits_for self.old c }
    {
        match key_of(&self.keys, client) {
            Some(key) => take_out(&mut self.boxes, alloc, key),
            None => Vec::new(alloc),
        }
    }

    /// The replies that wait for some client, at least one; `None` if nothing waits for anybody.
    /// Its outbox is empty then. Takes no memory, and looks only at the outboxes that something was
    /// posted to.
    pub fn drain_next(&mut self, alloc: Global) -> Option<Sent>
        ensures out { IfSome result (λ next.
            waits_for self.old next.client ≡ Some next.replies.items) }
        ensures some { IfSome result (λ next. next.replies.items ≢ []) }
        ensures at { IfSome result (λ next. waits_for self.new next.client ≡ Some []) }
        ensures others { IfSome result (λ next. (c : ℕ) → c ≢ next.client →
            waits_for self.new c ≡ waits_for self.old c) }
        ensures none { IfNone result ((c : ℕ) → handed_out (waits_for self.old c) ≡ []) }
        ensures same { IfNone result ((c : ℕ) → waits_for self.new c ≡ waits_for self.old c) }
    {
        while let Some((client, replies)) = self.drain_last(alloc) {
            if !replies.is_empty() {
                return Some(Sent { client, replies });
            }
        }
        None
    }

    // What waits for the client that was listed last, which is listed no more.
    fn drain_last(&mut self, alloc: Global) -> Option<(u32, Vec<Reply>)>
        ensures out { IfSome result (λ last.
            last.1.items ≡ handed_out (waits_for self.old last.0)) }
        ensures at { IfSome result (λ last.
            waits_for self.new last.0 ≡ emptied (waits_for self.old last.0)) }
        ensures others { IfSome result (λ last. (c : ℕ) → c ≢ last.0 →
            waits_for self.new c ≡ waits_for self.old c) }
        ensures fewer { OnSome result (vec_len self.new.waiting + 1 ≡ vec_len self.old.waiting) }
        ensures none { IfNone result ((c : ℕ) → handed_out (waits_for self.old c) ≡ []) }
        ensures same { IfNone result ((c : ℕ) → waits_for self.new c ≡ waits_for self.old c) }
    {
        let client = self.waiting.pop()?;
        let replies = match key_of(&self.keys, client) {
            Some(key) => {
                let replies = take_out(&mut self.boxes, alloc, key);
                unlist(&mut self.boxes, key);
                replies
            }
            None => Vec::new(alloc),
        };
        Some((client, replies))
    }
}

// The key of the client's outbox, if it has one.
fn key_of(keys: &BTreeMap<u32, usize>, client: u32) -> Option<usize>
    ensures { result ≡ tree.get nat_cmp keys.now client }
{
    keys.get(&client).copied()
}
