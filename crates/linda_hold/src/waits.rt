//! The requests that wait for a tuple.

ghost use Rattle.std.specs.Prelude.{◌≡◌, ◌≤◌, ℕ, ◌+◌, ◌^◌, ◌++◌, ◌∷◌, [], None, cond, false, true};
ghost use Rattle.std.specs.Prelude.{All, filter, length, map, nat_eq};
ghost use Rattle.std.specs.Prelude.{IfOk, OnOk, OnErr, IfSome, IfNone};
ghost use Rattle.std.specs.Option.{option_map};
ghost use Rattle.linda_hold.specs.Request.{request_of};
ghost use Rattle.linda_hold.specs.Arrivals.{may_meet};
ghost use Rattle.linda_hold.specs.Numbered.{wait_at};
ghost use Rattle.linda_hold.specs.Waits.{AreDistinct, IsWait, is_awaited, is_waiting, longest};
ghost use Rattle.linda_hold.specs.Waits.{readers, waits_of, without, without_client};
ghost use Rattle.linda_hold.specs.Waits.{without_readers};

use crate::ages::{Age, Ages};
use crate::asked::Asked;
use crate::awaiting::{Awaiting, awaiting_among, first_input, is_answering_one};
use crate::index::Index;
use crate::keys::Keys;
use crate::long::LongWait;
use crate::request::Request;
use crate::tag_index::Wait;
use crate::wait_candidates::WaitCandidates;
use indexmap::IndexMap;
use linda_tuple::Tuple;
use std::alloc::{AllocError, Global};
use std::hash::RandomState;
use std::marker::Model;

// For so many waits a map that is empty keeps its memory, some 100 kilobytes.
const KEPT: usize = 1_000;

/// The requests that no tuple has answered yet, in order of arrival, each of them once.
///
/// Each has a number, greater than those of all that came before it. The map that keeps them by
/// their numbers is in no order: the index gives the numbers in theirs.
///
/// Clients do not choose the numbers, but they choose which requests they give up, so which numbers
/// stay. With a hash that they can work out they could keep those that lie close together in the
/// map, at four arrivals for three that stay, and then each call looks through a large part of it.
/// So a program that serves strangers chooses random keys for the hash before the first of them
/// asks (`choose_keys`).
pub struct Waits {
    alloc: Global,
    by_arrival: IndexMap<u64, Wait, Keys>,
    next: u64,
    index: Index,
    // Since when requests wait, by their numbers.
    ages: Ages,
}

impl Drop for Waits {
    fn drop(self) {
        let Waits {
            alloc: _,
            by_arrival: _,
            next: _,
            index: _,
            ages: _,
        } = self;
    }
}

impl Model for Waits {
    ghost use Rattle.std.specs.Prelude.{List};
    ghost use Rattle.linda_hold.specs.Waits as seen;
    ghost use Rattle.linda_hold.specs.Index.{HasWaits};
    ghost use Rattle.linda_hold.specs.Numbered.{AreBelow, in_order, wait_at};
    ghost use Rattle.std.specs.Map.{values_of};

    ghost Value = { List seen.Wait };

    ghost view = { λ w. values_of (in_order w.by_arrival.entries) };

    ghost invariant = { λ w. AreBelow w.next (wait_at w.by_arrival.entries)
        × HasWaits w.index (wait_at w.by_arrival.entries) };
}

impl Waits {
    /// No waits. Takes no memory until one is added.
    pub fn new(alloc: Global) -> Waits
        ensures { result ≡ [] }
    {
        Waits {
            alloc,
            by_arrival: IndexMap::with_hasher(alloc, Keys::Fixed),
            next: 0,
            index: Index::empty(alloc),
            ages: Ages::none(alloc),
        }
    }

    /// Sets the present second: those that begin to wait from now on are noted as waiting since
    /// then. Seconds never fall; until one is set nothing is noted.
    pub fn set_second(&mut self, second: u64)
        ensures { self.new ≡ self.old }
    {
        self.ages.set_second(second);
    }

    /// For how many seconds the request waits that waits for longest. It walks over none of them.
    pub fn oldest(&self) -> Option<u64> {
        self.ages.oldest()
    }

    /// The requests that wait for longest, the longest first, as many as are asked for at most,
    /// with what they asked. It walks over those only. None that began to wait before a second was
    /// set is among them.
    ///
    /// # Errors
    ///
    /// `AllocError` if memory runs out.
    pub fn longest_of_all(&self, alloc: Global, most: usize) -> Result<Vec<LongWait>, AllocError>
        ensures waiting { IfOk result (λ found. All (IsWait self.now) found.items) }
        ensures few { IfOk result (λ found. length found.items ≤ most) }
    {
        let aged = self.ages.longest(alloc, most)?;
        let mut found = Vec::new(alloc);
        for age in &aged {
            self.push_aged(alloc, &mut found, *age)?;
        }
        Ok(found)
    }

    // Puts the request of this age after the others, if it waits.
    fn push_aged(
        &self,
        alloc: Global,
        found: &mut Vec<LongWait>,
        age: Age,
    ) -> Result<(), AllocError>
        ensures waiting { OnOk result (All (IsWait self.now) found.old.items
            → All (IsWait self.now) found.new.items) }
        ensures one { OnOk result (length found.new.items ≤ length found.old.items + 1) }
    {
        let Some(wait) = self.aged(alloc, age)? else {
            return Ok(());
        };
        found.push(wait)?;
        Ok(())
    }

    // The request of this age, if it waits, with what it asked.
    fn aged(&self, alloc: Global, age: Age) -> Result<Option<LongWait>, AllocError>
        ensures { IfOk result (λ found. IfSome found (IsWait self.now)) }
    {
        let Some((request, asked)) = self.by_arrival.get(&age.number) else {
            return Ok(None);
        };
        let template = asked.template.try_clone(alloc)?;
        Ok(Some(LongWait {
            request: *request,
            asked: Asked {
                remove: asked.remove,
                template,
            },
            seconds: age.seconds,
        }))
    }

    /// Lets the numbers be hashed by random keys, which no client knows. If a request waits
    /// already, nothing changes: so a program calls it as it begins.
    pub fn choose_keys(&mut self, keys: RandomState)
        ensures { self.new ≡ self.old }
    {
        if self.by_arrival.is_empty() {
            self.by_arrival = IndexMap::with_hasher(self.alloc, Keys::Random(keys));
        }
    }

    /// How many requests wait.
    pub fn len(&self) -> usize
        ensures count { result ≡ length self.now }
        ensures distinct { AreDistinct self.now }
    {
        self.by_arrival.len()
    }

    /// Whether the request waits.
    pub fn contains(&self, request: Request) -> bool
        ensures { result ≡ is_waiting request self.now }
    {
        self.index.ticket_index.number_of(request).is_some()
    }

    /// Lets the request wait, last in order.
    ///
    /// # Errors
    ///
    /// `AllocError` if memory runs out, or the numbers do, which takes 2^64 arrivals; and then the
    /// waits are as before and what was asked is dropped.
    pub fn add(&mut self, request: Request, asked: Asked) -> Result<(), AllocError>
        requires { is_waiting request self.old ≡ false }
        ensures ok { OnOk result (self.new ≡ self.old ++ (request, asked) ∷ []) }
        ensures err { OnErr result (self.new ≡ self.old) }
    {
        let number = self.next;
        let next = number_after(number)?;
        let wait = (request, asked);
        self.index.put(self.alloc, number, &wait)?;
        match self.by_arrival.insert(number, wait) {
            Ok(_) => {
                self.next = next;
                self.ages.note(number);
                Ok(())
            }
            Err(refused) => {
                self.index.remove(number, &refused.value.1);
                Err(AllocError)
            }
        }
    }

    /// Takes out the request; if it does not wait, nothing changes. The others keep their order.
    /// Takes no memory, and walks over nobody's waits.
    pub fn remove(&mut self, request: Request)
        ensures { self.new ≡ without request self.old }
    {
        if let Some(number) = self.index.ticket_index.number_of(request) {
            if let Some(wait) = take_out(&mut self.by_arrival, number) {
                self.index.remove(number, &wait);
                self.ages.forget(number);
            }
        }
    }

    /// Takes out all waits of the client. The others keep their order. Takes no memory, and walks
    /// only over the client's own waits.
    pub fn remove_client(&mut self, client: u32)
        ensures { self.new ≡ without_client client self.old }
    {
        while let Some(ticket) = self.first_ticket(client) {
            self.remove(Request { client, ticket });
        }
    }

    // The least ticket of the client's requests that wait; `None` if none does.
    fn first_ticket(&self, client: u32) -> Option<u64>
        ensures waits { IfSome result (λ ticket.
            is_waiting (request_of client ticket) self.now ≡ true) }
        ensures none { IfNone result (waits_of client self.now ≡ []) }
    {
        self.index.ticket_index.first_ticket(client)
    }

    /// Takes out the reads that the tuple answers, and gives them in order of arrival. The others
    /// keep their order.
    ///
    /// # Errors
    ///
    /// `AllocError` if memory runs out, and then the waits are as before.
    pub fn take_readers(&mut self, alloc: Global, tuple: &Tuple) -> Result<Vec<Request>, AllocError>
        ensures found { IfOk result (λ v. v.items ≡ map (λ w. w.0) (readers tuple.now self.old)) }
        ensures left { OnOk result (self.new ≡ without_readers tuple.now self.old) }
        ensures err { OnErr result (self.new ≡ self.old) }
    {
        let awaiting = self.take_awaiting(alloc, tuple)?;
        Ok(awaiting.readers)
    }

    /// Takes out the reads that the tuple answers, and gives them in order of arrival, with the
    /// input that has waited longest of those that the tuple answers: it waits still. The others
    /// keep their order. It goes once through the requests that the tuple may answer, and takes no
    /// memory if it answers no read.
    ///
    /// # Errors
    ///
    /// `AllocError` if memory runs out, and then the waits are as before.
    pub fn take_awaiting(&mut self, alloc: Global, tuple: &Tuple) -> Result<Awaiting, AllocError>
        ensures readers { IfOk result (λ a.
            a.readers.items ≡ map (λ w. w.0) (readers tuple.now self.old)) }
        ensures longest { IfOk result (λ a.
            a.longest ≡ option_map (λ w. w.0) (longest tuple.now self.old)) }
        ensures left { OnOk result (self.new ≡ without_readers tuple.now self.old) }
        ensures err { OnErr result (self.new ≡ self.old) }
    {
        let found = self.awaiting(alloc, tuple)?;
        for request in &found.readers {
            self.remove(*request);
        }
        Ok(found)
    }

    // The requests that wait for the tuple.
    fn awaiting(&self, alloc: Global, tuple: &Tuple) -> Result<Awaiting, AllocError>
        ensures readers { IfOk result (λ a.
            a.readers.items ≡ map (λ w. w.0) (readers tuple.now self.now)) }
        ensures longest { IfOk result (λ a.
            a.longest ≡ option_map (λ w. w.0) (longest tuple.now self.now)) }
        ensures distinct { AreDistinct self.now }
    {
        awaiting_among(alloc, self.candidates(tuple), tuple)
    }

    // The requests that the tuple may answer.
    fn candidates<'a>(&'a self, tuple: &'a Tuple) -> WaitCandidates<'a>
        ensures met { result ≡ filter (may_meet tuple.now) self.now }
        ensures distinct { AreDistinct self.now }
    {
        WaitCandidates::new(&self.by_arrival, &self.index.tag_index, tuple, self.next)
    }

    /// Whether some request waits that the tuple answers. It looks only at those that ask for its
    /// tag, its number of fields, and its field where their first value is, or for no value. It
    /// takes no memory.
    pub fn is_awaited(&self, tuple: &Tuple) -> bool
        ensures { result ≡ is_awaited tuple.now self.now }
    {
        is_answering_one(self.candidates(tuple), tuple)
    }

    /// The input that has waited longest of those that the tuple answers. It looks at no others
    /// than `is_awaited`, and takes no memory.
    pub fn longest(&self, tuple: &Tuple) -> Option<Request>
        ensures { result ≡ option_map (λ w. w.0) (longest tuple.now self.now) }
    {
        first_input(self.candidates(tuple), tuple)
    }

    /// How many requests of the client wait. It walks over none of them, and takes no memory.
    pub fn count_of(&self, client: u32) -> usize
        ensures { result ≡ length (waits_of client self.now) }
    {
        self.index.ticket_index.count_of(client)
    }
}

// Takes out the wait under the number. Once none is left, a map that grew large gives its memory
// back.
fn take_out(by_arrival: &mut IndexMap<u64, Wait, Keys>, number: u64) -> Option<Wait>
    ensures value { result ≡ wait_at by_arrival.old.entries number }
    ensures others { (q : ℕ) → wait_at by_arrival.new.entries q
        ≡ cond (nat_eq number q) None (wait_at by_arrival.old.entries q) }
{
    let wait = by_arrival.swap_remove(&number)?;
    if by_arrival.is_empty() && by_arrival.capacity() > KEPT {
        by_arrival.shrink_to_fit();
    }
    Some(wait)
}

// The number of the one that arrives next after that of this number.
fn number_after(number: u64) -> Result<u64, AllocError>
    ensures ok { IfOk result (λ next. next ≡ number + 1) }
    ensures err { OnErr result (2 ^ 64 ≤ number + 1) }
{
    number.checked_add(1).ok_or(AllocError)
}
