//! The tuples that are held for requests.

ghost use Rattle.std.specs.Prelude.{◌≡◌, ◌≤◌, ◌||◌, ℕ, None, Some, All, length};
ghost use Rattle.std.specs.Prelude.{IfOk, IfSome, OnOk, OnErr};
ghost use Rattle.std.specs.Option.{is_some};
ghost use Rattle.std.specs.Ordering.{nat_cmp};
ghost use Rattle.std.specs.FinMap as map;
ghost use Rattle.std.specs.BTreeSet as set;
ghost use Rattle.linda_rising.specs.Rows.{at};
ghost use Rattle.linda_hold.specs.Holds.{IsHeldAt, IsHold, IsOneEach, held_in};

use crate::ages::{Age, Ages};
use crate::long::LongHold;
use crate::request::Request;
use crate::ticket_index::TicketIndex;
use linda_bag::IdSet;
use linda_rising::RisingMap;
use std::alloc::{AllocError, Global};
use std::collections::BTreeSet;
use std::marker::Model;

/// Which tuple is held for which request: each tuple, named by its id, for at most one request, and
/// for each request at most one tuple. Any 64-bit number may be an id.
pub struct Holds {
    alloc: Global,
    by_id: RisingMap<Request>,
    ticket_index: TicketIndex,
    // Since when tuples are held, by their ids.
    ages: Ages,
}

impl Drop for Holds {
    fn drop(self) {
        let Holds {
            alloc: _,
            by_id: _,
            ticket_index: _,
            ages: _,
        } = self;
    }
}

impl Model for Holds {
    ghost use Rattle.std.specs.Coded.{coded_ℕ};
    ghost use Rattle.std.specs.Ordering.{nat_cmp};
    ghost use Rattle.std.specs.FinMap as map;
    ghost use Rattle.linda_hold.specs.Request.{request_code};
    ghost use Rattle.linda_hold.specs.Holds.{HeldFor};
    ghost use Rattle.linda_hold.specs.TicketIndex.{HasNames};

    ghost Value = { HeldFor };

    ghost coded = { map.code coded_ℕ request_code };

    ghost view = { λ h. h.by_id };

    ghost invariant = { λ h. HasNames h.ticket_index (map.get h.by_id) };
}

impl Holds {
    /// No holds. Takes no memory until one is inserted.
    pub fn new(alloc: Global) -> Holds
        ensures { result ≡ map.empty }
    {
        Holds {
            alloc,
            by_id: RisingMap::new(alloc),
            ticket_index: TicketIndex::empty(alloc),
            ages: Ages::none(alloc),
        }
    }

    /// Sets the present second: what is held from now on is noted as held since then. Seconds never
    /// fall; until one is set nothing is noted.
    pub fn set_second(&mut self, second: u64)
        ensures { self.new ≡ self.old }
    {
        self.ages.set_second(second);
    }

    /// For how many seconds the tuple is held; `None` if it is not, or if that was not noted.
    pub fn age(&self, id: u64) -> Option<u64> {
        self.ages.age(id)
    }

    /// For how many seconds the tuple is held that is held for longest. It walks over none of them.
    pub fn oldest(&self) -> Option<u64> {
        self.ages.oldest()
    }

    /// The tuples that are held for longest, the longest first, as many as are asked for at most,
    /// with their requests. It walks over those only. Nothing that was held before a second was set
    /// is among them.
    ///
    /// # Errors
    ///
    /// `AllocError` if memory runs out.
    pub fn longest(&self, alloc: Global, most: usize) -> Result<Vec<LongHold>, AllocError>
        ensures held { IfOk result (λ found. All (IsHold self.now) found.items) }
        ensures few { IfOk result (λ found. length found.items ≤ most) }
    {
        let aged = self.ages.longest(alloc, most)?;
        let mut found = Vec::new(alloc);
        for age in &aged {
            if let Some(hold) = self.aged(*age) {
                found.push(hold)?;
            }
        }
        Ok(found)
    }

    // The tuple of this age, if it is held.
    fn aged(&self, age: Age) -> Option<LongHold>
        ensures { IfSome result (IsHold self.now) }
    {
        let Some(request) = self.get(age.number) else {
            return None;
        };
        Some(LongHold {
            id: age.number,
            request,
            seconds: age.seconds,
        })
    }

    /// The request that the tuple is held for.
    pub fn get(&self, id: u64) -> Option<Request>
        ensures value { result ≡ map.get self.now id }
        ensures one_each { IsOneEach self.now }
    {
        self.by_id.get(id).copied()
    }

    /// The id of the tuple that is held for the request.
    pub fn find(&self, request: Request) -> Option<u64>
        ensures value { IsHeldAt self.now request result }
        ensures one_each { IsOneEach self.now }
    {
        self.ticket_index.number_of(request)
    }

    /// How many tuples are held.
    pub fn len(&self) -> usize
        ensures { result ≡ map.len self.now }
    {
        self.by_id.len()
    }

    /// The ids of all tuples that are held.
    ///
    /// # Errors
    ///
    /// `AllocError` if memory runs out.
    pub fn ids(&self, alloc: Global) -> Result<BTreeSet<u64>, AllocError>
        ensures { IfOk result (λ ids. (id : ℕ)
            → set.contains nat_cmp ids id ≡ is_some (map.get self.now id)) }
    {
        all_ids(alloc, &self.by_id)
    }

    /// The ids that are held for the client, rising. It looks only at the holds of this client.
    ///
    /// # Errors
    ///
    /// `AllocError` if memory runs out.
    pub fn of_client(&self, alloc: Global, client: u32) -> Result<Vec<u64>, AllocError>
        ensures { IfOk result (λ v. v.items ≡ held_in client (map.entries self.now)) }
    {
        let ids = self.ticket_index.of_client(alloc, client)?;
        to_sorted_vec(alloc, &ids)
    }

    /// How many tuples are held for the client. It walks over none of them, and takes no memory.
    pub fn count_of(&self, client: u32) -> usize
        ensures { result ≡ length (held_in client (map.entries self.now)) }
    {
        self.ticket_index.count_of(client)
    }

    /// Lets the tuple be held for the request. If it was held for another, it is held for that no
    /// more.
    ///
    /// # Errors
    ///
    /// `AllocError` if memory runs out, and then the holds are as before.
    pub fn insert(&mut self, id: u64, request: Request) -> Result<(), AllocError>
        requires { IsHeldAt self.old request None }
        ensures ok { OnOk result (self.new ≡ map.insert self.old id request) }
        ensures err { OnErr result (self.new ≡ self.old) }
    {
        self.ticket_index.put(self.alloc, id, request)?;
        if self.by_id.contains(id) {
            let old = self.by_id.replace(id, request);
            self.ticket_index.remove(old);
            self.ages.note(id);
            return Ok(());
        }
        match self.by_id.insert(id, request) {
            Ok(()) => {
                self.ages.note(id);
                Ok(())
            }
            Err(_) => {
                // Only a new id can be refused: it was held for no other request.
                self.ticket_index.remove(request);
                Err(AllocError)
            }
        }
    }

    /// Lets the tuple be held for nobody; if it is not held, nothing changes.
    pub fn remove(&mut self, id: u64)
        ensures { self.new ≡ map.remove self.old id }
    {
        if let Some(request) = self.by_id.remove(id) {
            self.ticket_index.remove(request);
            self.ages.forget(id);
        }
    }
}

impl IdSet for Holds {
    ghost use Rattle.std.specs.Option.{is_some};
    ghost use Rattle.std.specs.FinMap as map;

    ghost has = { λ holds id. is_some (map.get holds id) };

    fn has(&self, id: u64) -> bool {
        self.by_id.contains(id)
    }
}

// The ids of the map.
fn all_ids(alloc: Global, by_id: &RisingMap<Request>) -> Result<BTreeSet<u64>, AllocError>
    ensures { IfOk result (λ ids. (id : ℕ)
        → set.contains nat_cmp ids id ≡ is_some (map.get by_id.now id)) }
{
    let mut ids = BTreeSet::new(alloc);
    let mut from = 0;
    while let Some(part) = by_id.rows_of_block_from(from) {
        put_ids(&mut ids, part.rows)?;
        let Some(next) = part.next else {
            return Ok(ids);
        };
        from = next;
    }
    Ok(ids)
}

// Puts the ids of the rows into the set.
fn put_ids(ids: &mut BTreeSet<u64>, rows: &[(u64, Request)]) -> Result<(), AllocError>
    ensures { OnOk result ((q : ℕ) → set.contains nat_cmp ids.new q
        ≡ (set.contains nat_cmp ids.old q || is_some (at rows.now q))) }
{
    for row in rows {
        ids.insert(row.0)?;
    }
    Ok(())
}

// The numbers of the set, rising.
fn to_sorted_vec(alloc: Global, numbers: &BTreeSet<u64>) -> Result<Vec<u64>, AllocError>
    ensures keys { IfOk result (λ v. v.items ≡ numbers.now.keys) }
    ensures ordered { set.IsOrdered nat_cmp numbers.now }
{
    let mut found = Vec::new(alloc);
    for number in numbers {
        found.push(*number)?;
    }
    Ok(found)
}
