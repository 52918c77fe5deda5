//! A place for each client that has or had a seat.

ghost use Rattle.std.specs.Prelude.{◌≡◌, ◌≢◌, ◌↔◌, ℕ, true, None, Some, IsSome, OnOk, OnErr};
ghost use Rattle.std.specs.Prelude.{option_copied};
ghost use Rattle.std.specs.FinMap as map;
ghost use Rattle.linda_shared_accounts.specs.declared.place.Place.TheVariants as kinds;
ghost use Rattle.linda_shared_accounts.specs.Accounts as spec;
ghost use Rattle.linda_shared_accounts.specs.Accounts.{is_away, shortened_at};

use crate::place::Place;
use std::alloc::{AllocError, Global};
use std::collections::BTreeMap;
use std::marker::Model;

/// At most one place for each client. Contracts see a finite map.
#[derive(Drop)]
pub(crate) struct Places {
    pub(crate) entries: BTreeMap<u32, Place>,
}

impl Model for Places {
    ghost use Rattle.std.specs.Ordering.{nat_cmp};
    ghost use Rattle.std.specs.FinMap as map;
    ghost use Rattle.linda_shared_accounts.specs.declared.place.Place as kind;
    ghost use Rattle.linda_shared_accounts.specs.AccountsCodes.{places_code};

    ghost Value = { map.FinMap nat_cmp kind.Place };

    ghost coded = { places_code };

    ghost view = { λ p. map.from_entries {R = nat_cmp} p.entries.entries };
}

impl Places {
    /// No places.
    pub(crate) fn new(alloc: Global) -> Places
        ensures { result ≡ map.empty }
    {
        Places {
            entries: BTreeMap::new(alloc),
        }
    }

    /// The client's place.
    pub(crate) fn get(&self, client: u32) -> Option<&Place>
        ensures { option_copied result ≡ map.get self.now client }
    {
        self.entries.get(&client)
    }

    /// Whether the client's seat is out.
    pub(crate) fn has_out(&self, client: u32) -> bool
        ensures { (result ≡ true) ↔ (map.get self.now client ≡ Some kinds.Out) }
    {
        match self.get(client) {
            Some(Place::Out) => true,
            Some(Place::Parked { .. }) => false,
            None => false,
        }
    }

    /// Whether the client can have no seat now: its seat is out, or is parked for good.
    pub(crate) fn is_away(&self, client: u32) -> bool
        ensures { result ≡ is_away (map.get self.now client) }
    {
        match self.get(client) {
            Some(Place::Out) => true,
            Some(Place::Parked { for_good, .. }) => *for_good,
            None => false,
        }
    }

    /// A place for a client that may have none.
    ///
    /// # Errors
    ///
    /// `AllocError` if memory runs out; then nothing changes. It comes only for a client with no
    /// place.
    pub(crate) fn put(&mut self, client: u32, place: Place) -> Result<(), AllocError>
        ensures ok { OnOk result (self.new ≡ map.insert self.old client place) }
        ensures err { OnErr result (self.new ≡ self.old) }
        ensures absent { OnErr result (map.get self.old client ≡ None) }
    {
        self.entries.insert(client, place)?;
        Ok(())
    }

    /// Another place for a client that has one, which comes out.
    pub(crate) fn swap(&mut self, client: u32, place: Place) -> Place
        requires { IsSome (map.get self.old client) }
        ensures old { map.get self.old client ≡ Some result }
        ensures new { self.new ≡ map.insert self.old client place }
    {
        match self.entries.insert(client, place) {
            Ok(Some(old)) => old,
            Ok(None) => unreachable!(),
            Err(_) => unreachable!(),
        }
    }

    /// Takes the client's place away.
    pub(crate) fn remove(&mut self, client: u32)
        ensures { self.new ≡ map.remove self.old client }
    {
        let _gone = self.entries.remove(&client);
    }

    /// The ring that is parked for this client keeps only its last receipt, if it is not parked for
    /// good.
    pub(crate) fn shorten(&mut self, client: u32)
        ensures at { map.get self.new client ≡ shortened_at (map.get self.old client) }
        ensures others { (c : ℕ) → c ≢ client → map.get self.new c ≡ map.get self.old c }
    {
        if self.get(client).is_none() {
            return;
        }
        let place = self.swap(client, Place::Out);
        let _out = self.swap(client, shortened(place));
    }
}

// The place, with only the last receipt, if it is not parked for good.
fn shortened(place: Place) -> Place
    ensures { result ≡ spec.shortened place }
{
    match place {
        Place::Out => Place::Out,
        Place::Parked {
            mut ring,
            deeds,
            for_good,
        } => {
            if !for_good {
                ring.cut(1);
            }
            Place::Parked {
                ring,
                deeds,
                for_good,
            }
        }
    }
}
