//! Accounts of all sessions under the server's lock: what was reported to each.

mod compare;
mod recall;

ghost use Rattle.std.specs.Prelude.{◌≡◌, ◌+◌, ◌*◌, ◌<◌, ◌≤◌, ◌^◌, ◌⊎◌, true, false, ℕ, IfOk, OnErr};
ghost use Rattle.std.specs.Prelude.{IfSome, IfNone, IsSome, Some, None};
ghost use Rattle.std.specs.FinMap as map;
ghost use Rattle.linda_shared_accounts.specs.declared.place.Place.TheVariants as places;
ghost use Rattle.linda_shared_accounts.specs.Accounts as seen;
ghost use Rattle.linda_shared_accounts.specs.Accounts.{accounts_of, is_away, account_at, place_for};
ghost use Rattle.linda_shared_accounts.specs.Accounts.{with_place};
ghost use Rattle.linda_shared_accounts.specs.Accounts.{seats_out, deeds_back, ComesBack};

use crate::account::Account;
use crate::limits::{ACCOUNT_PARTS, PARTS};
use crate::place::Place;
use crate::places::Places;
use crate::ring::Ring;
use crate::tokens::Tokens;
use std::alloc::{AllocError, Global};
use std::marker::Model;
use std::sync::ledger::{Blank, Ledger, Share};

/// How many deeds were reported in all, and a place for each client whose seat is out or parked for
/// good, or to which deeds were reported.
#[derive(Drop)]
pub struct Accounts<L: Ledger> {
    tokens: Tokens<L>,
    places: Places,
}

impl<L: Ledger> Model for Accounts<L> {
    ghost use Rattle.linda_shared_accounts.specs.Accounts as seen;
    ghost use Rattle.linda_shared_accounts.specs.Accounts.{accounts_of, Tallies};
    ghost use Rattle.linda_shared_accounts.specs.AccountsCodes.{accounts_code};

    ghost Value = { seen.Accounts };

    ghost coded = { accounts_code };

    ghost view = { λ t. accounts_of t.tokens.total t.places };

    ghost invariant = { λ t. Tallies t.tokens.out t.tokens.back t.places };
}

impl<L: Ledger> Accounts<L> {
    /// Nothing was reported, and no client has a seat.
    pub fn new(alloc: Global, blank: Blank) -> Accounts<L>
        requires { (blank.name ≡ L.name) × (blank.parts ≡ L.parts) × (L.parts ≡ PARTS) }
        ensures { result ≡ accounts_of 0 map.empty }
    {
        Accounts {
            tokens: Tokens::new(blank),
            places: Places::new(alloc),
        }
    }

    /// How many deeds were reported in all.
    pub fn total(&self) -> u64
        ensures { result ≡ self.now.total }
    {
        self.tokens.total()
    }

    /// Whether the client can have no seat now: its seat is out, or is parked for good.
    pub fn is_out(&self, client: u32) -> bool
        ensures { result ≡ is_away (map.get self.now.places client) }
    {
        self.places.is_away(client)
    }

    /// The client's seat goes out: with the account that was parked for it, or with a new one.
    /// `None` if the client can have no seat now, or if no parts are left; then nothing changes.
    ///
    /// # Errors
    ///
    /// `AllocError` if memory runs out; then nothing changes. It comes only for a client with no
    /// place.
    pub fn go_out(&mut self, alloc: Global, client: u32) -> Result<Option<Account<L>>, AllocError>
        ensures account { IfOk result (λ found. IfSome found (λ a.
            a ≡ account_at client (map.get self.old.places client))) }
        ensures out { IfOk result (λ found.
            IfSome found (λ _. (is_away (map.get self.old.places client) ≡ false)
            × (self.new ≡ accounts_of self.old.total
            (map.insert self.old.places client places.Out)))) }
        ensures none { IfOk result (λ found. IfNone found ((self.new ≡ self.old)
            × ((is_away (map.get self.old.places client) ≡ true)
            ⊎ (PARTS < ACCOUNT_PARTS * (seats_out self.old.places + 1))))) }
        ensures err { OnErr result (self.new ≡ self.old) }
        ensures absent { OnErr result (map.get self.old.places client ≡ None) }
    {
        if self.is_out(client) || !self.tokens.has_parts() {
            return Ok(None);
        }
        if self.places.get(client).is_some() {
            return Ok(Some(self.go_out_again(client)));
        }
        let ring = Ring::new(alloc, client)?;
        self.places.put(client, Place::Out)?;
        let share = self.tokens.lend(0);
        Ok(Some(Account {
            ring,
            deeds: 0,
            asked: 0,
            share,
        }))
    }

    // The client's seat goes out with the account that was parked for it.
    fn go_out_again(&mut self, client: u32) -> Account<L>
        requires place { (is_away (map.get self.old.places client) ≡ false)
            × IsSome (map.get self.old.places client) }
        requires parts { ACCOUNT_PARTS * (seats_out self.old.places + 1) ≤ PARTS }
        ensures account { result ≡ account_at client (map.get self.old.places client) }
        ensures out { self.new ≡ accounts_of self.old.total
            (map.insert self.old.places client places.Out) }
    {
        match self.places.swap(client, Place::Out) {
            Place::Parked { ring, deeds, .. } => {
                let share = self.tokens.lend(deeds);
                Account {
                    ring,
                    deeds,
                    asked: 0,
                    share,
                }
            }
            Place::Out => unreachable!(),
        }
    }

    /// An account comes back to its client's place, for its next session or for good. One to which
    /// no deed was reported is given up, if it is not for good. Takes no memory: the place has been
    /// there since the seat went out. An account that does not belong there, or with messages on
    /// their way, is lost, and its seat stays out.
    pub fn park(&mut self, account: Account<L>, for_good: bool)
        ensures parked { ComesBack self.old.places account → self.new
            ≡ accounts_of self.old.total
            (with_place self.old.places account.client (place_for account for_good)) }
        ensures lost { (ComesBack self.old.places account → ⊥) → self.new ≡ self.old }
    {
        let client = account.client();
        if account.asked != 0 || !self.places.has_out(client) {
            return;
        }
        let Account {
            ring,
            deeds,
            share,
            ..
        } = account;
        self.tokens.take_back(share);
        if deeds == 0 && !for_good {
            self.places.remove(client);
        } else {
            let place = Place::Parked {
                ring,
                deeds,
                for_good,
            };
            let _out = self.places.swap(client, place);
        }
    }

    /// One more deed is reported to the owner of this part.
    pub fn add(&mut self, part: &mut Share<L>)
        requires { (0 < part.old.parts) × (self.old.total + 1 < 2 ^ 64) }
        ensures total { self.new ≡ accounts_of (self.old.total + 1) self.old.places }
        ensures part { (part.new.parts ≡ part.old.parts) × (part.new.amount ≡ part.old.amount + 1) }
    {
        self.tokens.add(part);
    }

    /// Whether all seats are back: then all that was reported was reported to them.
    pub fn audit(&mut self) -> bool
        ensures back { result ≡ true → (seats_out self.old.places ≡ 0)
            × (self.old.total ≡ deeds_back self.old.places) }
        ensures none_out { result ≡ true → (c : ℕ) → map.get self.old.places c ≡ Some places.Out
            → ⊥ }
        ensures out { result ≡ false → 0 < seats_out self.old.places }
        ensures same { self.new ≡ self.old }
    {
        self.tokens.audit()
    }
}
