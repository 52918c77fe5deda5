//! A server whose deeds are on a disk before it answers.

mod create;
mod fall;
mod handle;
mod limiting;
mod open;
mod preallocation;
mod reserving;
mod serve;
mod snapshot;
mod steps;
mod stop;
mod trim;

ghost use Rattle.std.specs.Prelude.{◌≡◌, ◌||◌, [], nat_le, true, false, Some};
ghost use Rattle.linda_server.specs.declared.limits.TheConstants.{SNAPSHOT_RECORDS};
ghost use Rattle.linda_server.specs.Pairs.{PairsNow};
ghost use Rattle.linda_server.specs.Disks.{disks_of, is_there, is_old};
ghost use Rattle.linda_server.specs.Server.{both_of, is_usable, bank_in_use, form_in_use};
ghost use Rattle.linda_server.specs.Server.{end_in_use};
ghost use Rattle.linda_server.specs.Server.{records_in_use, limit_in_use, BothHonest, IsKeptFor};
ghost use Rattle.linda_server.specs.Server.{StandNow};
ghost use Rattle.linda_server.specs.Calls.{IsLimit, IsWithOrWithout};
ghost use Rattle.linda_server.specs.Next.{IsNextFor};
ghost use Rattle.linda_snap.specs.BookCopy.{IsCopyFor};

use crate::disks::{Disks, InUse, is_old};
use crate::limits::SNAPSHOT_RECORDS;
use crate::next::NextBank;
use linda_bag::IndexBag;
use linda_disk::Disk;
use linda_ghost::Moment;
use linda_hold::{Holds, Waits};
use linda_journal::Bank;
use linda_snap::BookCopy;
use linda_store_state::{Deed, State};
use linda_store_step::Store;
use std::hash::RandomState;

/// A server on two disks, of which one holds the bank in use. What it answers for is on that bank
/// before it answers.
///
/// While it is up its store is not spent, its bank has room to be used, and the two disks represent
/// the state. While it is down, they represent the state before the call in which it went down, or
/// the one after the deeds of that call.
///
/// A snapshot may be written in steps, while the server goes on: then the other disk has a part of
/// the next bank after a first gate that is closed, and that bank follows the state. Before it
/// begins its clients may be copied in pieces, and that copy follows the state too.
#[derive(Drop)]
pub struct Durable<D: Disk> {
    store: Store<IndexBag>,
    disks: Disks<Bank<D>, D>,
    limit: usize,
    down: bool,
    // The state before the call in which it went down, which only contracts see.
    before: Moment<State<IndexBag>>,
    // The deeds of that call, which may be on the disks.
    lost: Vec<Deed>,
    // The next bank, while a snapshot is written in steps.
    next: Option<NextBank>,
    // A copy of the clients for the next snapshot in steps, while it is made and until that begins.
    copy: Option<BookCopy>,
    ghost there: { is_there disks ≡ true },
    ghost bounded: { IsLimit limit },
    ghost live: { down ≡ false → store.is_spent ≡ false },
    ghost ready: { down ≡ false → is_usable disks ≡ true },
    ghost limited: { down ≡ false → limit_in_use disks ≡ limit },
    ghost none_lost: { down ≡ false → lost.items ≡ [] },
    ghost kept: { down ≡ false → ∥ IsKeptFor disks store.state ∥₁ },
    ghost begun: { down ≡ false → ∥ IsNextFor next disks store.state ∥₁ },
    ghost copied: { down ≡ false → ∥ IsCopyFor copy store.state.book ∥₁ },
    ghost fallen: { down ≡ true → BothHonest disks
        → PairsNow (both_of disks)
        (IsWithOrWithout before.value lost.items) },
}

impl<D: Disk> Durable<D> {
    ghost use Rattle.linda_store_state.specs.State.{IsState};
    ghost use Rattle.linda_store_step.specs.Store.{IsOrderly};

    /// What the server keeps, in its ranges.
    pub fn state(&self) -> &State<IndexBag>
        ensures state { result.now ≡ self.now.store.state }
        ensures ranges { IsState result.now }
    {
        self.store.state()
    }

    /// Which tuple is held for which request.
    pub fn holds(&self) -> &Holds
        ensures { result.now ≡ self.now.store.soft.holds }
    {
        self.store.holds()
    }

    /// The requests that wait, in order of arrival.
    pub fn waits(&self) -> &Waits
        ensures { result.now ≡ self.now.store.soft.waits }
    {
        self.store.waits()
    }

    /// From now on what waits is kept by random keys that no client knows, if nobody waits yet. A
    /// program that serves strangers calls this at its start. What other calls answer does not
    /// change.
    pub fn choose_keys(&mut self, keys: RandomState)
        ensures store { self.new.store ≡ self.old.store }
        ensures disks { (self.new.disks ≡ self.old.disks) × (self.new.limit ≡ self.old.limit) }
        ensures down { (self.new.down ≡ self.old.down)
            × (self.new.before.value ≡ self.old.before.value)
            × (self.new.lost.items ≡ self.old.lost.items) }
    {
        self.store.choose_keys(keys);
    }

    /// Sets the present second, from which on `Holds` and `Waits` count how long a tuple is held
    /// and a request waits. Seconds never fall; until one is set nothing is noted. What other calls
    /// answer does not change.
    pub fn set_second(&mut self, second: u64)
        ensures store { self.new.store ≡ self.old.store }
        ensures disks { (self.new.disks ≡ self.old.disks) × (self.new.limit ≡ self.old.limit) }
        ensures down { (self.new.down ≡ self.old.down)
            × (self.new.before.value ≡ self.old.before.value)
            × (self.new.lost.items ≡ self.old.lost.items) }
    {
        self.store.set_second(second);
    }

    /// Whether the server is down. While it is not, it is in order, and crashes now leave its
    /// state.
    pub fn is_down(&self) -> bool
        ensures down { result ≡ self.now.down }
        ensures orderly { IsOrderly self.now.store.state self.now.store.soft }
        ensures stands { result ≡ false → StandNow self.now.disks self.now.store.state }
    {
        let _ = self.store.is_spent();
        self.down
    }

    /// Whether a snapshot is due: the bank in use has so many records, or is not in the form of new
    /// banks, which every snapshot has.
    pub fn needs_snapshot(&self) -> bool
        ensures { result ≡ (is_old (form_in_use self.now.disks)
            || nat_le SNAPSHOT_RECORDS (records_in_use self.now.disks)) }
    {
        self.is_of_old_form() || self.disks.records() >= SNAPSHOT_RECORDS
    }

    /// Whether the bank in use is not in the form of new banks. A snapshot mends that.
    pub fn is_of_old_form(&self) -> bool
        ensures { result ≡ is_old (form_in_use self.now.disks) }
    {
        is_old(self.disks.form())
    }

    /// Which bank is in use: of two, that of the greater generation; `None` only while none is, as
    /// the server may be down.
    pub fn in_use(&self) -> Option<InUse>
        ensures { result ≡ bank_in_use self.now.disks }
    {
        self.disks.in_use()
    }

    /// How many records the bank in use has: those since the last snapshot.
    pub fn records(&self) -> usize
        ensures { result ≡ records_in_use self.now.disks }
    {
        self.disks.records()
    }

    /// How many bytes of the bank in use are taken.
    pub fn used(&self) -> usize
        ensures { result ≡ end_in_use self.now.disks }
    {
        self.disks.end()
    }

    /// The most bytes that a bank may take.
    pub fn limit(&self) -> usize
        ensures { result ≡ self.now.limit }
    {
        self.limit
    }

    /// The left disk and the right one.
    pub fn into_disks(self) -> (D, D)
        ensures { Some result ≡ disks_of (λ b. b.disk) self.disks }
    {
        let Durable { disks, .. } = self;
        disks.into_both()
    }
}
