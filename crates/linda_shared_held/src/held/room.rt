//! Room on both disks, made before records need it: so a device that is full refuses deeds, and
//! ends no server.

ghost use Rattle.std.specs.Prelude.{◌≡◌, ◌≤◌, length};
ghost use Rattle.linda_store_step.specs.declared.size.TheConstants.{MAX_GROUP};
ghost use Rattle.linda_shared_held.specs.Kept.{IsKnownStill};

use super::Held;
use crate::room::Room;
use crate::snapshot_policy::SnapshotPolicy;
use linda_disk::Disk;
use linda_server::Durable;
use linda_wire::Message;
use std::alloc::Global;
use std::sync::ledger::Ledger;

/// The room of two takes.
const LEAST: usize = 64;

/// How much longer than the bank in use the other file may be.
const SLACK: usize = 4_194_304;

impl<D: Disk, L: Ledger> Held<D, L> {
    /// From now on records are written only where the bank's file has bytes already, and the other
    /// file has as many, for the next snapshot. If the device has no room for more, a snapshot is
    /// taken; if that makes none, the bank's limit is what its file has, and deeds beyond that are
    /// Full. Nothing else changes.
    pub fn keep_room(&mut self)
        ensures same { (self.new.server ≡ self.old.server)
            × (self.new.opening.value ≡ self.old.opening.value)
            × (self.new.base.value ≡ self.old.base.value)
            × (self.new.receipts.items ≡ self.old.receipts.items)
            × (self.new.count ≡ self.old.count)
            × (self.new.accounts ≡ self.old.accounts)
            × (self.new.boxes ≡ self.old.boxes)
            × (self.new.policy ≡ self.old.policy)
            × (self.new.recall ≡ self.old.recall) }
    {
        self.room = Room::kept(self.server.limit());
    }

    /// Whether the device had no more room when it was last asked, so that the bank's limit is what
    /// its file has.
    pub fn is_short(&self) -> bool {
        self.room.is_short
    }

    /// Makes room for the deeds of these messages, which are served next, if room is kept. No
    /// session sees a change, but what the server finds no room for.
    pub fn make_room(&mut self, alloc: Global, messages: &[(u32, Message)])
        requires few { length messages.now ≤ MAX_GROUP }
        ensures same { (self.new.opening.value ≡ self.old.opening.value)
            × (self.new.count ≡ self.old.count) × (self.new.boxes ≡ self.old.boxes) }
        ensures total { self.new.accounts.total ≡ self.old.accounts.total }
    {
        if !self.room.is_kept {
            return;
        }
        let back = self.room.kept_back(messages);
        if self.room.is_short {
            self.lower_limit(back);
            return;
        }
        if !self.has_room_for(alloc, messages, back) {
            self.run_short(alloc);
            self.lower_limit(back);
        }
    }

    // The device has no more room: a snapshot is due.
    fn run_short(&mut self, alloc: Global)
        ensures same { (self.new.opening.value ≡ self.old.opening.value)
            × (self.new.base.value ≡ self.old.base.value)
            × (self.new.receipts.items ≡ self.old.receipts.items)
            × (self.new.count ≡ self.old.count)
            × (self.new.accounts ≡ self.old.accounts)
            × (self.new.boxes ≡ self.old.boxes)
            × (self.new.recall ≡ self.old.recall) }
    {
        self.room.is_short = true;
        self.policy.record_refusal();
        reach_a_little(&mut self.server, &mut self.room, alloc);
    }

    // The bank in use may have as many bytes as its file, less so many.
    fn lower_limit(&mut self, back: usize)
        ensures same { (self.new.opening.value ≡ self.old.opening.value)
            × (self.new.base.value ≡ self.old.base.value)
            × (self.new.receipts.items ≡ self.old.receipts.items)
            × (self.new.count ≡ self.old.count)
            × (self.new.accounts ≡ self.old.accounts)
            × (self.new.boxes ≡ self.old.boxes)
            × (self.new.recall ≡ self.old.recall) }
    {
        lower_limit(&mut self.server, self.room.reach.saturating_sub(back));
    }

    // Whether there is room for the deeds of these messages, and so many bytes more; it is made
    // first, by a snapshot if the device has no more.
    fn has_room_for(&mut self, alloc: Global, messages: &[(u32, Message)], more: usize) -> bool
        requires few { length messages.now ≤ MAX_GROUP }
        ensures same { (self.new.opening.value ≡ self.old.opening.value)
            × (self.new.count ≡ self.old.count) × (self.new.boxes ≡ self.old.boxes) }
        ensures total { self.new.accounts.total ≡ self.old.accounts.total }
    {
        let need = self.server.room_for(messages);
        if need == 0 {
            return true;
        }
        let need = need.saturating_add(more);
        let to = self.server.used().saturating_add(need);
        if to <= self.room.reach || self.has_reach(alloc, to) {
            return true;
        }
        if self.server.records() == 0 || self.snapshot(alloc).is_err() {
            return false;
        }
        let to = self.server.used().saturating_add(need);
        self.has_reach(alloc, to)
    }

    /// Makes room up to this length of the bank in use before it is needed; returns whether it is
    /// there. If it is not, and room is kept, a snapshot is due. No session sees a change.
    pub fn extend(&mut self, alloc: Global, to: usize) -> bool
        ensures same { (self.new.opening.value ≡ self.old.opening.value)
            × (self.new.base.value ≡ self.old.base.value)
            × (self.new.receipts.items ≡ self.old.receipts.items)
            × (self.new.count ≡ self.old.count)
            × (self.new.accounts ≡ self.old.accounts)
            × (self.new.boxes ≡ self.old.boxes)
            × (self.new.recall ≡ self.old.recall) }
    {
        if !self.room.is_kept {
            return self.reaches(alloc, to, false);
        }
        if self.room.is_short {
            return false;
        }
        let to = self.room.within(to);
        if to <= self.room.reach {
            return true;
        }
        if self.reaches(alloc, to, true) {
            self.room.reach = to;
            return true;
        }
        self.policy.record_refusal();
        false
    }

    // Has the file of the bank in use reach this length, or both files.
    fn reaches(&mut self, alloc: Global, to: usize, both: bool) -> bool
        ensures same { (self.new.opening.value ≡ self.old.opening.value)
            × (self.new.base.value ≡ self.old.base.value)
            × (self.new.receipts.items ≡ self.old.receipts.items)
            × (self.new.count ≡ self.old.count)
            × (self.new.accounts ≡ self.old.accounts)
            × (self.new.boxes ≡ self.old.boxes)
            × (self.new.recall ≡ self.old.recall) }
    {
        has_files_reach(&mut self.server, alloc, to, both)
    }

    /// Looks again how much room there is, after a snapshot, or some time after there was no more.
    /// If the other file is much longer than the bank in use, it is cut. No session sees a change,
    /// but what the server finds no room for.
    pub fn renew_room(&mut self, alloc: Global)
        ensures same { (self.new.opening.value ≡ self.old.opening.value)
            × (self.new.base.value ≡ self.old.base.value)
            × (self.new.receipts.items ≡ self.old.receipts.items)
            × (self.new.count ≡ self.old.count)
            × (self.new.accounts ≡ self.old.accounts)
            × (self.new.boxes ≡ self.old.boxes)
            × (self.new.recall ≡ self.old.recall) }
    {
        if self.room.is_kept {
            renew(&mut self.server, &mut self.room, alloc);
        }
    }

    // Has both files reach beyond this length, or up to it; returns whether they do.
    fn has_reach(&mut self, alloc: Global, to: usize) -> bool
        ensures same { (self.new.opening.value ≡ self.old.opening.value)
            × (self.new.base.value ≡ self.old.base.value)
            × (self.new.receipts.items ≡ self.old.receipts.items)
            × (self.new.count ≡ self.old.count)
            × (self.new.accounts ≡ self.old.accounts)
            × (self.new.boxes ≡ self.old.boxes)
            × (self.new.policy ≡ self.old.policy)
            × (self.new.recall ≡ self.old.recall) }
    {
        reach_one_of(&mut self.server, &mut self.room, alloc, to)
    }
}

// Has both files reach far beyond this length, or a little, or up to it; returns whether they do.
fn reach_one_of<D: Disk>(server: &mut Durable<D>, room: &mut Room, alloc: Global, to: usize) -> bool
    ensures { IsKnownStill server.old server.new }
{
    let (far, near) = (room.far(to), room.near(to));
    if has_both_reach(server, alloc, far) {
        room.reach = far;
        return true;
    }
    if has_both_reach(server, alloc, near) {
        room.reach = near;
        return true;
    }
    if to <= room.most && has_both_reach(server, alloc, to) {
        room.reach = to;
        return true;
    }
    false
}

// Has both files reach a little beyond what is taken, if nothing more is known of how far they do.
fn reach_a_little<D: Disk>(server: &mut Durable<D>, room: &mut Room, alloc: Global)
    ensures { IsKnownStill server.old server.new }
{
    let used = server.used();
    if used < room.reach {
        return;
    }
    let (near, least) = (room.near(used), room.within(used.saturating_add(LEAST)));
    if has_both_reach(server, alloc, near) {
        room.reach = near;
    } else if has_both_reach(server, alloc, least) {
        room.reach = least;
    }
}

// Has the file of the bank in use reach this length, or both files.
fn has_files_reach<D: Disk>(server: &mut Durable<D>, alloc: Global, to: usize, both: bool) -> bool
    ensures { IsKnownStill server.old server.new }
{
    if both {
        return has_both_reach(server, alloc, to);
    }
    has_bank_reach(server, alloc, to)
}

// Has both files reach this length, the other one first; or only that of the bank in use, while a
// snapshot is written in steps. Returns whether they do.
fn has_both_reach<D: Disk>(server: &mut Durable<D>, alloc: Global, to: usize) -> bool
    ensures { IsKnownStill server.old server.new }
{
    has_other_reach(server, alloc, to) && has_bank_reach(server, alloc, to)
}

// Has the other file reach this length, unless a snapshot is written there.
fn has_other_reach<D: Disk>(server: &mut Durable<D>, alloc: Global, to: usize) -> bool
    ensures { IsKnownStill server.old server.new }
{
    if server.is_snapshot_begun() {
        return true;
    }
    match server.reserve(alloc, to, usize::MAX) {
        Ok(len) => len >= to,
        Err(_) => false,
    }
}

// Has the file of the bank in use reach this length.
fn has_bank_reach<D: Disk>(server: &mut Durable<D>, alloc: Global, to: usize) -> bool
    ensures { IsKnownStill server.old server.new }
{
    match server.preallocate(alloc, to) {
        Ok(there) => there,
        Err(_) => false,
    }
}

// The bank in use may have so many bytes, or one more than are taken.
fn lower_limit<D: Disk>(server: &mut Durable<D>, to: usize)
    ensures { IsKnownStill server.old server.new }
{
    let limit = to.max(server.used().saturating_add(1));
    if limit != server.limit() {
        let _ = server.set_limit(limit);
    }
}

// Forgets how far the bank in use reaches, lets it have as many bytes as it may, and cuts the other
// file if it is much longer than the bank.
fn renew<D: Disk>(server: &mut Durable<D>, room: &mut Room, alloc: Global)
    ensures { IsKnownStill server.old server.new }
{
    if server.is_snapshot_begun() {
        return;
    }
    room.begin_anew();
    if room.is_short {
        room.is_short = !server.set_limit(room.most);
    }
    let used = server.used().saturating_add(1);
    let most = used.saturating_add(SLACK);
    let _ = server.reserve(alloc, used, most).is_err();
}
