//! A new bank that is written in steps, after a first gate that is closed. Each step ends synced,
//! and what a crash leaves in between is no bank. Once all is there, the gate is opened.

ghost use Rattle.std.specs.Prelude.{◌≡◌, [], ◌++◌, ◌<◌, ◌≤◌, ◌+◌, ◌-◌, ℕ, List, length, min};
ghost use Rattle.std.specs.Prelude.{false, IfOk, OnOk};
ghost use Rattle.linda_store_state.specs.declared.deed.Deed.{Deed};
ghost use Rattle.linda_store_state.specs.DeedFormat.{written};
ghost use Rattle.linda_disk.specs.Runs.{Runs, RunsTo, takes};
ghost use Rattle.linda_journal.specs.Bank.{IsSettled};
ghost use Rattle.linda_journal.specs.Renewal.{IsFilled, IsLast, IsWholeWith};
ghost use Rattle.linda_journal.specs.Renewal.{fills, unlocks, finishes};

use crate::bank::{Bank, unlock_with};
use crate::closed::Closed;
use linda_disk::{Disk, DiskFault, write_synced};

/// A disk that is not in use, on which a new bank is written in steps after a first gate that is
/// closed.
#[derive(Drop)]
pub struct Filling<D: Disk> {
    disk: D,
    // Where the next bytes go.
    at: usize,
    ghost behind: { 1 ≤ at },
    ghost within: { D.honest disk → at ≤ length (D.view disk).seen },
}

impl<D: Disk> Filling<D> {
    /// Begins a new bank. No device call is made.
    pub fn begin(closed: Closed<D>) -> Filling<D>
        ensures same { (result.disk ≡ closed.disk) × (result.at ≡ 1) }
        ensures filled { D.honest result.disk → IsFilled [] 1 (D.view result.disk) }
    {
        let disk = closed.into_disk();
        Filling { disk, at: 1 }
    }

    /// Goes on with a disk on which a new bank is written up to this offset. No device call is
    /// made.
    pub fn resume(disk: D, at: usize) -> Filling<D>
        requires behind { 1 ≤ at }
        requires within { D.honest disk → at ≤ length (D.view disk).seen }
        ensures { (result.disk ≡ disk) × (result.at ≡ at) }
    {
        Filling { disk, at }
    }

    /// The offset after what is written.
    pub fn at(&self) -> usize
        ensures { result ≡ self.now.at }
    {
        self.at
    }

    /// The disk, whose first gate is closed.
    pub fn into_disk(self) -> D
        ensures { result ≡ self.disk }
    {
        let Filling { disk, .. } = self;
        disk
    }

    /// Writes these bytes after those written before, and then sees to it that they are on the
    /// disk: a write and a sync.
    ///
    /// # Errors
    ///
    /// `Device` if the device failed, `Memory` if the disk found none, or has no offset for so many
    /// bytes; each hands the disk back.
    pub fn add(self, bytes: &[u8]) -> Result<Filling<D>, (DiskFault, D)>
        ensures filled { (front : List ℕ) → D.honest self.disk
            → IsFilled front self.at (D.view self.disk)
            → IfOk result (λ f. IsFilled (front ++ bytes.now) f.at (D.view f.disk)) }
        ensures place { IfOk result (λ f. f.at ≡ self.at + length bytes.now) }
        // A crash at any moment leaves no bank.
        ensures runs { RunsTo D.Disk (λ f. f.disk) (fills self.at) (takes 2) DiskFault.Device
            self.disk result }
    {
        let Filling { mut disk, at, .. } = self;
        let Some(next) = at.checked_add(bytes.len()) else {
            return Err((DiskFault::Memory, disk));
        };
        match fill_more(&mut disk, at, bytes) {
            Err(fault) => Err((fault, disk)),
            Ok(()) => Ok(Filling { disk, at: next }),
        }
    }

    /// Opens the first gate of a bank that is there to the closed gate at its end, with so many
    /// records in its journal: a write and a sync.
    ///
    /// # Errors
    ///
    /// `Device` if the device failed, `Memory` if the disk found none; each hands the disk back.
    pub fn unlock(
        self,
        generation: u64,
        limit: usize,
        records: usize,
    ) -> Result<Bank<D>, (DiskFault, D)>
        ensures done { (body : List ℕ) (rs : List (List Deed)) → D.honest self.disk
            → IsWholeWith written generation body rs (self.at - 1) (D.view self.disk)
            → IfOk result (λ b. IsSettled written generation body rs b.end (D.view b.disk)) }
        ensures new { IfOk result (λ b. (b.form ≡ written) × (b.generation ≡ generation)
            × (b.limit ≡ limit) × (b.end ≡ self.at - 1) × (b.is_spent ≡ false)) }
        ensures records { IfOk result (λ b. b.records ≡ min records (self.at - 1)) }
        // A crash at any moment leaves no bank, or the whole new one.
        ensures runs { RunsTo D.Disk (λ b. b.disk) (unlocks generation (self.at - 1)) (takes 2)
            DiskFault.Device self.disk result }
    {
        let Filling { disk, at, .. } = self;
        let end = at - 1;
        // (each record has bytes before the end)
        unlock_with(disk, generation, limit, end, records.min(end))
    }

    /// Writes the last bytes of the new bank after those written before, and then opens its first
    /// gate, as `add` and `unlock` do.
    ///
    /// # Errors
    ///
    /// `Device` if the device failed, `Memory` if the disk found none, or has no offset for so many
    /// bytes; each hands the disk back.
    pub fn finish(
        self,
        bytes: &[u8],
        generation: u64,
        limit: usize,
        records: usize,
    ) -> Result<Bank<D>, (DiskFault, D)>
        ensures done { (front body : List ℕ) (rs : List (List Deed)) → D.honest self.disk
            → IsFilled front self.at (D.view self.disk)
            → IsLast generation body rs front bytes.now
            → IfOk result (λ b. IsSettled written generation body rs b.end (D.view b.disk)) }
        ensures new { IfOk result (λ b. (b.form ≡ written) × (b.generation ≡ generation)
            × (b.limit ≡ limit) × (b.is_spent ≡ false)) }
        // The gate at its end is the last byte, and the bank counts so many records.
        ensures place { IfOk result (λ b. b.end + 1 ≡ self.at + length bytes.now) }
        ensures records { IfOk result (λ b. b.records ≡ min records b.end) }
        // A crash at any moment leaves no bank, or the whole new one.
        ensures runs { RunsTo D.Disk (λ b. b.disk) (finishes generation self.at bytes.now)
            (takes 4) DiskFault.Device self.disk result }
    {
        match self.add(bytes) {
            Err((fault, disk)) => Err((fault, disk)),
            Ok(whole) => match whole.unlock(generation, limit, records) {
                Err((fault, disk)) => Err((fault, disk)),
                Ok(bank) => Ok(bank),
            },
        }
    }
}

// Writes these bytes after those that end at this offset.
fn fill_more<D: Disk>(disk: &mut D, at: usize, bytes: &[u8]) -> Result<(), DiskFault>
    requires within { D.honest disk.old → at ≤ length (D.view disk.old).seen }
    ensures filled { (front : List ℕ) → D.honest disk.old → IsFilled front at (D.view disk.old)
        → OnOk result (IsFilled (front ++ bytes.now) (at + length bytes.now) (D.view disk.new)) }
    ensures long { D.honest disk.old
        → OnOk result (at + length bytes.now ≤ length (D.view disk.new).seen) }
    ensures runs { Runs D.Disk (fills at) (takes 2) DiskFault.Device disk.old result disk.new }
{
    write_synced(disk, at, bytes)
}
