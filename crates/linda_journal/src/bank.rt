//! A bank: what a server keeps on one disk, a body and then a journal. Its first letters are those
//! of the form in which it spells values: one that is made is in `BANK_FORM`, one that is opened
//! stays in its own.

mod preallocation;

ghost use Rattle.std.specs.Prelude.{◌≡◌, ◌<◌, ◌≤◌, ◌+◌, ◌*◌, ◌^◌, [], ◌↔◌, ℕ, List, length};
ghost use Rattle.std.specs.Prelude.{IfOk, IfErr, true, false};
ghost use Rattle.linda_store_state.specs.DeedFormat.{written};
ghost use Rattle.linda_disk.specs.View.{IsDurable};
ghost use Rattle.linda_disk.specs.Runs.{RunsTo, takes};
ghost use Rattle.linda_journal.specs.declared.limits.TheConstants.{MAX_DEEDS, MAX_RECORDS};
ghost use Rattle.linda_journal.specs.declared.limits.TheConstants.{MIN_BYTES};
ghost use Rattle.linda_journal.specs.Bank.{IsSettled};
ghost use Rattle.linda_journal.specs.Renewal.{IsWhole, IsWholeWith, creates, unlocks};
ghost use Rattle.linda_journal.specs.Renewal.{unlocks_empty};
ghost use Rattle.linda_store_state.specs.declared.deed.Deed.{Deed};

use crate::contents::load;
use crate::fault::BankFault;
use crate::gate::{open_gate, put};
use crate::limits::MIN_BYTES;
use crate::making::{inscribe, spell_front};
use crate::record::{Record, behind_gate, spell_all};
use crate::size::{records_for, records_len};
use crate::whole::Whole;
use linda_disk::{Disk, DiskFault, MemDisk};
use linda_store_state::{BANK_FORM, Deed};
use linda_tuple::Form;
use std::alloc::Global;

/// A bank on a disk, as it was created or opened.
#[derive(Drop)]
pub struct Bank<D: Disk> {
    pub(crate) disk: D,
    form: Form,
    generation: u64,
    limit: usize,
    end: usize,
    records: usize,
    is_spent: bool,
    ghost inside: { is_spent ≡ false → D.honest disk → end < length (D.view disk).seen },
    ghost counted: { records ≤ end },
}

impl<D: Disk> Bank<D> {
    ghost use Rattle.linda_journal.specs.Calls.{Opens, Appends, AppendsAll};

    /// The form in which the bank spells values, which its first letters give.
    pub fn form(&self) -> Form
        ensures { result ≡ self.now.form }
    {
        self.form
    }

    /// The bank's generation.
    pub fn generation(&self) -> u64
        ensures { result ≡ self.now.generation }
    {
        self.generation
    }

    /// The offset of the closed gate at which the journal ends.
    pub fn end(&self) -> usize
        ensures { result ≡ self.now.end }
    {
        self.end
    }

    /// How many records the journal has.
    pub fn records(&self) -> usize
        ensures { result ≡ self.now.records }
    {
        self.records
    }

    /// The most bytes that the bank may have.
    pub fn limit(&self) -> usize
        ensures { result ≡ self.now.limit }
    {
        self.limit
    }

    /// From now on the bank may have so many bytes. No device call is made.
    pub fn set_limit(&mut self, limit: usize)
        ensures limit { self.new.limit ≡ limit }
        ensures same { (self.new.disk ≡ self.old.disk) × (self.new.form ≡ self.old.form)
            × (self.new.generation ≡ self.old.generation) × (self.new.end ≡ self.old.end)
            × (self.new.records ≡ self.old.records) × (self.new.is_spent ≡ self.old.is_spent) }
    {
        self.limit = limit;
    }

    /// Ends the use of the bank: `append` returns `Spent` then, and the disk is to be opened again.
    /// No device call is made.
    pub fn retire(&mut self)
        ensures spent { self.new.is_spent ≡ true }
        ensures same { (self.new.disk ≡ self.old.disk) × (self.new.form ≡ self.old.form)
            × (self.new.generation ≡ self.old.generation) × (self.new.limit ≡ self.old.limit)
            × (self.new.end ≡ self.old.end) × (self.new.records ≡ self.old.records) }
    {
        self.is_spent = true;
    }

    /// The disk that the bank is on.
    pub fn into_disk(self) -> D
        ensures { result ≡ self.disk }
    {
        let Bank { disk, .. } = self;
        disk
    }

    /// Makes a bank of this generation with this body, whose journal has no record, on an empty
    /// disk: a closed gate and a sync, all that comes after it and a sync, the gate opened and a
    /// sync. It is in `BANK_FORM`.
    ///
    /// # Errors
    ///
    /// `Full` and `Memory` before the disk is touched; `Disk` if the device failed, and `Memory` if
    /// the disk found none. Each hands the disk back.
    pub fn create(
        alloc: Global,
        disk: D,
        generation: u64,
        body: &[u8],
        limit: usize,
    ) -> Result<Bank<D>, (BankFault, D)>
        requires low { 1 ≤ generation }
        requires short { length body.now < 2 ^ 32 }
        ensures done { D.honest disk
            → IfOk result (λ b. IsSettled written generation body.now [] b.end (D.view b.disk)) }
        ensures new { IfOk result (λ b. (b.form ≡ written) × (b.generation ≡ generation)
            × (b.limit ≡ limit)
            × (b.records ≡ 0) × (b.is_spent ≡ false)) }
        // It is Full exactly if the bank is longer than its limit, and then the disk is as it was.
        ensures room { IfOk result (λ b. b.end < limit) }
        ensures full { IfErr result (λ e.
            (e.0 ≡ BankFault.Full ↔ limit < MIN_BYTES + 1 + length body.now)
            × (e.0 ≡ BankFault.Full → e.1 ≡ disk)) }
        // A crash at any moment leaves no bank, or the whole one.
        ensures runs { RunsTo D.Disk (λ b. b.disk) (creates generation body.now) (takes 6)
            BankFault.Disk disk result }
    {
        if limit < MIN_BYTES + 1 + body.len() {
            return Err((BankFault::Full, disk));
        }
        let Ok(bytes) = spell_front(alloc, generation, body) else {
            return Err((BankFault::Memory, disk));
        };
        let mut disk = disk;
        match inscribe(&mut disk, &bytes) {
            Err(fault) => Err((fault, disk)),
            Ok(()) => Ok(Bank {
                disk,
                form: BANK_FORM,
                generation,
                limit,
                end: MIN_BYTES + body.len(),
                records: 0,
                is_spent: false,
            }),
        }
    }

    /// Opens the bank that the disk holds, and gives its body and the records of its journal, which
    /// is read in the form that the bank's letters give. The disk is synced first; nothing is
    /// written.
    ///
    /// # Errors
    ///
    /// `NoBank`, `Damaged`, `Disk` if the device failed, `Memory`; each hands the disk back.
    pub fn open(
        alloc: Global,
        disk: D,
        limit: usize,
    ) -> Result<(Bank<D>, Vec<u8>, Vec<Record>), (BankFault, D)>
        ensures { Opens disk limit ((D.view disk).moment + 1) result }
    {
        let mut disk = disk;
        match disk.sync() {
            Err(fault) => Err((BankFault::from(fault), disk)),
            Ok(()) => Bank::open_synced(alloc, disk, limit),
        }
    }

    /// Opens a bank as `open` does, on a disk of which a crash leaves what a read gives, as after a
    /// sync. It is not synced again.
    ///
    /// # Errors
    ///
    /// As those of `open`.
    pub fn open_synced(
        alloc: Global,
        disk: D,
        limit: usize,
    ) -> Result<(Bank<D>, Vec<u8>, Vec<Record>), (BankFault, D)>
        requires { D.honest disk → IsDurable (D.view disk) }
        ensures { Opens disk limit (D.view disk).moment result }
    {
        let mut disk = disk;
        match load(alloc, &mut disk) {
            Err(fault) => Err((fault, disk)),
            Ok(contents) => {
                let bank = Bank {
                    disk,
                    form: contents.form,
                    generation: contents.generation,
                    limit,
                    end: contents.journal.end,
                    records: contents.journal.records.len(),
                    is_spent: false,
                };
                Ok((bank, contents.body, contents.journal.records))
            }
        }
    }

    /// Adds one record of these deeds to the journal, spelled in the bank's form: a write of all of
    /// it after the closed gate at the end, a sync, a write that opens the gate, a sync.
    ///
    /// # Errors
    ///
    /// `Spent` before all others, then `Full` if one of the deeds has no spelling in the bank's
    /// form or the record would pass the limit, which is judged before the record is spelled, and
    /// then `Memory`: all is as before. `Disk` if the device failed, and `Memory` if the disk found
    /// none: the record is there or it is not, and the bank is spent.
    pub fn append(&mut self, alloc: Global, deeds: &[Deed]) -> Result<(), BankFault>
        requires some { 1 ≤ length deeds.now }
        requires few { length deeds.now ≤ MAX_DEEDS }
        ensures { Appends self.old deeds.now result self.new }
    {
        self.append_all(alloc, deeds)
    }

    /// Adds the records of these deeds to the journal, as many as they take, each but the last of
    /// as many as a record may have: a write of all of them after the closed gate at the end, a
    /// sync, a write that opens the first gate, a sync. So a crash leaves all of them or none.
    ///
    /// # Errors
    ///
    /// As those of `append`; after `Disk`, and `Memory` if the disk found none, all of the records
    /// are there or none is.
    pub fn append_all(&mut self, alloc: Global, deeds: &[Deed]) -> Result<(), BankFault>
        requires some { 1 ≤ length deeds.now }
        requires few { length deeds.now ≤ MAX_DEEDS * MAX_RECORDS }
        ensures { AppendsAll self.old deeds.now result self.new }
    {
        if self.is_spent {
            return Err(BankFault::Spent);
        }
        let Some(len) = records_len(self.form, deeds) else {
            return Err(BankFault::Full);
        };
        if !has_room(self.limit, self.end, len) {
            return Err(BankFault::Full);
        }
        let bytes = spell_all(alloc, self.form, deeds, len)?;
        self.is_spent = true;
        put(&mut self.disk, self.end, behind_gate(&bytes))?;
        self.end += len;
        self.records += records_for(deeds.len());
        self.is_spent = false;
        Ok(())
    }
}

impl Bank<MemDisk> {
    ghost use Rattle.std.specs.Prelude.{◌≡◌};
    ghost use Rattle.linda_disk.specs.declared.trouble.Power.TheVariants.{OnFor};
    ghost use Rattle.linda_disk.specs.MemDisk as mem_disk;

    /// Lets so many writes, cuts and syncs more pass on the bank's disk, and then the power goes
    /// off inside the next one, as `MemDisk::fuse` says. Nothing else changes.
    pub fn fuse(&mut self, passes: u64)
        ensures trouble { mem_disk.trouble self.new.disk
            ≡ record { power = OnFor passes; failing = (mem_disk.trouble self.old.disk).failing } }
        ensures history { mem_disk.history self.new.disk ≡ mem_disk.history self.old.disk }
        ensures failures { mem_disk.failures self.new.disk ≡ mem_disk.failures self.old.disk }
        ensures same { (self.new.form ≡ self.old.form) × (self.new.generation ≡ self.old.generation)
            × (self.new.limit ≡ self.old.limit) × (self.new.end ≡ self.old.end)
            × (self.new.records ≡ self.old.records) × (self.new.is_spent ≡ self.old.is_spent) }
    {
        self.disk.fuse(passes);
    }
}

/// Opens the first gate of a disk that holds all of a new bank, in `BANK_FORM`: a write of that
/// gate and a sync.
///
/// # Errors
///
/// `Device` if the device failed, `Memory` if the disk found none; each hands the disk back, on
/// which the gate may be open.
pub fn unlock<D: Disk>(whole: Whole<D>, limit: usize) -> Result<Bank<D>, (DiskFault, D)>
    ensures done { (body : List ℕ) → D.honest whole.disk
        → IsWhole written whole.generation body whole.end (D.view whole.disk)
        → IfOk result (λ b. IsSettled written whole.generation body [] b.end (D.view b.disk)) }
    ensures new { IfOk result (λ b. (b.form ≡ written) × (b.generation ≡ whole.generation)
        × (b.limit ≡ limit)
        × (b.end ≡ whole.end) × (b.records ≡ 0) × (b.is_spent ≡ false)) }
    // A crash at any moment leaves no bank, or the whole new one. It is a write and a sync.
    ensures runs { RunsTo D.Disk (λ b. b.disk) (unlocks_empty whole.generation whole.end) (takes 2)
        DiskFault.Device whole.disk result }
{
    let Whole {
        mut disk,
        generation,
        end,
    } = whole;
    match open_gate(&mut disk, 0) {
        Err(fault) => Err((fault, disk)),
        Ok(()) => Ok(Bank {
            disk,
            form: BANK_FORM,
            generation,
            limit,
            end,
            records: 0,
            is_spent: false,
        }),
    }
}

/// The same for a disk on which a new bank of this generation was written in steps, with so many
/// records in its journal, which ends at this offset.
///
/// # Errors
///
/// `Device` if the device failed, `Memory` if the disk found none; each hands the disk back.
pub(crate) fn unlock_with<D: Disk>(
    disk: D,
    generation: u64,
    limit: usize,
    end: usize,
    records: usize,
) -> Result<Bank<D>, (DiskFault, D)>
    requires inside { D.honest disk → end < length (D.view disk).seen }
    requires counted { records ≤ end }
    ensures done { (body : List ℕ) (rs : List (List Deed)) → D.honest disk
        → IsWholeWith written generation body rs end (D.view disk)
        → IfOk result (λ b. IsSettled written generation body rs b.end (D.view b.disk)) }
    ensures new { IfOk result (λ b. (b.form ≡ written) × (b.generation ≡ generation)
        × (b.limit ≡ limit)
        × (b.end ≡ end) × (b.records ≡ records) × (b.is_spent ≡ false)) }
    // A crash at any moment leaves no bank, or the whole new one. It is a write and a sync.
    ensures runs { RunsTo D.Disk (λ b. b.disk) (unlocks generation end) (takes 2)
        DiskFault.Device disk result }
{
    let mut disk = disk;
    match open_gate(&mut disk, 0) {
        Err(fault) => Err((fault, disk)),
        Ok(()) => Ok(Bank {
            disk,
            form: BANK_FORM,
            generation,
            limit,
            end,
            records,
            is_spent: false,
        }),
    }
}

// Whether so many bytes from this offset on, and the gate after them, keep within the limit.
fn has_room(limit: usize, at: usize, len: usize) -> bool
    ensures yes { result ≡ true → at + len < limit }
    ensures no { result ≡ false → limit ≤ at + len }
{
    at < limit && len < limit - at
}
