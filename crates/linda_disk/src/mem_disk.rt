//! A disk in memory, which comes out of a crash in each of three ways.

ghost use Rattle.std.specs.Prelude.{◌≡◌, true};
ghost use Rattle.linda_disk.specs.DiskHistory.{fits};

use crate::call::{Bytes, DeviceCall};
use crate::disk::Disk;
use crate::disk_history::DiskHistory;
use crate::fault::DiskFault;
use crate::torn::Torn;
use crate::trouble::{Power, Trouble, Turn};
use crate::turn::{counted, is_done, told};
use std::alloc::Global;

/// A disk in memory. It keeps a record of its writes, cuts and syncs since it was made or last
/// crashed, so that contracts can say what a crash may leave: the record takes as much memory as
/// was written since then.
pub struct MemDisk {
    alloc: Global,
    history: DiskHistory,
    trouble: Trouble,
    failures: u64,
    ghost begun: { fits history ≡ true },
}

impl Drop for MemDisk {
    fn drop(self) {
        let MemDisk {
            alloc: _,
            history: _,
            trouble: _,
            failures: _,
        } = self;
    }
}

impl MemDisk {
    ghost use Rattle.std.specs.Prelude.{◌≡◌, ◌≤◌, ℕ, [], length, Some, IfOk, IfErr, OnOk, OnErr};
    ghost use Rattle.linda_disk.specs.declared.trouble.Power.TheVariants.{On, OnFor};
    ghost use Rattle.linda_disk.specs.View.{IsDurable};
    ghost use Rattle.linda_disk.specs.DiskHistory.{content, synced, filled};
    ghost use Rattle.linda_disk.specs.MemDisk as disk;

    /// An empty disk.
    pub fn new(alloc: Global) -> MemDisk
        ensures history { disk.history result ≡ record { first = []; calls = [] } }
        ensures durable { IsDurable (disk.view result) }
        ensures failures { disk.failures result ≡ 0 }
        ensures trouble { disk.trouble result ≡ record { power = On; failing = None } }
    {
        MemDisk {
            alloc,
            history: DiskHistory::empty(alloc),
            trouble: Trouble::none(),
            failures: 0,
        }
    }

    /// A disk that holds these bytes, all of them synced.
    ///
    /// # Errors
    ///
    /// `Memory`.
    pub fn from_bytes(alloc: Global, bytes: Vec<u8>) -> Result<MemDisk, DiskFault>
        ensures history { IfOk result (λ d. disk.history d
            ≡ record { first = bytes.items; calls = [] }) }
        ensures durable { IfOk result (λ d. IsDurable (disk.view d)) }
        ensures failures { IfOk result (λ d. disk.failures d ≡ 0) }
        ensures trouble { IfOk result (λ d. disk.trouble d
            ≡ record { power = On; failing = None }) }
        ensures err { IfErr result (λ fault. fault ≡ DiskFault.Memory) }
    {
        let history = DiskHistory::new(alloc, bytes)?;
        Ok(MemDisk {
            alloc,
            history,
            trouble: Trouble::none(),
            failures: 0,
        })
    }

    /// What a read gives. It is no device call: it never fails, and counts for nothing.
    pub fn bytes(&self) -> &[u8]
        ensures { result.now ≡ (disk.view self.now).seen }
    {
        self.history.bytes()
    }

    /// How often the disk has failed.
    pub fn failures(&self) -> u64
        ensures { result ≡ disk.failures self.now }
    {
        self.failures
    }

    /// Lets `passes` writes, cuts and syncs more pass, and then the power goes off inside the next
    /// one: that call fails, a write or a cut done in full, and so does each call after it, reads
    /// too. It takes the place of an earlier fuse, and a crash takes it away.
    pub fn fuse(&mut self, passes: u64)
        ensures trouble { disk.trouble self.new
            ≡ record { power = OnFor passes; failing = (disk.trouble self.old).failing } }
        ensures history { disk.history self.new ≡ disk.history self.old }
        ensures failures { disk.failures self.new ≡ disk.failures self.old }
    {
        self.trouble.power = Power::OnFor(passes);
    }

    /// Lets the call of this number, from 0, fail and change nothing: lengths and reads count too.
    /// Those after it work. It takes the place of an earlier one, and a crash takes it away.
    pub fn fail_once(&mut self, number: u64)
        ensures trouble { disk.trouble self.new
            ≡ record { power = (disk.trouble self.old).power; failing = Some number } }
        ensures history { disk.history self.new ≡ disk.history self.old }
        ensures failures { disk.failures self.new ≡ disk.failures self.old }
    {
        self.trouble.failing = Some(number);
    }

    /// The machine stops and starts again: the disk holds what this crash leaves, all of it synced,
    /// and nothing more is to go wrong. The count of failures lasts.
    ///
    /// # Errors
    ///
    /// `Memory`, and then all is as before.
    pub fn crash(&mut self, torn: Torn) -> Result<(), DiskFault>
        // The image is one that a crash may leave, and which one.
        ensures left { OnOk result ((disk.view self.old).may_leave (disk.view self.new).seen) }
        ensures kept { torn ≡ Torn.Kept
            → OnOk result ((disk.view self.new).seen ≡ content (disk.history self.old)) }
        ensures lost { torn ≡ Torn.Lost
            → OnOk result ((disk.view self.new).seen ≡ synced (disk.history self.old)) }
        ensures filled { (b : ℕ) → torn ≡ Torn.Filled b
            → OnOk result ((disk.view self.new).seen ≡ filled b (disk.history self.old)) }
        ensures durable { OnOk result (IsDurable (disk.view self.new)) }
        ensures trouble { OnOk result (disk.trouble self.new
            ≡ record { power = On; failing = None }) }
        ensures failures { disk.failures self.new ≡ disk.failures self.old }
        ensures err { IfErr result (λ fault. fault ≡ DiskFault.Memory) }
        ensures same { OnErr result (self.new ≡ self.old) }
    {
        self.history = self.history.crashed(self.alloc, torn)?;
        self.trouble = Trouble::none();
        Ok(())
    }
}

impl MemDisk {
    ghost use Rattle.std.specs.Prelude.{◌≡◌, true};
    ghost use Rattle.linda_disk.specs.DiskHistory.{fits, after};
    ghost use Rattle.linda_disk.specs.Trouble.{turn_of_read, turn_of_call};
    ghost use Rattle.linda_disk.specs.MemDisk as disk;

    /// Begins a length or a read.
    fn begin_read(&mut self) -> Result<(), DiskFault>
        ensures { disk.GoesBy (turn_of_read (disk.trouble self.old)) (disk.history self.old)
            result self.old self.new }
    {
        let (turn, trouble) = self.trouble.at_read();
        self.failures = counted(self.failures, turn)?;
        self.trouble = trouble;
        told(turn)
    }

    /// Makes a call, as far as its turn lets it.
    fn make(&mut self, call: DeviceCall) -> Result<(), DiskFault>
        requires { fits (after call (disk.history self.old)) ≡ true }
        ensures { let turn = turn_of_call (disk.trouble self.old) in
            disk.GoesBy turn (disk.history_at turn.0 call (disk.history self.old))
            result self.old self.new }
    {
        let (turn, trouble) = self.trouble.at_call();
        let failures = counted(self.failures, turn)?;
        if is_done(turn, &call) {
            self.history.make(call)?;
        }
        self.failures = failures;
        self.trouble = trouble;
        told(turn)
    }
}

impl Disk for MemDisk {
    ghost use Rattle.std.specs.Prelude.{◌≡◌, ◌+◌, ◌≤◌, length, take, drop, OnOk};
    ghost use Rattle.linda_disk.specs.declared.call.DeviceCall.TheVariants.{Write, Cut, Sync};
    ghost use Rattle.linda_disk.specs.Trouble.{turn_of_read, turn_of_call};
    ghost use Rattle.linda_disk.specs.Disk.{Writes, Cuts, Syncs};
    ghost use Rattle.linda_disk.specs.MemDisk as disk;
    ghost use Rattle.linda_disk.specs.DiskHistoryLaws as laws;

    ghost honest = { λ _. Unit {0} };

    ghost view = { disk.view };

    ghost failures = { disk.failures };

    fn len(&mut self) -> Result<usize, DiskFault> {
        self.begin_read()?;
        Ok(self.history.bytes().len())
    }

    fn read_at(&mut self, at: usize, buffer: &mut [u8]) -> Result<(), DiskFault>
        requires { at + length buffer.old ≤ length (disk.view self.old).seen }
        ensures bytes { OnOk result
            (buffer.new ≡ take (length buffer.old) (drop at (disk.view self.old).seen)) }
        ensures goes { disk.GoesBy (turn_of_read (disk.trouble self.old)) (disk.history self.old)
            result self.old self.new }
    {
        let len = buffer.len();
        self.begin_read()?;
        buffer.copy_from_slice(&self.history.bytes()[at..at + len]);
        Ok(())
    }

    fn write_at(&mut self, at: usize, bytes: &[u8]) -> Result<(), DiskFault>
        requires { at ≤ length (disk.view self.old).seen }
        ensures writes { Writes at bytes.now result (disk.view self.old) (disk.view self.new) }
        ensures goes { let turn = turn_of_call (disk.trouble self.old) in
            disk.GoesBy turn (disk.history_at turn.0 (Write at bytes.now) (disk.history self.old))
            result self.old self.new }
    {
        // A call that is to fail takes no memory.
        let copy = match self.trouble.at_call() {
            (Turn::Fails, _) => Vec::new(self.alloc),
            _ => Vec::from_slice(self.alloc, bytes)?,
        };
        self.make(DeviceCall::Write(at, Bytes::new(copy)))
    }

    fn cut(&mut self, len: usize) -> Result<(), DiskFault>
        ensures cuts { Cuts len result (disk.view self.old) (disk.view self.new) }
        ensures goes { let turn = turn_of_call (disk.trouble self.old) in
            disk.GoesBy turn (disk.history_at turn.0 (Cut len) (disk.history self.old))
            result self.old self.new }
    {
        self.make(DeviceCall::Cut(len))
    }

    fn sync(&mut self) -> Result<(), DiskFault>
        ensures syncs { Syncs result (disk.view self.old) (disk.view self.new) }
        ensures goes { let turn = turn_of_call (disk.trouble self.old) in
            disk.GoesBy turn (disk.history_at turn.0 Sync (disk.history self.old))
            result self.old self.new }
    {
        self.make(DeviceCall::Sync)
    }

    ghost timed = { λ d _. laws.timed d.history d.begun };
}
