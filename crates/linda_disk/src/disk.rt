//! A disk, as its user sees it: what a read gives, and what a crash may leave.

ghost use Rattle.std.specs.Prelude.{◌≡◌, ◌+◌, ◌≤◌, ◌↔◌, ℕ, length, take, drop, IfOk, OnOk};
ghost use Rattle.linda_disk.specs.View.{View, IsTimed};
ghost use Rattle.linda_disk.specs.Disk.{Keeps, Writes, Cuts, Syncs, CountsFailure};

use crate::fault::DiskFault;

/// One file on a device. All but the count of failures is promised of an honest disk only.
///
/// Until a sync succeeds, a crash may leave any bytes in the ranges that were written since the
/// last one and past the length at that sync, any length between the least and the greatest since
/// then, and a cut may not have happened. Each call is one step from what a crash could leave
/// before it to what it may leave after it, so that several calls between two syncs add up by
/// themselves.
pub trait Disk: Drop {
    /// The disk meets the model. No call changes it.
    ghost honest: { Self → Type 0 };

    /// The disk at this moment.
    ghost view: { Self → View };

    /// How often the device has failed.
    ghost failures: { Self → ℕ };

    /// How many bytes there are.
    ///
    /// # Errors
    ///
    /// `Device` if the device failed, which it counts.
    fn len(&mut self) -> Result<usize, DiskFault>
        ensures value { honest self.old → IfOk result (λ n. n ≡ length (view self.old).seen) }
        ensures keeps { honest self.old → Keeps (view self.old) (view self.new) }
        ensures honest { honest self.old ↔ honest self.new }
        ensures cause { CountsFailure result (failures self.old) (failures self.new) };

    /// Fills the buffer with the bytes from this offset on. After an error the buffer may hold
    /// anything.
    ///
    /// # Errors
    ///
    /// `Device` if the device failed, which it counts.
    fn read_at(&mut self, at: usize, buffer: &mut [u8]) -> Result<(), DiskFault>
        requires { honest self.old → at + length buffer.old ≤ length (view self.old).seen }
        ensures bytes { honest self.old
            → OnOk result (buffer.new ≡ take (length buffer.old) (drop at (view self.old).seen)) }
        ensures keeps { honest self.old → Keeps (view self.old) (view self.new) }
        ensures honest { honest self.old ↔ honest self.new }
        ensures cause { CountsFailure result (failures self.old) (failures self.new) };

    /// Writes the bytes at this offset, over what is there and past the end.
    ///
    /// # Errors
    ///
    /// `Device` if the device failed, which it counts: the write may be done, in part too.
    /// `Memory`.
    fn write_at(&mut self, at: usize, bytes: &[u8]) -> Result<(), DiskFault>
        requires { honest self.old → at ≤ length (view self.old).seen }
        ensures writes { honest self.old
            → Writes at bytes.now result (view self.old) (view self.new) }
        ensures honest { honest self.old ↔ honest self.new }
        ensures cause { CountsFailure result (failures self.old) (failures self.new) };

    /// Cuts the file to this length.
    ///
    /// # Errors
    ///
    /// `Device` if the device failed, which it counts: the cut may be done. `Memory`.
    fn cut(&mut self, len: usize) -> Result<(), DiskFault>
        requires { honest self.old → len ≤ length (view self.old).seen }
        ensures cuts { honest self.old → Cuts len result (view self.old) (view self.new) }
        ensures honest { honest self.old ↔ honest self.new }
        ensures cause { CountsFailure result (failures self.old) (failures self.new) };

    /// Makes all that was written durable: a crash then leaves it.
    ///
    /// # Errors
    ///
    /// `Device` if the device failed, which it counts: some of it may be there. `Memory`.
    fn sync(&mut self) -> Result<(), DiskFault>
        ensures syncs { honest self.old → Syncs result (view self.old) (view self.new) }
        ensures honest { honest self.old ↔ honest self.new }
        ensures cause { CountsFailure result (failures self.old) (failures self.new) };

    /// An honest disk's moments are those of its calls.
    ghost timed: { (disk : Self) → honest disk → IsTimed (view disk) };
}
