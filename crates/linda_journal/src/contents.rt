//! A bank read from its disk.

ghost use Rattle.std.specs.Prelude.{◌≡◌, ◌≢◌, ◌<◌, ◌≤◌, ◌+◌, ◌-◌, ◌↔◌, take, drop, length, IfOk};
ghost use Rattle.std.specs.Prelude.{IfErr, OnOk};
ghost use Rattle.linda_disk.specs.View.{IsDurable};
ghost use Rattle.linda_disk.specs.Disk.{TellsFailures};
ghost use Rattle.linda_disk.specs.Run.{LeavesOnly};
ghost use Rattle.linda_journal.specs.declared.limits.TheConstants.{MIN_BYTES};
ghost use Rattle.linda_journal.specs.Journal.{AreAt, deeds_of};
ghost use Rattle.linda_journal.specs.Bank.{IsSettled};
ghost use Rattle.linda_journal.specs.Image.{IsFaultOfBank};

use crate::fault::BankFault;
use crate::image::read_image;
use crate::journal::Journal;
use crate::limits::MIN_BYTES;
use linda_disk::Disk;
use linda_tuple::Form;
use std::alloc::Global;

/// What a disk holds as a bank.
#[derive(Debug, Drop)]
pub(crate) struct Contents {
    pub form: Form,
    pub generation: u64,
    pub body: Vec<u8>,
    pub journal: Journal,
}

/// Reads the bank on a disk of which a crash leaves what a read gives.
///
/// # Errors
///
/// `NoBank`, `Damaged`, `Disk` if the device failed, `Memory`.
pub(crate) fn load<D: Disk>(alloc: Global, disk: &mut D) -> Result<Contents, BankFault>
    requires { D.honest disk.old → IsDurable (D.view disk.old) }
    ensures found { D.honest disk.old → IfOk result (λ o. IsSettled o.form o.generation o.body.items
        (deeds_of o.journal.records.items) o.journal.end (D.view disk.new)) }
    ensures within { D.honest disk.old
        → IfOk result (λ o. o.journal.end < length (D.view disk.new).seen) }
    ensures gates { IfOk result (λ o.
        AreAt o.form (MIN_BYTES + length o.body.items) o.journal.records.items) }
    ensures counted { IfOk result (λ o. length o.journal.records.items ≤ o.journal.end) }
    ensures seen { D.honest disk.old
        → OnOk result ((D.view disk.new).seen ≡ (D.view disk.old).seen) }
    ensures fault { D.honest disk.old
        → IfErr result (λ f. f ≢ BankFault.Disk → IsFaultOfBank (D.view disk.old).seen f) }
    ensures any_moment { D.honest disk.old
        → LeavesOnly (D.view disk.old) (D.view disk.new) (D.view disk.old).may_leave }
    ensures honest { D.honest disk.old ↔ D.honest disk.new }
    ensures cause { IfErr result (λ fault. TellsFailures BankFault.Disk fault
        (D.failures disk.old) (D.failures disk.new)) }
    ensures steady { OnOk result (D.failures disk.new ≡ D.failures disk.old) }
    ensures clock { D.honest disk.old
        → OnOk result ((D.view disk.new).moment ≡ (D.view disk.old).moment) }
{
    let bytes = read_all(alloc, disk)?;
    let image = read_image(alloc, &bytes)?;
    Ok(Contents {
        form: image.form,
        generation: image.generation,
        body: body_of(bytes, image.at),
        journal: image.journal,
    })
}

// The body of a bank of these bytes, whose journal begins at this offset. It is left in their
// memory, and the room of the others is given back.
fn body_of(bytes: Vec<u8>, at: usize) -> Vec<u8>
    requires { (MIN_BYTES ≤ at) × (at ≤ length bytes.items) }
    ensures { result.items ≡ take (at - MIN_BYTES) (drop MIN_BYTES bytes.items) }
{
    let mut body = bytes;
    body.copy_within(MIN_BYTES..at, 0);
    body.truncate(at - MIN_BYTES);
    body.shrink_to_fit();
    body
}

// Reads all of a disk of which a crash leaves what a read gives.
fn read_all<D: Disk>(alloc: Global, disk: &mut D) -> Result<Vec<u8>, BankFault>
    requires { D.honest disk.old → IsDurable (D.view disk.old) }
    ensures bytes { D.honest disk.old → IfOk result (λ v. v.items ≡ (D.view disk.old).seen) }
    ensures seen { D.honest disk.old
        → OnOk result ((D.view disk.new).seen ≡ (D.view disk.old).seen) }
    ensures durable { D.honest disk.old → OnOk result (IsDurable (D.view disk.new)) }
    ensures any_moment { D.honest disk.old
        → LeavesOnly (D.view disk.old) (D.view disk.new) (D.view disk.old).may_leave }
    ensures known { IfErr result (λ f. f ≢ BankFault.Disk → f ≡ BankFault.Memory) }
    ensures honest { D.honest disk.old ↔ D.honest disk.new }
    ensures cause { IfErr result (λ fault. TellsFailures BankFault.Disk fault
        (D.failures disk.old) (D.failures disk.new)) }
    ensures steady { OnOk result (D.failures disk.new ≡ D.failures disk.old) }
    ensures clock { D.honest disk.old
        → OnOk result ((D.view disk.new).moment ≡ (D.view disk.old).moment) }
{
    let len = disk.len()?;
    let mut bytes = vec![in alloc; 0; len]?;
    disk.read_at(0, &mut bytes)?;
    Ok(bytes)
}
