//! Choice between two banks, and the state that they have.

ghost use Rattle.std.specs.Prelude.{◌≡◌, ◌≢◌, ◌+◌, ◌<◌, ◌↔◌, false, Ok, Err, IfOk, IfErr};
ghost use Rattle.std.specs.Prelude.{OnOk};
ghost use Rattle.linda_store_state.specs.State.{IsState};
ghost use Rattle.linda_disk.specs.View.{IsDurable};
ghost use Rattle.linda_disk.specs.Disk.{CountsFailure, TellsFailures, TellsFailuresOfTwo};
ghost use Rattle.linda_disk.specs.Run.{LeavesOnly};
ghost use Rattle.linda_journal.specs.Heading.{IsHeading};
ghost use Rattle.linda_snap.specs.Stands.{IsStored, IsCounted};
ghost use Rattle.linda_snap.specs.Choice.{choice, IsChoice, Chooses, IsRecovered, IsUnrecovered};
ghost use Rattle.linda_snap.specs.Choice.{IsFaultOfFile, fault_on, fault_of_device};
ghost use Rattle.linda_snap.specs.Choice.{fault_of_replay};

use crate::reading::{SnapshotFault, get_state};
use crate::replay::{ReplayFault, replay};
use linda_bag::Bag;
use linda_disk::{Disk, DiskFault};
use linda_journal::{Bank, BankFault, Heading, MIN_BYTES, Record, read_heading};
use linda_store_state::State;
use linda_tuple::Form;
use std::alloc::Global;
use thiserror::Error;

/// Why no bank was chosen.
#[derive(Clone, Copy, Debug, PartialEq, Eq, Error)]
pub enum ChoiceFault {
    /// Neither disk holds a bank.
    #[error("no store")]
    NoStore,
    /// The bank on the right disk, or on the left one, is damaged at this offset: 1 if other
    /// letters or generation 0 follow its first gate, 5 if both have the same generation, 17 if its
    /// snapshot does not fit or is none, else the offset of the gate of the first record that is
    /// none or that has a deed which is not allowed.
    #[error("damaged at {offset}")]
    Damaged { right: bool, offset: usize },
    /// The device failed, which it counts.
    #[error("the device failed")]
    Disk,
    /// No memory.
    #[error("out of memory")]
    Memory,
}

impl From<DiskFault> for ChoiceFault {
    ghost from_gives = { λ fault told. told ≡ fault_of_device fault };

    fn from(fault: DiskFault) -> ChoiceFault {
        match fault {
            DiskFault::Device => ChoiceFault::Disk,
            DiskFault::Memory => ChoiceFault::Memory,
        }
    }
}

/// The bank that was chosen of two, and the state that it represents.
#[derive(Drop)]
pub struct Chosen<B: Bag, D: Disk> {
    /// The state.
    pub state: State<B>,
    /// The bank in use.
    pub bank: Bank<D>,
    /// The disk that is not in use.
    pub other: D,
    /// Whether the bank in use is on the right disk.
    pub is_right: bool,
}

/// Which of two disks holds the bank in use, and the state that it represents. Both disks are
/// synced first; nothing is written.
///
/// # Errors
///
/// `NoStore`, `Damaged`, `Disk` if a device failed, `Memory`; each hands the disks back, left and
/// right.
pub fn choose_bank<B: Bag, D: Disk>(
    alloc: Global,
    left: D,
    right: D,
    limit: usize,
) -> Result<Chosen<B, D>, (ChoiceFault, D, D)>
    ensures { Chooses left right limit result }
{
    let mut left = left;
    let mut right = right;
    match look_at_both(&mut left, &mut right) {
        Err(fault) => Err((fault, left, right)),
        Ok(false) => match open_file(alloc, left, limit) {
            Err((fault, left)) => Err((told_on(false, fault), left, right)),
            Ok((state, bank)) => Ok(Chosen {
                state,
                bank,
                other: right,
                is_right: false,
            }),
        },
        Ok(true) => match open_file(alloc, right, limit) {
            Err((fault, right)) => Err((told_on(true, fault), left, right)),
            Ok((state, bank)) => Ok(Chosen {
                state,
                bank,
                other: left,
                is_right: true,
            }),
        },
    }
}

// The fault that is reported for a fault of the bank on that side.
fn told_on(right: bool, fault: BankFault) -> ChoiceFault
    ensures { result ≡ fault_on right fault }
{
    match fault {
        BankFault::Spent => ChoiceFault::NoStore,
        BankFault::Full => ChoiceFault::NoStore,
        BankFault::NoBank => ChoiceFault::NoStore,
        BankFault::Damaged(offset) => ChoiceFault::Damaged { right, offset },
        BankFault::Disk => ChoiceFault::Disk,
        BankFault::Memory => ChoiceFault::Memory,
    }
}

// Whether the right one is chosen of the banks on two disks, which are synced first.
fn look_at_both<D: Disk>(left: &mut D, right: &mut D) -> Result<bool, ChoiceFault>
    ensures found { D.honest left.old → D.honest right.old
        → IfOk result (λ b. IsChoice (D.view left.old).seen (D.view right.old).seen (Ok b)) }
    ensures fault { D.honest left.old → D.honest right.old
        → IfErr result (λ f. f ≢ ChoiceFault.Disk → f ≢ ChoiceFault.Memory
        → IsChoice (D.view left.old).seen (D.view right.old).seen (Err f)) }
    ensures left_seen { D.honest left.old
        → OnOk result ((D.view left.new).seen ≡ (D.view left.old).seen) }
    ensures right_seen { D.honest right.old
        → OnOk result ((D.view right.new).seen ≡ (D.view right.old).seen) }
    ensures left_durable { D.honest left.old → OnOk result (IsDurable (D.view left.new)) }
    ensures right_durable { D.honest right.old → OnOk result (IsDurable (D.view right.new)) }
    ensures left_moment { D.honest left.old
        → LeavesOnly (D.view left.old) (D.view left.new) (D.view left.old).may_leave }
    ensures right_moment { D.honest right.old
        → LeavesOnly (D.view right.old) (D.view right.new) (D.view right.old).may_leave }
    ensures left_honest { D.honest left.old ↔ D.honest left.new }
    ensures right_honest { D.honest right.old ↔ D.honest right.new }
    ensures steady { OnOk result ((D.failures left.new ≡ D.failures left.old)
        × (D.failures right.new ≡ D.failures right.old)) }
    ensures left_clock { D.honest left.old
        → OnOk result ((D.view left.new).moment ≡ (D.view left.old).moment + 1) }
    ensures right_clock { D.honest right.old
        → OnOk result ((D.view right.new).moment ≡ (D.view right.old).moment + 1) }
    ensures cause { IfErr result (λ fault. TellsFailuresOfTwo ChoiceFault.Disk fault
        (D.failures left.old) (D.failures right.old) (D.failures left.new) (D.failures right.new)) }
{
    let one = look_at(left)?;
    let two = look_at(right)?;
    let side = choose(one, two)?;
    Ok(side)
}

// Opens the bank on a disk that was synced, with the state that it represents.
fn open_file<B: Bag, D: Disk>(
    alloc: Global,
    disk: D,
    limit: usize,
) -> Result<(State<B>, Bank<D>), (BankFault, D)>
    requires { D.honest disk → IsDurable (D.view disk) }
    ensures found { D.honest disk → IfOk result (λ x.
        IsStored x.1.form x.1.generation x.1.end (D.view x.1.disk) x.0) }
    ensures counted { D.honest disk → IfOk result (λ x.
        IsCounted x.1.form x.1.generation x.1.end x.1.records (D.view x.1.disk) x.0) }
    ensures seen { D.honest disk
        → IfOk result (λ x. (D.view x.1.disk).seen ≡ (D.view disk).seen) }
    ensures fault { D.honest disk → IfErr result (λ e. e.0 ≢ BankFault.Disk
        → IsFaultOfFile (D.view disk).seen e.0) }
    ensures any_moment { D.honest disk
        → IfOk result (λ x. LeavesOnly (D.view disk) (D.view x.1.disk) (D.view disk).may_leave)
        × IfErr result (λ e. LeavesOnly (D.view disk) (D.view e.1) (D.view disk).may_leave) }
    ensures new { IfOk result (λ x. (x.1.limit ≡ limit) × (x.1.is_spent ≡ false)) }
    ensures ranges { IfOk result (λ x. IsState x.0) }
    ensures honest { IfOk result (λ x. D.honest disk ↔ D.honest x.1.disk)
        × IfErr result (λ e. D.honest disk ↔ D.honest e.1) }
    ensures cause { IfErr result (λ e. TellsFailures BankFault.Disk e.0
        (D.failures disk) (D.failures e.1)) }
    ensures steady { IfOk result (λ x. D.failures x.1.disk ≡ D.failures disk) }
    ensures clock { D.honest disk
        → IfOk result (λ x. (D.view x.1.disk).moment ≡ (D.view disk).moment) }
{
    match Bank::open_synced(alloc, disk, limit) {
        Err((fault, disk)) => Err((fault, disk)),
        Ok((bank, body, records)) => match recover(alloc, bank.form(), body, records) {
            Ok(state) => Ok((state, bank)),
            Err(fault) => Err((fault, bank.into_disk())),
        },
    }
}

// What the bank on a disk begins with; the disk is synced first.
fn look_at<D: Disk>(disk: &mut D) -> Result<Heading, DiskFault>
    ensures heading { D.honest disk.old → IfOk result (IsHeading (D.view disk.old).seen) }
    ensures seen { D.honest disk.old
        → OnOk result ((D.view disk.new).seen ≡ (D.view disk.old).seen) }
    ensures durable { D.honest disk.old → OnOk result (IsDurable (D.view disk.new)) }
    ensures any_moment { D.honest disk.old
        → LeavesOnly (D.view disk.old) (D.view disk.new) (D.view disk.old).may_leave }
    ensures honest { D.honest disk.old ↔ D.honest disk.new }
    ensures cause { CountsFailure result (D.failures disk.old) (D.failures disk.new) }
    ensures clock { D.honest disk.old
        → OnOk result ((D.view disk.new).moment ≡ (D.view disk.old).moment + 1) }
{
    disk.sync()?;
    let len = disk.len()?;
    if len < MIN_BYTES {
        return Ok(Heading::NoBank);
    }
    let mut front = [0; MIN_BYTES];
    disk.read_at(0, &mut front)?;
    Ok(read_heading(&front))
}

/// Whether the right one is chosen of two banks that begin so.
///
/// # Errors
///
/// `NoStore`, `Damaged`.
pub fn choose(left: Heading, right: Heading) -> Result<bool, ChoiceFault>
    ensures { result ≡ choice left right }
{
    match (left, right) {
        (Heading::Foreign, _) => Err(ChoiceFault::Damaged {
            right: false,
            offset: 1,
        }),
        (Heading::NoBank, Heading::Foreign) | (Heading::Bank { .. }, Heading::Foreign) => {
            Err(ChoiceFault::Damaged {
                right: true,
                offset: 1,
            })
        }
        (Heading::NoBank, Heading::NoBank) => Err(ChoiceFault::NoStore),
        (Heading::NoBank, Heading::Bank { .. }) => Ok(true),
        (Heading::Bank { .. }, Heading::NoBank) => Ok(false),
        (Heading::Bank { generation: a, .. }, Heading::Bank { generation: b, .. }) => {
            if a == b {
                return Err(ChoiceFault::Damaged {
                    right: false,
                    offset: 5,
                });
            }
            Ok(b > a)
        }
    }
}

// The state that a body in the form and the records after it come to. The memory of the body is
// given back before they are done.
fn recover<B: Bag>(
    alloc: Global,
    form: Form,
    body: Vec<u8>,
    records: Vec<Record>,
) -> Result<State<B>, BankFault>
    ensures found { IfOk result (λ st. IsRecovered form body.items records.items st) }
    ensures ranges { IfOk result IsState }
    ensures fault { IfErr result (IsUnrecovered form body.items records.items) }
{
    let read = get_state(alloc, form, &body);
    drop(body);
    match read {
        Err(SnapshotFault::NoSnapshot) => Err(BankFault::Damaged(MIN_BYTES)),
        Err(SnapshotFault::Memory) => Err(BankFault::Memory),
        Ok(opening) => {
            let mut state = opening;
            match replay(alloc, &mut state, records) {
                Ok(()) => Ok(state),
                Err(fault) => Err(told_of(fault)),
            }
        }
    }
}

// What a fault of a replay is returned as.
fn told_of(fault: ReplayFault) -> BankFault
    ensures { result ≡ fault_of_replay fault }
{
    match fault {
        ReplayFault::Memory => BankFault::Memory,
        ReplayFault::Improper(gate) => BankFault::Damaged(gate),
    }
}
