//! Steps of a snapshot: the next bank is written on the disk that is not in use, and is taken into
//! use.

ghost use Rattle.std.specs.Prelude.{◌≡◌, ◌≤◌, ◌<◌, ◌+◌, ◌++◌, ◌^◌, ℕ, List, true, None, length};
ghost use Rattle.std.specs.Prelude.{IfOk, OnOk, IfSome, IsErrOf};
ghost use Rattle.linda_store_state.specs.State as states;
ghost use Rattle.linda_store_state.specs.State.{IsState};
ghost use Rattle.linda_snap.specs.BookCopy.{IsCopyFor};
ghost use Rattle.linda_disk.specs.View.{IsDurable};
ghost use Rattle.linda_disk.specs.Runs.{Runs, anything};
ghost use Rattle.linda_journal.specs.Renewal.{IsNoBank, IsFilled, shuts};
ghost use Rattle.linda_server.specs.Next.{IsBegun, IsBegunOn, IsFilledOn, IsLastOn, IsWithin};
ghost use Rattle.linda_server.specs.Next.{StepsOn};
ghost use Rattle.linda_server.specs.Server.{is_usable, generation_in_use, limit_in_use};
ghost use Rattle.linda_server.specs.Server.{IsBankStill, RunsOnBoth, end_in_use};
ghost use Rattle.linda_server.specs.Switch.{HasNoNext, IsOtherDurable, IsTakenOver};

use crate::disks::{Disks, Pair};
use crate::fault::{ServeFault, of_disk};
use crate::next::NextBank;
use crate::renewal::of_switch;
use linda_bag::Bag;
use linda_disk::{Disk, DiskFault};
use linda_journal::{Bank, Filling, shut};
use linda_snap::{BankChunk, BankWriter, BookCopy, take_over};
use linda_store_state::State;
use std::alloc::Global;

/// Begins the next bank, with a snapshot of the state, on the disk that is not in use: its first
/// gate is closed, and the first bytes are written after it. If it is given a whole copy of the
/// clients, it takes that.
///
/// # Errors
///
/// `Full` if the next bank would pass its limit or no generation is left: nothing changed. `Disk`
/// if the device failed, and `Memory`: neither bank is to be used.
pub(crate) fn start<B: Bag, D: Disk>(
    disks: &mut Disks<Bank<D>, D>,
    alloc: Global,
    state: &State<B>,
    copy: &mut Option<BookCopy>,
) -> Result<NextBank, ServeFault>
    requires ranges { IsState state.now }
    requires copied { IsCopyFor copy.old state.now.book }
    requires ready { is_usable disks.old ≡ true }
    requires short { limit_in_use disks.old < 2 ^ 32 }
    requires durable { IsOtherDurable disks.old }
    // Crashes at any moment leave the state.
    ensures runs { RunsOnBoth (Unit {0}) state.now ServeFault.Disk disks.old result disks.new }
    ensures begun { IfOk result (λ next. IsBegunOn next disks.new state.now) }
    ensures still { IsBankStill disks.old disks.new }
    ensures full { IsErrOf result ServeFault.Full → (disks.new ≡ disks.old)
        × HasNoNext state.now (limit_in_use disks.old) (generation_in_use disks.old) }
    ensures room { OnOk result (HasNoNext state.now (limit_in_use disks.old)
        (generation_in_use disks.old) → ⊥) }
    ensures taken { OnOk result (copy.new ≡ None) }
    ensures copy { IsErrOf result ServeFault.Full → copy.new ≡ copy.old }
    ensures known { IsErrOf result ServeFault.Down → ⊥ }
{
    let Pair {
        bank,
        other,
        is_right,
    } = disks.lend();
    let (told, other) = start_on(other, alloc, state, bank.generation(), bank.limit(), copy);
    *disks = Disks::InUse(Pair {
        bank,
        other,
        is_right,
    });
    told
}

// Begins a bank after this generation and of this limit on the disk.
fn start_on<B: Bag, D: Disk>(
    other: D,
    alloc: Global,
    state: &State<B>,
    generation: u64,
    limit: usize,
    copy: &mut Option<BookCopy>,
) -> (Result<NextBank, ServeFault>, D)
    requires ranges { IsState state.now }
    requires copied { IsCopyFor copy.old state.now.book }
    requires short { limit < 2 ^ 32 }
    requires durable { D.honest other → IsDurable (D.view other) }
    ensures none { D.honest other → OnOk result.0 (IsNoBank (D.view result.1).seen) }
    ensures durable { D.honest other → OnOk result.0 (IsDurable (D.view result.1)) }
    ensures begun { IfOk result.0 (λ next.
        IsBegun next (D.honest result.1) (D.view result.1) state.now
        × (next.writer.generation ≡ generation + 1) × (next.writer.limit ≡ limit)) }
    ensures full { IsErrOf result.0 ServeFault.Full → (result.1 ≡ other)
        × HasNoNext state.now limit generation }
    ensures room { OnOk result.0 (HasNoNext state.now limit generation → ⊥) }
    ensures taken { OnOk result.0 (copy.new ≡ None) }
    ensures copy { IsErrOf result.0 ServeFault.Full → copy.new ≡ copy.old }
    ensures runs { Runs D.Disk shuts anything ServeFault.Disk other result.0 result.1 }
    ensures known { IsErrOf result.0 ServeFault.Down → ⊥ }
{
    let Some(generation) = generation.checked_add(1) else {
        return (Err(ServeFault::Full), other);
    };
    match BankWriter::begin(alloc, state, generation, limit, copy) {
        Err(fault) => (Err(of_switch(fault)), other),
        Ok((writer, bytes)) => match lay(other, &bytes) {
            (Err(fault), other) => (Err(of_disk(fault)), other),
            (Ok(at), other) => (Ok(NextBank { writer, at }), other),
        },
    }
}

// Closes the first gate of the disk, and writes the bytes after it. Gives the offset after them.
fn lay<D: Disk>(disk: D, bytes: &[u8]) -> (Result<usize, DiskFault>, D)
    requires { D.honest disk → IsDurable (D.view disk) }
    ensures filled { D.honest disk
        → IfOk result.0 (λ at. IsFilled bytes.now at (D.view result.1)) }
    ensures place { IfOk result.0 (λ at. at ≡ 1 + length bytes.now) }
    ensures runs { Runs D.Disk shuts anything DiskFault.Device disk result.0 result.1 }
{
    match shut(disk) {
        Err((fault, disk)) => (Err(fault), disk),
        Ok(closed) => match Filling::begin(closed).add(bytes) {
            Err((fault, disk)) => (Err(fault), disk),
            Ok(filling) => (Ok(filling.at()), filling.into_disk()),
        },
    }
}

/// Writes the next part of the next bank: so many bytes at most, and one entry more. Gives it back
/// if more is to come; else it is in use now.
///
/// # Errors
///
/// `Disk` if the device failed, and `Memory`: neither bank is to be used.
pub(crate) fn advance<B: Bag, D: Disk>(
    disks: &mut Disks<Bank<D>, D>,
    alloc: Global,
    state: &State<B>,
    next: NextBank,
    most: usize,
) -> Result<Option<NextBank>, ServeFault>
    requires ready { is_usable disks.old ≡ true }
    requires begun { ∥ IsBegunOn next disks.old state.now ∥₁ }
    // Crashes at any moment leave the state.
    ensures runs { RunsOnBoth (IsBegunOn next disks.old state.now) state.now ServeFault.Disk
        disks.old result disks.new }
    // The next bank, if more of it is to come, follows it.
    ensures begun { IsBegunOn next disks.old state.now
        → IfOk result (λ o. IfSome o (λ n. IsBegunOn n disks.new state.now)) }
    // Each step writes something, and no more than it may.
    ensures steps { StepsOn most next disks.old result disks.new }
    ensures known { (IsErrOf result ServeFault.Full → ⊥) × (IsErrOf result ServeFault.Down → ⊥) }
{
    let NextBank { mut writer, at } = next;
    match writer.next(alloc, state, most) {
        Err(_) => Err(ServeFault::Memory),
        Ok(BankChunk::More(bytes)) => match write_on(disks, at, &bytes) {
            Err(fault) => Err(of_disk(fault)),
            Ok(at) => Ok(Some(NextBank { writer, at })),
        },
        Ok(BankChunk::Last(bytes)) => match end(disks, at, &writer, &bytes) {
            Err(fault) => Err(fault),
            Ok(()) => Ok(None),
        },
    }
}

// Writes the bytes at this offset of the disk that is not in use. Gives the offset after them.
fn write_on<D: Disk>(
    disks: &mut Disks<Bank<D>, D>,
    at: usize,
    bytes: &[u8],
) -> Result<usize, DiskFault>
    requires ready { is_usable disks.old ≡ true }
    requires behind { 1 ≤ at }
    requires within { IsWithin at disks.old }
    ensures runs { (st : states.State) (front : List ℕ)
        → RunsOnBoth (IsFilledOn front at disks.old) st DiskFault.Device disks.old result
        disks.new }
    ensures filled { (front : List ℕ) → IsFilledOn front at disks.old
        → IfOk result (λ next. IsFilledOn (front ++ bytes.now) next disks.new) }
    ensures place { IfOk result (λ next. next ≡ at + length bytes.now) }
    ensures still { IsBankStill disks.old disks.new }
    ensures generation { OnOk result (generation_in_use disks.new ≡ generation_in_use disks.old) }
{
    let Pair {
        bank,
        other,
        is_right,
    } = disks.lend();
    match Filling::resume(other, at).add(bytes) {
        Err((fault, other)) => {
            *disks = Disks::InUse(Pair {
                bank,
                other,
                is_right,
            });
            Err(fault)
        }
        Ok(filling) => {
            let next = filling.at();
            *disks = Disks::InUse(Pair {
                bank,
                other: filling.into_disk(),
                is_right,
            });
            Ok(next)
        }
    }
}

// Writes the last bytes of the next bank at this offset of the disk that is not in use, and takes
// it into use.
fn end<D: Disk>(
    disks: &mut Disks<Bank<D>, D>,
    at: usize,
    writer: &BankWriter,
    bytes: &[u8],
) -> Result<(), ServeFault>
    requires ready { is_usable disks.old ≡ true }
    requires behind { 1 ≤ at }
    requires within { IsWithin at disks.old }
    requires generation { writer.now.generation ≡ generation_in_use disks.old + 1 }
    requires fits { at + length bytes.now ≤ limit_in_use disks.old }
    requires counted { writer.now.records < at + length bytes.now }
    ensures runs { (st : states.State) (front : List ℕ)
        → RunsOnBoth (IsLastOn writer.now front bytes.now at disks.old st) st ServeFault.Disk
        disks.old result disks.new }
    ensures switched { OnOk result (IsTakenOver writer.now.records disks.old disks.new) }
    ensures place { OnOk result (end_in_use disks.new + 1 ≡ at + length bytes.now) }
    ensures known { (IsErrOf result ServeFault.Full → ⊥) × (IsErrOf result ServeFault.Down → ⊥) }
{
    let Pair {
        bank,
        other,
        is_right,
    } = disks.lend();
    match take_over(bank, Filling::resume(other, at), writer, bytes) {
        Err((fault, bank, other)) => {
            *disks = Disks::InUse(Pair {
                bank,
                other,
                is_right,
            });
            Err(of_disk(fault))
        }
        Ok((bank, other)) => {
            *disks = Disks::InUse(Pair {
                bank,
                other,
                is_right: !is_right,
            });
            Ok(())
        }
    }
}
