//! A start: the store of a server is opened, and a snapshot of it taken first if one pays by then.
//! A disk that has no room for one is no reason to serve nobody.

ghost use Rattle.std.specs.Prelude.{◌≡◌, ◌<◌, ◌≤◌, ◌&&◌, ◌-◌, ◌/◌, nat_le, true, false, IfOk};
ghost use Rattle.std.specs.Prelude.{IfSome};
ghost use Rattle.linda_serve.specs.declared.serving.start.TheConstants.{FEW_BYTES};

use super::fault::ServingFault;
use super::store::{BankFiles, fit_other, give_back, sync_folder};
use linda_disk::{FileCall, FileDisk, FileTrouble};
use linda_net_marks::millis_since;
use linda_server::{Durable, ServeFault};
use std::alloc::Global;
use std::fs::{File, Files};
use std::time::{Clock, Instant};

/// Fewer bytes of records are not worth a snapshot at a start.
const FEW_BYTES: usize = 65_536;

/// A store that was opened to be served.
#[derive(Drop)]
pub(super) struct Begun {
    pub(super) server: Durable<FileDisk>,
    pub(super) course: Course,
}

/// What a start came to.
#[derive(Clone, Copy)]
pub(super) struct Course {
    /// How many bytes the bank in use took when it was new.
    pub(super) base: usize,
    /// For how many bytes of records at most the next snapshot is put off, if it is.
    pub(super) put_off: Option<usize>,
    /// In how many milliseconds a snapshot was taken, if one was.
    pub(super) taken: Option<u64>,
    /// Why none was, if one was tried.
    pub(super) trouble: Option<BankTrouble>,
}

/// A call that failed on the file of a bank.
#[derive(Clone, Copy)]
pub(super) struct BankTrouble {
    /// Whether it is the right one.
    pub(super) is_right: bool,
    pub(super) trouble: FileTrouble,
}

// Why no snapshot was taken.
#[derive(Clone, Copy)]
enum Hindrance {
    // Its bank could not be written.
    Room(BankTrouble),
    // The server cannot be served.
    Fault(ServingFault),
}

/// Opens the store in a folder to serve it.
///
/// If a snapshot was cut off in it, in a file that is shorter than the bank in use, its room is
/// given back, and the next one is put off, for half as many bytes of records: so the server serves
/// for a while even if it went down in that one, since the disk had no room for it, and the other
/// half is left when the next one is tried. Else a snapshot is taken, if the records have at least
/// as many bytes as the bank had when it was new, and 64 KiB. If it cannot be written, all that is
/// no bank is given back, and it is tried once more; if that cannot be either, it is put off. The
/// other file has as many bytes then as the bank in use, for the next snapshot, or as many as there
/// is room for.
///
/// # Errors
///
/// As those of `open_store`.
pub(super) fn open_to_serve<F: Files<File = File>, C: Clock>(
    files: &F,
    clock: &C,
    alloc: Global,
    folder: &str,
) -> Result<Begun, ServingFault>
    ensures up { IfOk result (λ begun. begun.server.down ≡ false) }
{
    let Begun { mut server, course } = open_first(files, clock, alloc, folder)?;
    fit_other(alloc, &mut server)?;
    Ok(Begun { server, course })
}

// The same, before the other file is made as long.
fn open_first<F: Files<File = File>, C: Clock>(
    files: &F,
    clock: &C,
    alloc: Global,
    folder: &str,
) -> Result<Begun, ServingFault>
    ensures up { IfOk result (λ begun. begun.server.down ≡ false) }
{
    let banks = BankFiles::open(files, alloc, folder)?;
    let (server, found) = banks.open_store(alloc)?;
    sync_folder(files, folder)?;
    let base = match found.base {
        Some(base) => base,
        None => server.used(),
    };
    let end = server.used();
    if is_too_short(found.partial_bank, end) {
        return put_off(server, base, found.partial_bank, None);
    }
    if !is_worth_it(base, end) {
        return Ok(as_it_is(server, base));
    }
    let bank = server.in_use();
    match snapshot_first(clock, alloc, server, base) {
        Ok(begun) => Ok(begun),
        Err(Hindrance::Fault(fault)) => Err(fault),
        Err(Hindrance::Room(_)) => {
            if let Some(bank) = bank {
                banks.cut_behind(bank.is_right, end)?;
            }
            try_again(&banks, clock, alloc, base)
        }
    }
}

// Whether the other file is no bank, and has not even so many bytes as the bank in use: a snapshot
// was cut off for want of room.
fn is_too_short(partial_bank: Option<u64>, end: usize) -> bool
    ensures { result ≡ true → IfSome partial_bank (λ len. len < end) }
{
    match partial_bank {
        Some(len) => len < end as u64,
        None => false,
    }
}

// Gives back the room of the snapshot that could not be written, and tries it once more; else it is
// put off.
fn try_again<C: Clock>(
    banks: &BankFiles,
    clock: &C,
    alloc: Global,
    base: usize,
) -> Result<Begun, ServingFault>
    ensures up { IfOk result (λ begun. begun.server.down ≡ false) }
{
    let (mut server, _) = banks.open_store(alloc)?;
    give_back(&mut server)?;
    match snapshot_first(clock, alloc, server, base) {
        Ok(begun) => Ok(begun),
        Err(Hindrance::Fault(fault)) => Err(fault),
        Err(Hindrance::Room(trouble)) => {
            let (server, found) = banks.open_store(alloc)?;
            put_off(server, base, found.partial_bank, Some(trouble))
        }
    }
}

// A server whose bank took so many bytes when it was new, and of which no snapshot was tried.
fn as_it_is(server: Durable<FileDisk>, base: usize) -> Begun
    ensures { result.server ≡ server }
{
    Begun {
        server,
        course: Course {
            base,
            put_off: None,
            taken: None,
            trouble: None,
        },
    }
}

// Gives back the room of a snapshot that was cut off, and puts the next one off.
fn put_off(
    server: Durable<FileDisk>,
    base: usize,
    partial_bank: Option<u64>,
    trouble: Option<BankTrouble>,
) -> Result<Begun, ServingFault>
    ensures up { IfOk result (λ begun. begun.server.down ≡ false) }
{
    let mut server = server;
    give_back(&mut server)?;
    Ok(Begun {
        server,
        course: Course {
            base,
            put_off: Some(room_of(partial_bank)),
            taken: None,
            trouble,
        },
    })
}

// Half of the room that a snapshot had that was cut off; one byte at least, which the next record
// has.
fn room_of(partial_bank: Option<u64>) -> usize
    ensures half { IfSome partial_bank (λ len. 2 ≤ len → result ≡ len / 2) }
    ensures some { 1 ≤ result }
{
    match partial_bank {
        Some(len) if len >= 2 => (len / 2) as usize,
        Some(_) => 1,
        None => 1,
    }
}

// Whether a bank that took `base` bytes when it was new, and of which `used` are taken, is worth a
// snapshot at a start.
fn is_worth_it(base: usize, used: usize) -> bool
    ensures { result ≡ (nat_le FEW_BYTES (used - base) && nat_le base (used - base)) }
{
    let more = used.saturating_sub(base);
    more >= FEW_BYTES && more >= base
}

// Takes a snapshot. If there is no next bank for the
// state the server goes on in its bank, which took `base` bytes when it was new.
fn snapshot_first<C: Clock>(
    clock: &C,
    alloc: Global,
    server: Durable<FileDisk>,
    base: usize,
) -> Result<Begun, Hindrance>
    requires up { server.down ≡ false }
    ensures up { IfOk result (λ begun. begun.server.down ≡ false) }
{
    let mut server = server;
    let begin = Instant::now(clock).ok();
    match server.renew(alloc) {
        Ok(()) => Ok(taken(server, millis_since(clock, begin))),
        Err(ServeFault::Full) => Ok(as_it_is(server, base)),
        Err(ServeFault::Memory) => Err(Hindrance::Fault(ServingFault::Memory)),
        Err(ServeFault::Disk | ServeFault::Down) => Err(hindrance_of(server)),
    }
}

// A snapshot was taken.
fn taken(server: Durable<FileDisk>, millis: u64) -> Begun
    ensures { result.server ≡ server }
{
    let base = server.used();
    Begun {
        server,
        course: Course {
            base,
            put_off: None,
            taken: Some(millis),
            trouble: None,
        },
    }
}

// Why a server went down in a snapshot. Only a write that failed leaves files that may be opened
// again at once: what a sync did not bring to the device may be read back all the same.
fn hindrance_of(server: Durable<FileDisk>) -> Hindrance {
    let (left, right) = server.into_disks();
    match (left.trouble(), right.trouble()) {
        (Some(trouble), _) => of_call(false, trouble),
        (None, Some(trouble)) => of_call(true, trouble),
        (None, None) => Hindrance::Fault(ServingFault::Memory),
    }
}

// What a call is that failed on the file of a bank.
fn of_call(is_right: bool, trouble: FileTrouble) -> Hindrance {
    if trouble.call == FileCall::Write {
        return Hindrance::Room(BankTrouble { is_right, trouble });
    }
    Hindrance::Fault(ServingFault::Disk)
}
