//! A bank on the left disk.

use crate::disks::disk::taken;
use linda_disk::MemDisk;
use linda_journal::{Bank, BankFault};
use linda_store_state::Deed;
use linda_test_script::{WordsFault, done, read_number, read_size, split_word, tell};
use linda_text::read_tuple;
use std::alloc::Global;
use std::slice;

/// The body of a new bank: the snapshot of an empty state.
const EMPTY: [u8; 16] = [0, 0, 0, 0, 0, 0, 0, 1, 0, 0, 0, 0, 0, 0, 0, 0];

/// Does with the bank what the words say.
pub(crate) fn play_bank(
    alloc: Global,
    disk: &mut MemDisk,
    bank: &mut Option<Bank<MemDisk>>,
    words: &str,
    came: &mut String,
) -> Result<(), WordsFault> {
    let (word, rest) = split_word(words);
    match word {
        "create" => create(alloc, disk, bank, rest, came),
        "open" => open(alloc, disk, bank, rest, came),
        "shut" => give_back(disk, bank),
        "fuse" => fuse(bank, rest),
        "put" => put(alloc, bank, rest, came),
        _ => Err(WordsFault::Unknown),
    }
}

// Makes a bank of generation 1, whose body is the snapshot of an empty state.
fn create(
    alloc: Global,
    disk: &mut MemDisk,
    bank: &mut Option<Bank<MemDisk>>,
    limit: &str,
    came: &mut String,
) -> Result<(), WordsFault> {
    let limit = read_size(limit)?;
    match Bank::create(alloc, taken(alloc, disk), 1, &EMPTY, limit) {
        Ok(made) => take_bank(bank, made, came),
        Err((fault, back)) => take_disk(disk, fault, back, came),
    }
}

// Opens the bank that the disk holds.
fn open(
    alloc: Global,
    disk: &mut MemDisk,
    bank: &mut Option<Bank<MemDisk>>,
    limit: &str,
    came: &mut String,
) -> Result<(), WordsFault> {
    let limit = read_size(limit)?;
    match Bank::open(alloc, taken(alloc, disk), limit) {
        Ok((opened, _, _)) => take_bank(bank, opened, came),
        Err((fault, back)) => take_disk(disk, fault, back, came),
    }
}

// Takes the bank that was made or opened, and writes what it has.
fn take_bank(
    bank: &mut Option<Bank<MemDisk>>,
    begun: Bank<MemDisk>,
    came: &mut String,
) -> Result<(), WordsFault> {
    let told = tell_bank(&begun, came);
    *bank = Some(begun);
    told
}

// Writes how many records the bank has and where its journal ends.
fn tell_bank(bank: &Bank<MemDisk>, came: &mut String) -> Result<(), WordsFault> {
    done(writeln!(came, "> {} records, end {}", bank.records(), bank.end()))
}

// Takes the disk back, and says why it holds no bank.
fn take_disk(
    disk: &mut MemDisk,
    fault: BankFault,
    back: MemDisk,
    came: &mut String,
) -> Result<(), WordsFault> {
    *disk = back;
    tell_fault(fault, came)
}

// The bank gives its disk back.
fn give_back(disk: &mut MemDisk, bank: &mut Option<Bank<MemDisk>>) -> Result<(), WordsFault> {
    let Some(bank) = bank.take() else {
        return Err(WordsFault::Unknown);
    };
    *disk = bank.into_disk();
    Ok(())
}

// Lets the power go off inside a device call of the bank.
fn fuse(bank: &mut Option<Bank<MemDisk>>, call: &str) -> Result<(), WordsFault> {
    let Some(bank) = bank else {
        return Err(WordsFault::Unknown);
    };
    let call = read_number(call)?;
    bank.fuse(call);
    Ok(())
}

// Client 7 puts a tuple by its message 1.
fn put(
    alloc: Global,
    bank: &mut Option<Bank<MemDisk>>,
    tuple: &str,
    came: &mut String,
) -> Result<(), WordsFault> {
    let Some(bank) = bank else {
        return Err(WordsFault::Unknown);
    };
    let deed = put_by_7(alloc, tuple)?;
    match bank.append(alloc, slice::from_ref(&deed)) {
        Ok(()) => Ok(()),
        Err(fault) => tell_fault(fault, came),
    }
}

fn put_by_7(alloc: Global, tuple: &str) -> Result<Deed, WordsFault> {
    match read_tuple(alloc, tuple) {
        Ok(tuple) => Ok(Deed::Out {
            client: 7,
            n: 1,
            tuple,
        }),
        Err(fault) => Err(fault.into()),
    }
}

fn tell_fault(fault: BankFault, came: &mut String) -> Result<(), WordsFault> {
    match fault {
        BankFault::Memory => Err(WordsFault::Memory),
        fault => tell(came, fault),
    }
}
