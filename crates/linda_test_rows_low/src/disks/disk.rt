//! One disk: its calls, what is to go wrong in them, and what it holds.

use crate::disks::bytes::{push_bytes, read_bytes, tell_name, tell_pieces};
use linda_disk::{Disk, DiskFault, MemDisk, Torn};
use linda_test_script::{
    WordsFault, done, read_number, read_numbered, read_size, split_word, tell, tell_two,
};
use std::alloc::{AllocError, Global};
use std::mem;

/// The disk, in whose place an empty one is then.
pub(crate) fn taken(alloc: Global, disk: &mut MemDisk) -> MemDisk {
    mem::replace(disk, MemDisk::new(alloc))
}

/// Lets the disk hold the bytes of these words, all of them synced.
pub(crate) fn hold_words(alloc: Global, disk: &mut MemDisk, words: &str) -> Result<(), WordsFault> {
    match read_bytes(alloc, words) {
        Ok(bytes) => hold(alloc, disk, bytes),
        Err(fault) => Err(fault),
    }
}

// Lets the disk hold these bytes, all of them synced.
fn hold(alloc: Global, disk: &mut MemDisk, bytes: Vec<u8>) -> Result<(), WordsFault> {
    match MemDisk::from_bytes(alloc, bytes) {
        Ok(held) => {
            *disk = held;
            Ok(())
        }
        Err(_) => Err(WordsFault::Memory),
    }
}

/// Lets the disk crash.
pub(crate) fn crash(disk: &mut MemDisk, torn: Torn) -> Result<(), WordsFault> {
    match disk.crash(torn) {
        Ok(()) => Ok(()),
        Err(_) => Err(WordsFault::Memory),
    }
}

/// Lets the disk crash, and says whether all of its bytes were synced: those that were not are 0x55
/// then.
pub(crate) fn was_synced(alloc: Global, disk: &mut MemDisk) -> Result<bool, WordsFault> {
    let before = Vec::from_slice(alloc, disk.bytes())?;
    crash(disk, Torn::Filled(0x55))?;
    Ok(before.as_slice() == disk.bytes())
}

/// Does with a disk what the words say.
pub(crate) fn play_disk(
    alloc: Global,
    disk: &mut MemDisk,
    words: &str,
    came: &mut String,
) -> Result<(), WordsFault> {
    let (word, rest) = split_word(words);
    match word {
        "fuse" => fuse(disk, rest),
        "fail" => fail(disk, rest),
        "write" => write_at(alloc, disk, rest, came),
        "cut" => cut_to(disk, rest, came),
        "sync" => tell_done(disk.sync(), came),
        "length" => tell_length(disk, came),
        "read" => tell_done(disk.read_at(0, &mut []), came),
        _ => show_or_hold(alloc, disk, word, rest, came),
    }
}

// Lets the power go off inside a call of the device.
fn fuse(disk: &mut MemDisk, call: &str) -> Result<(), WordsFault> {
    let call = read_number(call)?;
    disk.fuse(call);
    Ok(())
}

// Lets a call of the device fail.
fn fail(disk: &mut MemDisk, call: &str) -> Result<(), WordsFault> {
    let call = read_number(call)?;
    disk.fail_once(call);
    Ok(())
}

// Writes at an offset within the disk.
fn write_at(
    alloc: Global,
    disk: &mut MemDisk,
    words: &str,
    came: &mut String,
) -> Result<(), WordsFault> {
    let (at, bytes) = split_word(words);
    let at = read_size(at)?;
    if at > disk.bytes().len() {
        return Err(WordsFault::Unknown);
    }
    let bytes = read_bytes(alloc, bytes)?;
    tell_done(disk.write_at(at, &bytes), came)
}

// Cuts the disk to a length within it.
fn cut_to(disk: &mut MemDisk, len: &str, came: &mut String) -> Result<(), WordsFault> {
    let len = read_size(len)?;
    if len > disk.bytes().len() {
        return Err(WordsFault::Unknown);
    }
    tell_done(disk.cut(len), came)
}

// Asks the disk for its length, and gives it.
fn tell_length(disk: &mut MemDisk, came: &mut String) -> Result<(), WordsFault> {
    match disk.len() {
        Ok(len) => tell(came, len),
        Err(fault) => tell_done(Err(fault), came),
    }
}

// Writes why a call was not done.
fn tell_done(done: Result<(), DiskFault>, came: &mut String) -> Result<(), WordsFault> {
    match done {
        Ok(()) => Ok(()),
        Err(DiskFault::Memory) => Err(WordsFault::Memory),
        Err(DiskFault::Device) => tell(came, "failed"),
    }
}

// Shows what the disk holds, how often it failed, or whether it holds an open gate and what is
// after it; or lets it hold other bytes.
fn show_or_hold(
    alloc: Global,
    disk: &mut MemDisk,
    word: &str,
    rest: &str,
    came: &mut String,
) -> Result<(), WordsFault> {
    match word {
        "reads" => tell_name(alloc, disk.bytes(), came),
        "bytes" => tell_pieces(alloc, disk.bytes(), came),
        "text" => tell_text(disk.bytes(), came),
        "failures" => tell_two(came, disk.failures(), "failures"),
        "gate" => tell(came, gate_of(disk.bytes())),
        _ => hold_changed(alloc, disk, word, rest),
    }
}

// Writes the text that the bytes are.
fn tell_text(bytes: &[u8], came: &mut String) -> Result<(), WordsFault> {
    match str::from_utf8(bytes) {
        Ok(text) => done(writeln!(came, "> \"{text}\"")),
        Err(_) => tell(came, "no text"),
    }
}

// Whether the bytes are a bank's, 17 at least, of which the first is an open gate.
fn gate_of(bytes: &[u8]) -> &'static str {
    if bytes.len() >= 17 && bytes[0] == 1 {
        "open"
    } else {
        "closed"
    }
}

// Lets the disk hold what it held with a change, all of it synced.
fn hold_changed(
    alloc: Global,
    disk: &mut MemDisk,
    word: &str,
    rest: &str,
) -> Result<(), WordsFault> {
    let mut bytes = Vec::from_slice(alloc, disk.bytes())?;
    change(alloc, &mut bytes, word, rest)?;
    hold(alloc, disk, bytes)
}

fn change(alloc: Global, bytes: &mut Vec<u8>, word: &str, rest: &str) -> Result<(), WordsFault> {
    match word {
        "front" => keep_front(bytes, rest),
        "byte" => set_byte(bytes, rest),
        "more" => push_bytes(alloc, bytes, rest),
        "clients" => push_clients(bytes, rest),
        _ => Err(WordsFault::Unknown),
    }
}

// Only the first bytes are left.
fn keep_front(bytes: &mut Vec<u8>, len: &str) -> Result<(), WordsFault> {
    let len = read_size(len)?;
    bytes.truncate(len);
    Ok(())
}

// Another byte is at an offset; both are decimal numbers.
fn set_byte(bytes: &mut Vec<u8>, words: &str) -> Result<(), WordsFault> {
    let (at, byte) = split_word(words);
    let at = read_size(at)?;
    let Ok(byte) = byte.parse::<u8>() else {
        return Err(WordsFault::Unknown);
    };
    let Some(slot) = bytes.get_mut(at) else {
        return Err(WordsFault::Unknown);
    };
    *slot = byte;
    Ok(())
}

// Of each client from the first on, below the second, a snapshot would say that its message 1 got a
// Gone.
fn push_clients(bytes: &mut Vec<u8>, words: &str) -> Result<(), WordsFault> {
    let (first, end) = read_numbered(words)?;
    let (end, _rest) = read_numbered(end)?;
    for client in first..end {
        done(push_client(bytes, client))?;
    }
    Ok(())
}

fn push_client(bytes: &mut Vec<u8>, client: u32) -> Result<(), AllocError> {
    bytes.extend_from_slice(&client.to_be_bytes())?;
    bytes.extend_from_slice(&[0, 0, 0, 0, 0, 0, 0, 1, 3])
}
