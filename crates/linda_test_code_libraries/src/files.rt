//! Real files: what was synced is there when the file is opened again, what is kept of it answers a
//! read, and what the system refuses is a failure.

use linda_disk::{Disk, DiskFault, FileDisk, MemDisk};
use std::alloc::{Alloc, AllocError, Global};
use std::fs::{self, File, Files, OpenOptions};
use std::io::{self, ErrorKind};
use std::process::Abort;

const PATH: &str = "linda_disk_test_file";

/// Cuts any disk to nothing, and syncs.
fn empty<D: Disk>(disk: &mut D) -> Result<(), DiskFault> {
    disk.cut(0)?;
    disk.sync()
}

/// All of any disk is this.
fn has<D: Disk>(
    rt: &impl Abort,
    alloc: Global,
    disk: &mut D,
    bytes: &[u8],
) -> Result<(), DiskFault> {
    let len = disk.len()?;
    let mut all = vec![in alloc; 0; len]?;
    disk.read_at(0, &mut all)?;
    assert_eq!(rt; all.as_slice(), bytes);
    Ok(())
}

/// Reads from any disk, if it has so many bytes from this place on; else that is `Memory`, which no
/// test wants.
fn read_within<D: Disk>(disk: &mut D, at: usize, buffer: &mut [u8]) -> Result<(), DiskFault> {
    let len = disk.len()?;
    if len < at || len - at < buffer.len() {
        return Err(DiskFault::Memory);
    }
    disk.read_at(at, buffer)
}

/// Writes to any disk, if it reaches to this place; else that is `Memory`, which no test wants.
fn write_within<D: Disk>(disk: &mut D, at: usize, bytes: &[u8]) -> Result<(), DiskFault> {
    let len = disk.len()?;
    if len < at {
        return Err(DiskFault::Memory);
    }
    disk.write_at(at, bytes)
}

/// What is written at the front of any disk is all of it.
fn keeps<D: Disk>(
    rt: &impl Abort,
    alloc: Global,
    disk: &mut D,
    bytes: &[u8],
) -> Result<(), DiskFault> {
    disk.write_at(0, bytes)?;
    disk.sync()?;
    has(rt, alloc, disk, bytes)
}

/// A call was done.
fn is_done(rt: &impl Abort, told: Result<(), DiskFault>) {
    assert_eq!(rt; told, Ok(()));
}

/// A call was not done, as the device failed.
fn is_failure(rt: &impl Abort, told: Result<(), DiskFault>) {
    assert_eq!(rt; told, Err(DiskFault::Device));
}

/// There are so many bytes.
fn is_long(rt: &impl Abort, disk: &mut FileDisk, len: usize) {
    assert_eq!(rt; disk.len(), Ok(len));
}

/// The device has failed so often.
fn has_failed(rt: &impl Abort, disk: &FileDisk, times: u64) {
    assert_eq!(rt; disk.failures(), times);
}

/// The first call that failed has this name.
fn failed_first(rt: &impl Abort, disk: &FileDisk, name: &str) {
    match disk.trouble() {
        Some(trouble) => assert_eq!(rt; trouble.call.name(), name),
        None => panic!(rt; "{name}"),
    }
}

/// The file of this path as a disk; a fault of the disk is that of a file which is none.
fn opened<F: Files<File = File>>(rt: &F, alloc: Global, path: &str) -> io::Result<FileDisk> {
    let file = OpenOptions::new().read(true).write(true).open(rt, path)?;
    made(FileDisk::new(alloc, file))
}

/// The disk that was made of a file.
fn made(disk: Result<FileDisk, DiskFault>) -> io::Result<FileDisk> {
    match disk {
        Ok(disk) => Ok(disk),
        Err(_) => Err(io::Error::from(ErrorKind::InvalidData)),
    }
}

#[test]
fn any_disk_gives_what_was_written(rt: HostRuntime) {
    let mut disk = MemDisk::new(rt.alloc());
    let told = gives_what_was_written(&rt, rt.alloc(), &mut disk);
    is_done(&rt, told);
}

/// A disk in memory keeps what is written, and nothing after a cut.
fn gives_what_was_written<D: Disk>(
    rt: &impl Abort,
    alloc: Global,
    disk: &mut D,
) -> Result<(), DiskFault> {
    keeps(rt, alloc, disk, b"abc")?;
    empty(disk)?;
    has(rt, alloc, disk, b"")
}

#[test]
fn a_file_has_what_was_written_when_it_is_opened_again(rt: HostRuntime) -> io::Result<()> {
    let mut disk = made(FileDisk::new(rt.alloc(), fs::create(&rt, PATH)?))?;
    takes_writes_and_a_cut(&rt, &mut disk);
    drop(disk);
    is_file_of(&rt, PATH, b"abcdEFG")?;
    let mut again = opened(&rt, rt.alloc(), PATH)?;
    let told = has_what_was_written(&rt, rt.alloc(), &mut again);
    is_done(&rt, told);
    drop(again);
    is_file_of(&rt, PATH, b"xy")?;
    fs::remove_file(&rt, PATH)
}

/// The file of this path has these bytes, read with no disk.
fn is_file_of<R: Files<File = File> + Alloc + Abort>(
    rt: &R,
    path: &str,
    bytes: &[u8],
) -> io::Result<()> {
    let found = fs::read(rt, path)?;
    assert_eq!(rt; found.as_slice(), bytes);
    Ok(())
}

/// The file takes two writes, of which one goes over the other, and a cut.
fn takes_writes_and_a_cut(rt: &impl Abort, disk: &mut FileDisk) {
    is_done(rt, disk.write_at(0, b"abcdef"));
    is_done(rt, write_within(disk, 4, b"EFGH"));
    is_done(rt, disk.cut(7));
    is_done(rt, disk.sync());
    is_long(rt, disk, 7);
    begins_with(rt, disk, b'a');
}

/// The first byte is this one.
fn begins_with(rt: &impl Abort, disk: &mut FileDisk, byte: u8) {
    let mut front = [0; 1];
    is_done(rt, read_within(disk, 0, &mut front));
    assert_eq!(rt; front, [byte]);
}

/// The file has what these left, as often as it is read, and takes something else after that.
fn has_what_was_written(
    rt: &impl Abort,
    alloc: Global,
    again: &mut FileDisk,
) -> Result<(), DiskFault> {
    has(rt, alloc, again, b"abcdEFG")?;
    has(rt, alloc, again, b"abcdEFG")?;
    has_in_the_middle(rt, again, *b"cdE");
    empty(again)?;
    is_long(rt, again, 0);
    again.write_at(0, b"xy")?;
    again.sync()?;
    is_long(rt, again, 2);
    begins_with(rt, again, b'x');
    has_failed(rt, again, 0);
    Ok(())
}

/// From place 2 on there are these bytes.
fn has_in_the_middle(rt: &impl Abort, disk: &mut FileDisk, bytes: [u8; 3]) {
    let mut middle = [0; 3];
    is_done(rt, read_within(disk, 2, &mut middle));
    assert_eq!(rt; middle, bytes);
}

#[test]
fn what_is_not_kept_is_a_failure(rt: HostRuntime) -> io::Result<()> {
    const SHORT: &str = "linda_disk_test_short";
    fs::write(&rt, SHORT, b"abc".as_slice())?;
    let mut disk = opened(&rt, rt.alloc(), SHORT)?;
    forgets_at_a_write(&rt, &mut disk);
    drop(disk);
    fs::remove_file(&rt, SHORT)
}

/// After a write the file of three bytes gives its length and its first byte, and no more.
fn forgets_at_a_write(rt: &impl Abort, disk: &mut FileDisk) {
    is_done(rt, write_within(disk, 1, b"x"));
    is_long(rt, disk, 3);
    begins_with(rt, disk, b'a');
    let mut two = [0; 2];
    is_failure(rt, read_within(disk, 0, &mut two));
    is_failure(rt, read_within(disk, 1, &mut two));
    has_failed(rt, disk, 2);
}

#[test]
fn a_file_is_kept_up_to_its_front(rt: HostRuntime) -> io::Result<()> {
    const LONG: &str = "linda_disk_test_long";
    write_long(&rt, rt.alloc(), LONG)?;
    let mut whole = opened(&rt, rt.alloc(), LONG)?;
    let told = has_a_long_file(&rt, rt.alloc(), &mut whole);
    is_done(&rt, told);
    drop(whole);
    let mut front = made(FileDisk::with_front(rt.alloc(), fs::open(&rt, LONG)?))?;
    let told = has_a_front(&rt, rt.alloc(), &mut front);
    is_done(&rt, told);
    drop(front);
    fs::remove_file(&rt, LONG)
}

/// How long that file is: some pieces of what is read at a time, and a part of one.
const LEN: usize = 200_001;

/// A file of so many bytes, which count up and begin again.
fn write_long<F: Files<File = File>>(rt: &F, alloc: Global, path: &str) -> io::Result<()> {
    let bytes = counted(alloc, LEN)?;
    fs::write(rt, path, bytes.as_slice())
}

/// So many bytes, which count up and begin again.
fn counted(alloc: Global, len: usize) -> Result<Vec<u8>, AllocError> {
    let mut bytes = Vec::new(alloc);
    for at in 0..len {
        bytes.push((at % 251) as u8)?;
    }
    Ok(bytes)
}

/// All of the file is read once; then there is a front of it.
fn has_a_long_file(rt: &impl Abort, alloc: Global, disk: &mut FileDisk) -> Result<(), DiskFault> {
    let bytes = counted(alloc, LEN)?;
    has(rt, alloc, disk, &bytes)?;
    has_a_front(rt, alloc, disk)
}

/// There are 4,096 bytes of the front of the file, and no more: to read one more is its first
/// failure.
fn has_a_front(rt: &impl Abort, alloc: Global, disk: &mut FileDisk) -> Result<(), DiskFault> {
    is_long(rt, disk, LEN);
    let bytes = counted(alloc, 4096)?;
    let mut front = vec![in alloc; 0; 4096]?;
    read_within(disk, 0, &mut front)?;
    assert_eq!(rt; front.as_slice(), bytes.as_slice());
    let mut more = vec![in alloc; 0; 4097]?;
    is_failure(rt, read_within(disk, 0, &mut more));
    has_failed(rt, disk, 1);
    Ok(())
}

#[test]
fn a_device_that_cannot_be_synced_is_no_disk(rt: HostRuntime) {
    let made = opened(&rt, rt.alloc(), "/dev/full");
    assert!(rt; made.is_err());
}

#[test]
fn a_file_for_reading_only_takes_no_write(rt: HostRuntime) -> io::Result<()> {
    const READ_ONLY: &str = "linda_disk_test_read_only";
    fs::write(&rt, READ_ONLY, b"abc".as_slice())?;
    let mut disk = made(FileDisk::new(rt.alloc(), fs::open(&rt, READ_ONLY)?))?;
    let told = is_read_only(&rt, rt.alloc(), &mut disk);
    is_done(&rt, told);
    drop(disk);
    is_file_of(&rt, READ_ONLY, b"abc")?;
    fs::remove_file(&rt, READ_ONLY)
}

/// The file is read, and takes no write and no cut.
fn is_read_only(rt: &impl Abort, alloc: Global, disk: &mut FileDisk) -> Result<(), DiskFault> {
    has(rt, alloc, disk, b"abc")?;
    has_failed(rt, disk, 0);
    is_failure(rt, disk.write_at(0, b"x"));
    is_failure(rt, disk.cut(0));
    has_failed(rt, disk, 2);
    failed_first(rt, disk, "write");
    Ok(())
}
