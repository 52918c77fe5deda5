//! Facts known of a file without a call of the system.

ghost use Rattle.std.specs.Prelude.{◌≡◌, ◌≤◌, [], true, length, take, IfOk, OnOk};
ghost use Rattle.linda_disk.specs.DiskHistory.{content, fits};
ghost use Rattle.linda_disk.specs.Past.{history_of, first_or, first_after};

use crate::fault::DiskFault;
use crate::past::{Link, note_bytes, note_cut, note_sync, note_write, opened};
use linda_ghost::Moment;
use std::alloc::Global;
use std::fs::File;
use std::os::unix::fs::FileExt;

/// How many bytes of its front are kept of a file that was read to its end, or is not to be.
pub(crate) const FRONT: usize = 4096;

/// How many bytes are read at a time, of those that are not kept.
const PIECE: usize = 65_536;

/// What a file held when it was opened, and each call since: for contracts all of that, and at run
/// time its length, its first byte, and until the first write or cut a front of it.
#[derive(Drop)]
pub(crate) struct FileState {
    len: usize,
    // The first byte, if there is one.
    first: u8,
    // What it begins with.
    front: Vec<u8>,
    past: Moment<Link>,
    ghost begun: { fits (history_of past.value) ≡ true },
    ghost long: { len ≡ length (content (history_of past.value)) },
    ghost begins: { first_or first (content (history_of past.value)) ≡ first },
    ghost kept: { front.items ≡ take (length front.items) (content (history_of past.value)) },
}

impl FileState {
    ghost use Rattle.std.specs.Prelude.{◌≡◌, ◌+◌, ◌<◌, ◌≤◌, [], true, length, take, drop, IfOk};
    ghost use Rattle.std.specs.Prelude.{OnOk, OnErr, Err};
    ghost use Rattle.linda_disk.specs.declared.call.DeviceCall.TheVariants.{Write, Cut, Sync};
    ghost use Rattle.linda_disk.specs.DiskHistory.{after, content};
    ghost use Rattle.linda_disk.specs.FileState.{history};

    /// Syncs a file and reads all of it, and keeps as many bytes of its front, at most.
    ///
    /// # Errors
    ///
    /// `Device` if it cannot be synced or read, `Memory`.
    pub(crate) fn read_file(alloc: Global, file: &File, most: usize) -> Result<FileState, DiskFault>
        requires { 0 < most }
        ensures { IfOk result (λ k. (history k).calls ≡ []) }
    {
        let len = synced_len(file)?;
        let front = read_piece(alloc, file, 0, len.min(most))?;
        let mut past = opened();
        note_bytes(&mut past, &front);
        read_rest(alloc, file, &mut past, front.len(), len)?;
        Ok(FileState {
            len,
            first: first_of(0, 0, &front),
            front,
            past,
        })
    }

    /// How long the file is.
    pub(crate) fn len(&self) -> usize
        ensures { result ≡ length (content (history self.now)) }
    {
        self.len
    }

    /// Fills the buffer with what is kept from this offset on; false if that does not reach so far.
    /// After a read to the end of the file a front of it is kept.
    pub(crate) fn read(&mut self, at: usize, buffer: &mut [u8]) -> bool
        requires { at + length buffer.old ≤ length (content (history self.old)) }
        ensures bytes { result ≡ true
            → buffer.new ≡ take (length buffer.old) (drop at (content (history self.old))) }
        ensures same { history self.new ≡ history self.old }
    {
        let end = at + buffer.len();
        if end <= self.front.len() {
            buffer.copy_from_slice(&self.front[at..end]);
            if end == self.len {
                self.keep(FRONT);
            }
            return true;
        }
        if end > 1 {
            return false;
        }
        let first = [self.first];
        buffer.copy_from_slice(&first[at..end]);
        true
    }

    // Keeps so many bytes of the front, and gives back the memory of the others.
    fn keep(&mut self, most: usize)
        ensures same { history self.new ≡ history self.old }
        ensures none { most ≡ 0 → self.new.front.items ≡ [] }
    {
        self.front.truncate(most);
        self.front.shrink_to_fit();
    }

    /// These bytes are written at this offset.
    ///
    /// # Errors
    ///
    /// `Memory` if no file reaches so far, and then nothing is.
    pub(crate) fn write(&mut self, at: usize, bytes: &[u8]) -> Result<(), DiskFault>
        requires { at ≤ length (content (history self.old)) }
        ensures ok { OnOk result (history self.new
            ≡ after (Write at bytes.now) (history self.old)) }
        ensures err { OnErr result (history self.new ≡ history self.old) }
        ensures fault { OnErr result (result ≡ Err DiskFault.Memory) }
    {
        let Some(end) = at.checked_add(bytes.len()) else {
            return Err(DiskFault::Memory);
        };
        self.keep(0);
        note_write(&mut self.past, at, bytes);
        self.first = first_of(self.first, at, bytes);
        self.len = self.len.max(end);
        Ok(())
    }

    /// The file is cut to this length.
    pub(crate) fn cut(&mut self, len: usize)
        ensures { history self.new ≡ after (Cut len) (history self.old) }
    {
        self.keep(0);
        note_cut(&mut self.past, len);
        self.len = self.len.min(len);
    }

    /// All that was written is synced.
    pub(crate) fn sync(&mut self)
        ensures { history self.new ≡ after Sync (history self.old) }
    {
        note_sync(&mut self.past);
    }
}

// The first byte after a write of these bytes at this offset, with the one before it.
fn first_of(first: u8, at: usize, bytes: &[u8]) -> u8
    ensures { result ≡ first_after first at bytes.now }
{
    if at > 0 || bytes.is_empty() {
        return first;
    }
    bytes[0]
}

// Syncs a file, and returns its length.
fn synced_len(file: &File) -> Result<usize, DiskFault> {
    if file.sync_data().is_err() {
        return Err(DiskFault::Device);
    }
    match file.metadata() {
        Ok(metadata) => Ok(metadata.len() as usize),
        Err(_) => Err(DiskFault::Device),
    }
}

// So many bytes of a file, from this offset on.
fn read_piece(alloc: Global, file: &File, at: usize, len: usize) -> Result<Vec<u8>, DiskFault>
    ensures { IfOk result (λ v. length v.items ≡ len) }
{
    let mut piece = vec![in alloc; 0; len]?;
    match file.read_exact_at(&mut piece, at as u64) {
        Ok(()) => Ok(piece),
        Err(_) => Err(DiskFault::Device),
    }
}

// Reads a file from an offset to its end, and puts what it holds there on record.
fn read_rest(
    alloc: Global,
    file: &File,
    past: &mut Moment<Link>,
    from: usize,
    len: usize,
) -> Result<(), DiskFault>
    requires from { (history_of past.old.value).calls ≡ [] }
    requires long { length (history_of past.old.value).first ≡ from }
    requires within { from ≤ len }
    ensures calls { OnOk result ((history_of past.new.value).calls ≡ []) }
    ensures long { OnOk result (length (history_of past.new.value).first ≡ len) }
    ensures front { OnOk result (take from (history_of past.new.value).first
        ≡ (history_of past.old.value).first) }
{
    let mut at = from;
    while at < len {
        let piece = read_piece(alloc, file, at, PIECE.min(len - at))?;
        note_bytes(past, &piece);
        at += piece.len();
    }
    Ok(())
}
