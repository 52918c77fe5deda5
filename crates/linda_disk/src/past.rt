//! The record of a file: what it held when it was opened, and each call since. Only contracts see
//! it: it takes no memory.

ghost use Rattle.std.specs.Prelude.{◌≡◌, []};
ghost use Rattle.linda_disk.specs.declared.call.DeviceCall.TheVariants.{Write, Cut, Sync};
ghost use Rattle.linda_disk.specs.DiskHistory.{after};
ghost use Rattle.linda_disk.specs.Past.{history_of, bytes_of, with_more};

use linda_ghost::Moment;
use std::mem;

/// A list of bytes, built byte by byte.
#[derive(Drop)]
pub(crate) enum Spelling {
    /// No bytes.
    Empty,
    /// This byte after those.
    With(Moment<Spelling>, u8),
}

/// One link of a record.
#[derive(Drop)]
pub(crate) enum Link {
    /// A file of no bytes was opened.
    Opened,
    /// It held these bytes too, after those before.
    Held(Moment<Link>, Moment<Vec<u8>>),
    /// These bytes were written at this offset.
    Wrote(Moment<Link>, usize, Moment<Spelling>),
    /// The file was cut to this length.
    Cut(Moment<Link>, usize),
    /// All that was written was made durable.
    Synced(Moment<Link>),
}

/// The record of a file of no bytes.
pub(crate) fn opened() -> Moment<Link>
    ensures { history_of result.value ≡ record { first = []; calls = [] } }
{
    Moment::of(&Link::Opened)
}

/// The file held these bytes too.
pub(crate) fn note_bytes(past: &mut Moment<Link>, bytes: &Vec<u8>)
    ensures { history_of past.new.value ≡ with_more bytes.now.items (history_of past.old.value) }
{
    let before = mem::replace(past, opened());
    *past = Moment::of(&Link::Held(before, Moment::of(bytes)));
}

/// These bytes were written at this offset.
pub(crate) fn note_write(past: &mut Moment<Link>, at: usize, bytes: &[u8])
    ensures { history_of past.new.value ≡ after (Write at bytes.now) (history_of past.old.value) }
{
    let before = mem::replace(past, opened());
    *past = Moment::of(&Link::Wrote(before, at, spelled(bytes)));
}

/// The file was cut to this length.
pub(crate) fn note_cut(past: &mut Moment<Link>, len: usize)
    ensures { history_of past.new.value ≡ after (Cut len) (history_of past.old.value) }
{
    let before = mem::replace(past, opened());
    *past = Moment::of(&Link::Cut(before, len));
}

/// All that was written is synced.
pub(crate) fn note_sync(past: &mut Moment<Link>)
    ensures { history_of past.new.value ≡ after Sync (history_of past.old.value) }
{
    let before = mem::replace(past, opened());
    *past = Moment::of(&Link::Synced(before));
}

// These bytes, for contracts.
fn spelled(bytes: &[u8]) -> Moment<Spelling>
    ensures { bytes_of result.value ≡ bytes.now }
{
    let mut so_far = Moment::of(&Spelling::Empty);
    for byte in bytes {
        so_far = Moment::of(&Spelling::With(so_far, *byte));
    }
    so_far
}
