//! Two disks: what they hold, and how both crash.

use crate::disks::disk::{crash, hold_words, was_synced};
use crate::disks::torn::split_torn;
use linda_disk::MemDisk;
use linda_test_script::{WordsFault, split_word, tell};
use std::alloc::Global;
use std::mem;

/// The left disk and the right one.
#[derive(Drop)]
pub(crate) struct Disks {
    pub(crate) left: MemDisk,
    pub(crate) right: MemDisk,
}

impl Disks {
    /// Two empty disks.
    pub(crate) fn new(alloc: Global) -> Disks {
        Disks {
            left: MemDisk::new(alloc),
            right: MemDisk::new(alloc),
        }
    }

    /// The two disks, in whose places empty ones are then.
    pub(crate) fn take(&mut self, alloc: Global) -> Disks {
        mem::replace(self, Disks::new(alloc))
    }

    /// Lets the two disks hold the bytes of these two words.
    pub(crate) fn hold_words(&mut self, alloc: Global, words: &str) -> Result<(), WordsFault> {
        let (left, right) = split_word(words);
        hold_words(alloc, &mut self.left, left)?;
        hold_words(alloc, &mut self.right, right)
    }

    /// Lets both disks crash.
    pub(crate) fn crash(&mut self, words: &str) -> Result<(), WordsFault> {
        let (torn, _rest) = split_torn(words)?;
        crash(&mut self.left, torn)?;
        crash(&mut self.right, torn)
    }

    /// Lets both disks crash, and says which of them had bytes that were not synced.
    pub(crate) fn tell_unsynced(
        &mut self,
        alloc: Global,
        came: &mut String,
    ) -> Result<(), WordsFault> {
        let left = was_synced(alloc, &mut self.left)?;
        let right = was_synced(alloc, &mut self.right)?;
        let which = match (left, right) {
            (true, true) => "neither",
            (false, true) => "left",
            (true, false) => "right",
            (false, false) => "both",
        };
        tell(came, which)
    }
}
