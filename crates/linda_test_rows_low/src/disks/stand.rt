//! Two disks in memory, and what is on them.

use crate::disks::bank::play_bank;
use crate::disks::banks::play_banks;
use crate::disks::disk::play_disk;
use crate::disks::disks::Disks;
use crate::disks::making::{create, give_back, open};
use crate::disks::serving::play_server;
use crate::disks::state::play_state;
use linda_disk::MemDisk;
use linda_journal::Bank;
use linda_server::Durable;
use linda_test_script::{WordsFault, split_word};
use std::alloc::Global;

/// The two disks, which hold nothing, and what does.
pub(crate) struct Stand {
    disks: Disks,
    bank: Option<Bank<MemDisk>>,
    server: Option<Durable<MemDisk>>,
}

// By hand, so that what holds of a server that is dropped is asked for here, and not in `main`.
impl Drop for Stand {
    fn drop(self) {
        let Stand {
            disks: _,
            bank: _,
            server: _,
        } = self;
    }
}

impl Stand {
    /// Two empty disks.
    pub(crate) fn new(alloc: Global) -> Stand {
        Stand {
            disks: Disks::new(alloc),
            bank: None,
            server: None,
        }
    }

    /// Does what the words say, and appends what came of it, but for what is done quietly. If the
    /// server went down and may be opened again, it is, and does it once more.
    pub(crate) fn play(
        &mut self,
        alloc: Global,
        words: &str,
        opens_again: bool,
        came: &mut String,
    ) -> Result<(), WordsFault> {
        let quiet = words.strip_prefix("quiet ");
        let words = quiet.unwrap_or(words);
        let mut told = String::new(alloc);
        self.play_words(alloc, words, &mut told)?;
        if opens_again && told.as_str() == "> down\n" {
            told.clear();
            self.open_again(alloc)?;
            self.play_words(alloc, words, &mut told)?;
        }
        if quiet.is_none() {
            came.push_str(&told)?;
        }
        Ok(())
    }

    // The server that went down gives its disks back, and is opened on them.
    fn open_again(&mut self, alloc: Global) -> Result<(), WordsFault> {
        let mut told = String::new(alloc);
        give_back(&mut self.disks, &mut self.server)?;
        open(alloc, &mut self.disks, &mut self.server, "200", &mut told)
    }

    fn play_words(
        &mut self,
        alloc: Global,
        words: &str,
        came: &mut String,
    ) -> Result<(), WordsFault> {
        let (word, rest) = split_word(words);
        match word {
            "disks" => self.disks.hold_words(alloc, rest),
            "crash" => self.disks.crash(rest),
            "unsynced" => self.disks.tell_unsynced(alloc, came),
            "left" => play_disk(alloc, &mut self.disks.left, rest, came),
            "right" => play_disk(alloc, &mut self.disks.right, rest, came),
            "bank" => play_bank(alloc, &mut self.disks.left, &mut self.bank, rest, came),
            "banks" => play_banks(alloc, &mut self.disks, rest, came),
            "state" => play_state(alloc, self.disks.left.bytes(), rest, came),
            "create" => create(alloc, &mut self.disks, &mut self.server, rest, came),
            "open" => open(alloc, &mut self.disks, &mut self.server, rest, came),
            "shut" => give_back(&mut self.disks, &mut self.server),
            _ => play_server(alloc, &mut self.server, words, came),
        }
    }
}
