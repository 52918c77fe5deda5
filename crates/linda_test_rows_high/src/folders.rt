//! A folder whose files hold bytes, and what is printed of it.
//!
//! - `left BYTES`, `right BYTES`: the file has more; one without bytes is missing. Bytes are as in
//!   `texts`.
//! - `inspect`, `json`, `missing`: what is printed with both lists, as JSON, or if the folder is
//!   missing, and its end if it is a fault.
//!
//! A folder of the name below is made where the program runs, and removed after each line. If one
//! is there already, the line is not understood.

use crate::peers::Buffered;
use crate::texts::{push_bytes, tell_text};
use linda_inspect::Lists;
use linda_serve::{inspect_folder, inspect_folder_as_json};
use linda_test_script::{WordsFault, done, split_word};
use std::alloc::{AllocError, Global};
use std::{fs, io};

/// The folder, which is there while a line is played.
const FOLDER: &str = "linda_test_rows_folder";

const LEFT: &str = "linda_test_rows_folder/left.bank";

const RIGHT: &str = "linda_test_rows_folder/right.bank";

/// The bytes of the left file and of the right one, of which one without bytes is missing.
#[derive(Drop)]
pub(crate) struct Folders {
    left: Vec<u8>,
    right: Vec<u8>,
}

impl Folders {
    /// Both files are missing.
    pub(crate) fn new(alloc: Global) -> Folders {
        Folders {
            left: Vec::new(alloc),
            right: Vec::new(alloc),
        }
    }

    /// Begins a row.
    pub(crate) fn begin(&mut self) {
        self.left.clear();
        self.right.clear();
    }

    /// Does what the words say.
    pub(crate) fn play(
        &mut self,
        files: &HostRuntime,
        alloc: Global,
        words: &str,
        came: &mut String,
    ) -> Result<(), WordsFault> {
        let (word, rest) = split_word(words);
        match word {
            "left" => push_bytes(alloc, &mut self.left, rest),
            "right" => push_bytes(alloc, &mut self.right, rest),
            "missing" => inspect(files, alloc, false, came),
            "inspect" => self.inspect_made(files, alloc, false, came),
            "json" => self.inspect_made(files, alloc, true, came),
            _ => Err(WordsFault::Unknown),
        }
    }

    // Writes what is printed of the folder, which is made for that and removed after it.
    fn inspect_made(
        &self,
        files: &HostRuntime,
        alloc: Global,
        json: bool,
        came: &mut String,
    ) -> Result<(), WordsFault> {
        known(fs::create_dir(files, FOLDER))?;
        let told = self.inspect_both(files, alloc, json, came);
        known(fs::remove_dir_all(files, FOLDER))?;
        told
    }

    // Writes what is printed of the folder, which is there and empty, once both files are in it.
    fn inspect_both(
        &self,
        files: &HostRuntime,
        alloc: Global,
        json: bool,
        came: &mut String,
    ) -> Result<(), WordsFault> {
        put_bank(files, LEFT, &self.left)?;
        put_bank(files, RIGHT, &self.right)?;
        inspect(files, alloc, json, came)
    }
}

// The file holds these bytes, or is missing if there are none.
fn put_bank(files: &HostRuntime, path: &str, bytes: &[u8]) -> Result<(), WordsFault> {
    if bytes.is_empty() {
        return Ok(());
    }
    known(fs::write(files, path, bytes))
}

// A line is not understood if the files fail.
fn known(ended: io::Result<()>) -> Result<(), WordsFault> {
    match ended {
        Ok(()) => Ok(()),
        Err(_) => Err(WordsFault::Unknown),
    }
}

// Writes what is printed of the folder, as lines or as JSON.
fn inspect(
    files: &HostRuntime,
    alloc: Global,
    json: bool,
    came: &mut String,
) -> Result<(), WordsFault> {
    done(tell_folder(files, alloc, json, came))
}

// Writes what is printed of the folder and flushed, with both lists, and how that ends if it does
// not end well.
fn tell_folder(
    files: &HostRuntime,
    alloc: Global,
    json: bool,
    came: &mut String,
) -> Result<(), AllocError> {
    let lists = Lists {
        tuples: true,
        clients: true,
    };
    let mut out = Buffered::new(alloc);
    let ended = if json {
        inspect_folder_as_json(files, alloc, &mut out, FOLDER, lists)
    } else {
        inspect_folder(files, alloc, &mut out, FOLDER, lists)
    };
    tell_text(out.flushed(), came)?;
    match ended {
        Ok(()) => Ok(()),
        Err(fault) => writeln!(came, "> {fault}"),
    }
}
