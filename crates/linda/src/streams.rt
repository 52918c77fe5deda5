//! Standard streams that are closed. The system gives the least free descriptor to what is opened:
//! if that is one of a standard stream, what is printed goes into the file of a bank, or to a
//! server. So the free ones are filled first.

use std::fs::{File, Files, OpenOptions};
use std::io;
use std::os::fd::AsRawFd;

/// The descriptors of standard input, output and error are below this.
const FIRST_OTHER: i32 = 3;

/// What opens and gives nothing.
const NOTHING: &str = "/dev/null";

/// What is there on every system, if that is not.
const ROOT: &str = "/";

/// How many files a process may have open was reached: then no descriptor of a standard stream is
/// free.
const TOO_MANY_FILES: i32 = 24;

/// What fills the standard streams that were closed, until it is dropped. Each fails if it is read
/// or written, as a closed one does: a file that is open for the other only.
#[derive(Drop)]
pub struct Streams {
    input: Option<File>,
    output: Option<File>,
    error: Option<File>,
}

impl Streams {
    /// Fills those that are closed.
    ///
    /// # Errors
    ///
    /// What the system says of a file that can always be opened: then nothing else is to be opened.
    pub fn fill<F: Files<File = File>>(files: &F) -> io::Result<Streams> {
        let mut streams = Streams {
            input: None,
            output: None,
            error: None,
        };
        for _ in 0..FIRST_OTHER {
            let Some(file) = open_nothing(files)? else {
                return Ok(streams);
            };
            match file.as_raw_fd() {
                0 => streams.input = Some(unreadable(files, file)),
                1 => streams.output = Some(file),
                2 => streams.error = Some(file),
                _ => return Ok(streams),
            }
        }
        Ok(streams)
    }

    /// Whether standard output was open.
    pub fn has_output(&self) -> bool {
        self.output.is_none()
    }
}

// A file for reading that gives nothing, with the least free descriptor; `None` if as many files as
// may be are open.
fn open_nothing<F: Files<File = File>>(files: &F) -> io::Result<Option<File>> {
    match File::open(files, NOTHING) {
        Ok(file) => Ok(Some(file)),
        Err(error) if error.raw_os_error() == Some(TOO_MANY_FILES) => Ok(None),
        Err(_) => match File::open(files, ROOT) {
            Ok(file) => Ok(Some(file)),
            Err(error) => Err(error),
        },
    }
}

// A file that cannot be read, in place of this one and with its descriptor; this one if there is
// none.
fn unreadable<F: Files<File = File>>(files: &F, file: File) -> File {
    let Ok(spare) = OpenOptions::new().write(true).open(files, NOTHING) else {
        return file;
    };
    drop(file);
    match OpenOptions::new().write(true).open(files, NOTHING) {
        Ok(filled) => filled,
        Err(_) => spare,
    }
}
