//! Tasks that the words of a command line ask for.
//!
//! `read_task` reads the words by one command of the parser: the task has the command that the
//! words name, and each number, text and flag as the words say; its numbers are in their ranges. A
//! `ServePlan` has a port, a socket, or both; a call has ports or sockets. `asks_for_version` says
//! exactly whether the words ask for the version, which `VERSION_LINES` gives.
//!
//! Nothing is done here: no file, no port and no stream is touched.
#![tactic(auto)]

mod command;

pub use command::{Paths, Ports, Task, VERSION_LINES, asks_for_version, read_task};
