//! The store in a folder: its two files, who has them open, and what is reported of them.
//!
//! - `open_store` opens it for this server only, or creates it if there is none. What it opened is
//!   up.
//! - `serve_folder` serves it by a `ServePlan`, to clients that connect to a port of this machine.
//!   If there is a sink, a `Log` of what happens goes there: a line for each `Notice` of linda_net,
//!   one at the beginning and one at the end, with its `Cause`.
//! - `inspect_folder` says what it comes to, and opens its files only for reading;
//!   `inspect_folder_as_json` does so as one JSON object.
//!
//! If one of them ends otherwise a `ServingFault` says why.
#![tactic(auto)]

mod bank_file;
mod inspecting;
mod serving;

pub use inspecting::{inspect_folder, inspect_folder_as_json};
pub use linda_disk::{FileCall, FileTrouble};
pub use linda_net::{CounterValues, Gauge, Notice, RefusalReason, RefusalValues, Watcher};
pub use serving::{
    Cause, FileLookup, InUse, Log, NonBlockingWriter, ServingFault, SystemLookup, open_store,
    serve_folder, stamp_of,
};
