//! Scripts over servers and clients, a command a line.
//!
//! `run_script` runs a script over a world of servers, and `trace_script` writes what happens in it
//! too: what it does there is what linda_world proves of every run, and what it prints is shown by
//! tests. The lines of one client are read and written by linda_shell_text, whose calls have their
//! names here too.
#![tactic(auto)]

mod script;

pub use linda_shell_text::{
    EventTextFault, LineFault, MAX_NESTED, Request, a_text_stands_for_one_event, read_event,
    read_request, what_is_written_is_read_again, write_event, write_outcome, write_refusal,
};
pub use script::{ScriptFault, run_script, trace_script};
