//! `linda pipe`: one connection to one server in memory, over lines of hexadecimal digits.
//!
//! `pipe` serves it, for every reader and writer: the bytes of the lines are one stream, and the
//! lines written are the replies to it. If it ends otherwise a `PipeFault` says why, and all
//! replies to the lines before are written, or some first bytes of them if the output failed.
//! `specs/Piping` says all of it.
//!
//! What other commands need is here as well: `extend_line` and `without_return`, which cut a text
//! into lines while its pieces arrive, and the exit statuses `REFUSED` and `BAD_LINE`.
#![tactic(auto)]

mod decode;
mod exchange;
mod fault;
mod line;
mod piping;
mod reply_line;

pub use decode::without_return;
pub use fault::{BAD_LINE, PipeFault, REFUSED};
pub use line::extend_line;
pub use piping::pipe;
