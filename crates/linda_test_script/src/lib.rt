//! Scripts for tests: what goes into a server or a client and what comes of it, as lines of text.
//!
//! A line says what goes in, as `7 out 1 ("a", 3)`; the lines after it that begin with `> ` say
//! what comes of it, as `> 7 stored 1 1`. Messages and replies have each one text, in the words
//! that linda_shell_text writes; tuples and templates are written as people type them. What is read
//! says exactly the text that it was read from. A test plays what its script says and compares what
//! came with the whole script, which `tidied` gives; a program plays the rows on its standard
//! input, and writes those that came otherwise.
#![tactic(auto)]

mod came;
mod fault;
mod frames;
mod kept;
mod lines;
mod message;
mod number;
mod reply;
mod rows;
mod string;

pub use came::{done, tell, tell_found, tell_two};
pub use fault::WordsFault;
pub use frames::{read_hex, said_frames, told_frames};
pub use kept::{tell_replies, tell_tuple};
pub use linda_shell_text::{write_message, write_reply};
pub use lines::{said, tidied, told};
pub use message::{read_batch, read_message, read_messages};
pub use number::{
    read_number, read_numbered, read_size, read_small_number, split_number, split_word,
};
pub use reply::read_reply;
pub use rows::{Played, Player, Sweeps, play_rows, run_rows};
pub use string::string_at;
