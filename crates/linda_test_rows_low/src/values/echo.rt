//! Rows in rows.
//!
//! `rows TEXT` plays the text as rows, by a player that knows the subject `echo` and the line `say
//! WORDS`, and gives how many rows came as they say, and those that came otherwise.

use crate::values::notation::tell;
use linda_test_script::{Played, Player, WordsFault, done, play_rows, split_word};
use std::alloc::{AllocError, Global};

/// Says what it is given to say.
#[derive(Drop)]
struct Echo;

impl Player for Echo {
    fn begin(&mut self, _alloc: Global, subject: &str) -> Result<(), WordsFault> {
        if subject == "echo" {
            Ok(())
        } else {
            Err(WordsFault::Unknown)
        }
    }

    fn play(&mut self, _alloc: Global, words: &str, came: &mut String) -> Result<(), WordsFault> {
        match words.strip_prefix("say ") {
            Some(words) => done(writeln!(came, "> {words}")),
            None => Err(WordsFault::Unknown),
        }
    }
}

/// Plays a line of a row about rows.
///
/// # Errors
///
/// `Unknown` if it says nothing of the kind; `Memory` if memory runs out.
pub(crate) fn play_rows_in_text(
    alloc: Global,
    words: &str,
    came: &mut String,
) -> Result<(), WordsFault> {
    let (verb, rows) = split_word(words);
    match verb {
        "rows" => tell_rows(alloc, came, rows),
        _ => Err(WordsFault::Unknown),
    }
}

fn tell_rows(alloc: Global, came: &mut String, rows: &str) -> Result<(), WordsFault> {
    let played = play_rows(alloc, &mut Echo, rows)?;
    done(tell_played(came, &played))
}

fn tell_played(came: &mut String, played: &Played) -> Result<(), AllocError> {
    writeln!(came, "> {} as wanted", played.as_wanted)?;
    if played.others.is_empty() {
        return Ok(());
    }
    tell(came, &played.others)
}
