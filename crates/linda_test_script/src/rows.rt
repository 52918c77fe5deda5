//! Rows: what a program is to do, and beside it what is to come of it, as one text.
//!
//! ```text
//! # A comment.
//! == step: a request that waits is offered what is put
//! 8 in 1 ("a", ?i)
//! 7 out 1 ("a", 4)
//! > 7 stored 1 1
//! > 8 offer 1 1 ("a", 4)
//! ```
//!
//! A row begins with a line `== SUBJECT: what is to be seen`, and the player begins anew there. A
//! line that begins with `>` is wanted of the line before it; a line that begins with `#`, and an
//! empty one, says nothing; each other line is played. A row comes as it says if its text, with
//! what came in place of what is wanted, is the text that it was.

mod running;
mod runs;
mod sweeps;
mod texts;

use crate::fault::WordsFault;
use crate::lines::said;
pub use running::run_rows;
use std::alloc::{AllocError, Global};
pub use sweeps::Sweeps;
use texts::RowTexts;

/// What plays the rows of a program.
pub trait Player {
    /// Begins a row of this subject, with nothing of the rows before it.
    ///
    /// # Errors
    ///
    /// `Unknown` for a subject that is not known: no line of the row is played then. `Memory` if
    /// memory runs out.
    fn begin(&mut self, alloc: Global, subject: &str) -> Result<(), WordsFault>;

    /// Does what a line says, and appends what came of it, line by line, each after `> `.
    ///
    /// # Errors
    ///
    /// `Unknown` if the words say nothing to do. `Memory` if memory runs out.
    fn play(&mut self, alloc: Global, words: &str, came: &mut String) -> Result<(), WordsFault>;
}

/// What came of rows.
#[derive(Drop)]
pub struct Played {
    /// How many rows came as they say.
    pub as_wanted: u64,
    /// Of each row that came otherwise its number, its heading, and the first line that did. After
    /// a line that says nothing to do comes `> ? not understood`.
    pub others: String,
}

/// Plays the rows.
///
/// # Errors
///
/// `Memory` if memory runs out.
pub fn play_rows<P: Player>(
    alloc: Global,
    player: &mut P,
    rows: &str,
) -> Result<Played, WordsFault> {
    let mut played = Played {
        as_wanted: 0,
        others: String::new(alloc),
    };
    let mut row = Row::new(alloc);
    for line in rows.lines() {
        if line.starts_with("== ") {
            end_row(&row, &mut played)?;
            row.go_on(alloc);
        }
        row.take_line(alloc, player, line)?;
    }
    end_row(&row, &mut played)?;
    Ok(played)
}

// Counts a row that came as it says, or says how it differs. What is before the first one is no
// row, but has to come as it says too.
fn end_row(row: &Row, played: &mut Played) -> Result<(), AllocError> {
    if !row.texts.are_one() {
        return row.texts.tell_difference(row.number, &mut played.others);
    }
    if row.number > 0 {
        played.as_wanted = played.as_wanted.saturating_add(1);
    }
    Ok(())
}

/// The row that is played, or the lines before the first one.
#[derive(Drop)]
struct Row {
    /// Its number, from 1; 0 before the first one.
    number: u64,
    /// Whether the player knows its subject.
    is_known: bool,
    texts: RowTexts,
}

impl Row {
    // What is before the first row.
    fn new(alloc: Global) -> Row {
        Row {
            number: 0,
            is_known: false,
            texts: RowTexts::new(alloc, 1),
        }
    }

    // The row after this one, of which nothing was read yet.
    fn go_on(&mut self, alloc: Global) {
        self.number = self.number.saturating_add(1);
        self.is_known = false;
        self.texts = RowTexts::new(alloc, self.texts.next_line());
    }

    // Takes the next line of the row, and lets the player do what it says.
    fn take_line<P: Player>(
        &mut self,
        alloc: Global,
        player: &mut P,
        line: &str,
    ) -> Result<(), WordsFault> {
        self.texts.push_wanted(line)?;
        if line.trim().starts_with('>') {
            return Ok(());
        }
        self.texts.push_came(line)?;
        let done = match line.strip_prefix("== ") {
            Some(heading) => self.begin(alloc, player, heading),
            None => self.play(alloc, player, line),
        };
        match done {
            Err(WordsFault::Unknown) => Ok(self.texts.push_came("> ? not understood")?),
            done => done,
        }
    }

    // Lets the player begin the row of this heading.
    fn begin<P: Player>(
        &mut self,
        alloc: Global,
        player: &mut P,
        heading: &str,
    ) -> Result<(), WordsFault> {
        match heading.split_once(": ") {
            Some((subject, _seen)) => player.begin(alloc, subject)?,
            None => return Err(WordsFault::Unknown),
        }
        self.is_known = true;
        Ok(())
    }

    // Lets the player do what a line says, if it says something.
    fn play<P: Player>(
        &mut self,
        alloc: Global,
        player: &mut P,
        line: &str,
    ) -> Result<(), WordsFault> {
        match said(line) {
            Some(words) if !words.starts_with('#') => {
                if self.is_known {
                    player.play(alloc, words, self.texts.came_mut())
                } else {
                    Err(WordsFault::Unknown)
                }
            }
            _ => Ok(()),
        }
    }
}
