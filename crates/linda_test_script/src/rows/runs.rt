//! Runs of words of which the same is reported, one after another.

use std::alloc::{AllocError, Global};

/// Words one after another, of which the same is reported.
#[derive(Drop)]
struct Run {
    first: String,
    last: String,
    told: String,
}

/// What is reported of words.
#[derive(Drop)]
pub(super) struct Runs {
    runs: Vec<Run>,
}

impl Runs {
    /// Of no word yet.
    pub(super) fn new(alloc: Global) -> Runs {
        Runs {
            runs: Vec::new(alloc),
        }
    }

    /// Takes the next word, and what is reported of it.
    pub(super) fn take(&mut self, alloc: Global, word: &str, told: &str) -> Result<(), AllocError> {
        let word = String::from_str(alloc, word)?;
        if let Some(run) = self.runs.last_mut() {
            if run.told.as_str() == told {
                run.last = word;
                return Ok(());
            }
        }
        self.runs.push(Run {
            first: word.clone()?,
            last: word,
            told: String::from_str(alloc, told)?,
        })?;
        Ok(())
    }

    /// Appends a line for each run, as `> 0 to 3: 1`.
    pub(super) fn tell(&self, lines: &mut String) -> Result<(), AllocError> {
        for run in &self.runs {
            lines.push_str("> ")?;
            run.push_words(lines)?;
            writeln!(lines, ": {}", run.told)?;
        }
        Ok(())
    }

    /// All runs in one, as `kept to lost 1, filled 00 2`; of the empty word only what came of it.
    pub(super) fn joined(&self, alloc: Global) -> Result<String, AllocError> {
        let mut text = String::new(alloc);
        for run in &self.runs {
            if !text.is_empty() {
                text.push_str(", ")?;
            }
            run.push_words(&mut text)?;
            if !run.last.is_empty() {
                text.push(' ')?;
            }
            text.push_str(&run.told)?;
        }
        Ok(text)
    }
}

impl Run {
    // Appends its words, as `0 to 3`, or the one that it has.
    fn push_words(&self, text: &mut String) -> Result<(), AllocError> {
        text.push_str(&self.first)?;
        if self.first.as_str() != self.last.as_str() {
            write!(text, " to {}", self.last)?;
        }
        Ok(())
    }
}
