//! Lines that are played many times over, each time from the beginning with other words in them.

use crate::fault::WordsFault;
use crate::rows::Player;
use crate::rows::runs::Runs;
use std::alloc::{AllocError, Global};

/// A player whose rows may sweep: their lines that begin with `| ` are kept, and `sweep 0-3 by
/// kept, lost` plays all of them for each word of the first list and each of the second, from the
/// beginning, with these words in the places of `$1` and `$2`. `A-B` means all numbers from A to B,
/// and without ` by ` there is one list.
///
/// For each word of the first list a line says which outcome each of the second had, by numbers;
/// words one after another of which the same is said share a line, `0 to 3`. After that is what
/// came of each outcome, line by line.
#[derive(Drop)]
pub struct Sweeps<P: Drop> {
    player: P,
    subject: String,
    kept: String,
}

impl<P: Player + Drop> Sweeps<P> {
    /// The same player, whose rows may sweep.
    pub fn new(alloc: Global, player: P) -> Sweeps<P> {
        Sweeps {
            player,
            subject: String::new(alloc),
            kept: String::new(alloc),
        }
    }

    // Plays what is kept in each case, and writes what came.
    fn sweep(&mut self, alloc: Global, cases: &str, came: &mut String) -> Result<(), WordsFault> {
        let (firsts, seconds) = match cases.split_once(" by ") {
            Some(lists) => lists,
            None => (cases, ""),
        };
        let firsts = listed(alloc, firsts)?;
        let seconds = listed(alloc, seconds)?;
        let mut outcomes = Vec::new(alloc);
        let mut rows = Runs::new(alloc);
        for first in &firsts {
            let told = self.sweep_seconds(alloc, first, &seconds, &mut outcomes)?;
            rows.take(alloc, first, &told)?;
        }
        rows.tell(came)?;
        tell_outcomes(came, &outcomes)
    }

    // Plays what is kept with this word and each of the second list, and gives which outcome each
    // has.
    fn sweep_seconds(
        &mut self,
        alloc: Global,
        first: &str,
        seconds: &[String],
        outcomes: &mut Vec<String>,
    ) -> Result<String, WordsFault> {
        let mut columns = Runs::new(alloc);
        for second in seconds {
            let outcome = self.play_case(alloc, first, second)?;
            let number = number_of(outcomes, outcome)?;
            let number = format!(in alloc; "{number}")?;
            columns.take(alloc, second, &number)?;
        }
        Ok(columns.joined(alloc)?)
    }

    // Plays what is kept with these words in it, from the beginning.
    fn play_case(
        &mut self,
        alloc: Global,
        first: &str,
        second: &str,
    ) -> Result<String, WordsFault> {
        let mut came = String::new(alloc);
        self.player.begin(alloc, &self.subject)?;
        for line in self.kept.lines() {
            let words = filled(alloc, line, "$1", first)?;
            let words = filled(alloc, &words, "$2", second)?;
            self.player.play(alloc, &words, &mut came)?;
        }
        Ok(came)
    }
}

impl<P: Player + Drop> Player for Sweeps<P> {
    fn begin(&mut self, alloc: Global, subject: &str) -> Result<(), WordsFault> {
        self.kept.clear();
        self.subject.clear();
        self.subject.push_str(subject)?;
        self.player.begin(alloc, subject)
    }

    fn play(&mut self, alloc: Global, words: &str, came: &mut String) -> Result<(), WordsFault> {
        if let Some(line) = words.strip_prefix("| ") {
            self.kept.push_str(line)?;
            return Ok(self.kept.push('\n')?);
        }
        match words.strip_prefix("sweep ") {
            Some(cases) => self.sweep(alloc, cases, came),
            None => self.player.play(alloc, words, came),
        }
    }
}

// The words of a list, with all numbers of each range.
fn listed(alloc: Global, list: &str) -> Result<Vec<String>, AllocError> {
    let mut words = Vec::new(alloc);
    for word in list.split(", ") {
        match range_of(word) {
            Some((first, last)) => {
                for number in first..=last {
                    words.push(format!(in alloc; "{number}")?)?;
                }
            }
            None => words.push(String::from_str(alloc, word)?)?,
        }
    }
    Ok(words)
}

// The first number and the last one, if the word is a range of numbers.
fn range_of(word: &str) -> Option<(u64, u64)> {
    let (first, last) = word.split_once('-')?;
    match (first.parse::<u64>(), last.parse::<u64>()) {
        (Ok(first), Ok(last)) => Some((first, last)),
        _ => None,
    }
}

// The line with a word in each place of this mark.
fn filled(alloc: Global, line: &str, mark: &str, word: &str) -> Result<String, AllocError> {
    let mut text = String::new(alloc);
    let mut is_behind = false;
    for piece in line.split(mark) {
        if is_behind {
            text.push_str(word)?;
        }
        text.push_str(piece)?;
        is_behind = true;
    }
    Ok(text)
}

// The number of the outcome, from 1, which is a new one if there is no such outcome.
fn number_of(outcomes: &mut Vec<String>, outcome: String) -> Result<usize, AllocError> {
    for (at, known) in outcomes.iter().enumerate() {
        if known.as_str() == outcome.as_str() {
            return Ok(at.saturating_add(1));
        }
    }
    outcomes.push(outcome)?;
    Ok(outcomes.len())
}

// Appends what came of each outcome, after its number.
fn tell_outcomes(came: &mut String, outcomes: &[String]) -> Result<(), WordsFault> {
    for (at, outcome) in outcomes.iter().enumerate() {
        let number = at.saturating_add(1);
        if outcome.is_empty() {
            writeln!(came, "> {number}: nothing")?;
        }
        for line in outcome.lines() {
            let line = line.strip_prefix("> ").unwrap_or(line);
            writeln!(came, "> {number}: {line}")?;
        }
    }
    Ok(())
}
