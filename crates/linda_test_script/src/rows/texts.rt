//! The text of a row, and what came in its place.

use std::alloc::{AllocError, Global};

/// The text of a row as it is written, and as it came.
#[derive(Drop)]
pub(super) struct RowTexts {
    /// The number of its first line.
    first_line: u64,
    /// The number of the line after it.
    next_line: u64,
    wanted: String,
    came: String,
}

impl RowTexts {
    /// Of a row that begins at the line of this number, nothing yet.
    pub(super) fn new(alloc: Global, first_line: u64) -> RowTexts {
        RowTexts {
            first_line,
            next_line: first_line,
            wanted: String::new(alloc),
            came: String::new(alloc),
        }
    }

    /// The number of the line after the row.
    pub(super) fn next_line(&self) -> u64 {
        self.next_line
    }

    /// What came so far, for a player to write after it.
    pub(super) fn came_mut(&mut self) -> &mut String {
        &mut self.came
    }

    /// Takes the next line of the row.
    pub(super) fn push_wanted(&mut self, line: &str) -> Result<(), AllocError> {
        self.next_line = self.next_line.saturating_add(1);
        push_line(&mut self.wanted, line)
    }

    /// Appends a line to what came.
    pub(super) fn push_came(&mut self, line: &str) -> Result<(), AllocError> {
        push_line(&mut self.came, line)
    }

    /// Whether all came as it is written.
    pub(super) fn are_one(&self) -> bool {
        self.came.as_str() == self.wanted.as_str()
    }

    /// Appends the row's number, its heading, and the first line that came otherwise.
    pub(super) fn tell_difference(
        &self,
        number: u64,
        others: &mut String,
    ) -> Result<(), AllocError> {
        let heading = self.wanted.lines().next().unwrap_or("");
        let same = self.same_lines();
        let at = self.first_line.saturating_add(same as u64);
        let wanted = self.wanted.lines().nth(same).unwrap_or("nothing more");
        let came = self.came.lines().nth(same).unwrap_or("nothing more");
        writeln!(others, "row {number}, {heading}")?;
        writeln!(others, "line {at}, wanted: {wanted}")?;
        writeln!(others, "line {at}, came: {came}")
    }

    // How many lines are the same before the first one that came otherwise.
    fn same_lines(&self) -> usize {
        let lines = self.wanted.lines().zip(self.came.lines());
        lines.take_while(|(wanted, came)| wanted == came).count()
    }
}

fn push_line(text: &mut String, line: &str) -> Result<(), AllocError> {
    text.push_str(line)?;
    text.push('\n')
}
