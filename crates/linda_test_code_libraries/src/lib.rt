//! Layouts, as equations of definitions with literals; and tests of real files, and of a map beside
//! std's ordered tree. They can be no rows of text. All are by public calls only.
#![tactic(auto)]

#[cfg(test)]
mod files;
pub mod layouts;
#[cfg(test)]
mod rising;
