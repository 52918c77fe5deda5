//! Runs that are drawn from a seed: the dice, the course of a run, what happened in one, the lines
//! that say one and the playing of them, and the shrinking of a run that differs. A program that
//! plays runs says what an event is.
#![tactic(auto)]

mod course;
mod dice;
mod lines;
mod playing;
mod shrinking;
mod tally;

pub use course::Course;
pub use dice::Dice;
pub use playing::{Player, play_line};
pub use tally::Tally;
