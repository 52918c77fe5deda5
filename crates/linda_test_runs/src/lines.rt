//! Lines of a program that plays runs: each says one, and how.

use crate::course::Course;
use std::alloc::{AllocError, Global};

/// How a run is played.
#[derive(Clone, Copy, PartialEq, Eq)]
pub enum How {
    /// It is said whether it differs.
    Plain,
    /// It is said what happened in it, too.
    Tell,
    /// It is played twice, and has to be the same.
    Twice,
    /// If it differs, it is shrunk.
    Shrink,
}

/// The run that a line says: `SEED EVENTS`, or `SEED only NUMBER ..`, after the word `scarce`, if
/// memory is, and after a word for how it is played, if there is one.
pub fn read_line(alloc: Global, line: &str) -> Result<Option<(How, Course)>, AllocError> {
    let line = line.trim();
    let (how, words) = match line.split_once(' ') {
        Some(("tell", words)) => (How::Tell, words),
        Some(("twice", words)) => (How::Twice, words),
        Some(("shrink", words)) => (How::Shrink, words),
        _ => (How::Plain, line),
    };
    match read_course(alloc, words)? {
        Some(course) => Ok(Some((how, course))),
        None => Ok(None),
    }
}

fn read_course(alloc: Global, words: &str) -> Result<Option<Course>, AllocError> {
    let (is_scarce, words) = match words.strip_prefix("scarce ") {
        Some(words) => (true, words),
        None => (false, words),
    };
    let Some((seed, rest)) = words.split_once(' ') else {
        return Ok(None);
    };
    let Ok(seed) = seed.parse::<u64>() else {
        return Ok(None);
    };
    if let Some(numbers) = rest.strip_prefix("only ") {
        return match read_numbers(alloc, numbers)? {
            Some(list) => Ok(Some(Course::of(seed, is_scarce, list))),
            None => Ok(None),
        };
    }
    match rest.parse::<u64>() {
        Ok(count) => Ok(Some(Course::whole(seed, is_scarce, count))),
        Err(_) => Ok(None),
    }
}

fn read_numbers(alloc: Global, words: &str) -> Result<Option<Vec<u64>>, AllocError> {
    let mut list = Vec::new(alloc);
    for word in words.split(' ') {
        let Ok(number) = word.parse::<u64>() else {
            return Ok(None);
        };
        list.push(number)?;
    }
    Ok(Some(list))
}
