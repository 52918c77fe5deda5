//! Lines of a script that are long, or come many times.

use linda_test_script::{WordsFault, read_size, split_word};
use std::alloc::{AllocError, Global};

/// How long the string is that a tilde represents.
const LONG: usize = 255;

/// Appends a line of a script. A tilde in it represents a string of 255 letters, in its quotation
/// marks.
pub fn push_line(script: &mut String, words: &str) -> Result<(), AllocError> {
    for (place, piece) in words.split('~').enumerate() {
        if place > 0 {
            push_long(script)?;
        }
        script.push_str(piece)?;
    }
    script.push('\n')
}

/// Appends a line as often as the number in front of it says.
pub fn push_lines(script: &mut String, words: &str) -> Result<(), WordsFault> {
    let (times, line) = split_word(words);
    for _ in 0..read_size(times)? {
        push_line(script, line)?;
    }
    Ok(())
}

/// Appends so many lines that are passed over.
pub fn push_skipped(script: &mut String, words: &str) -> Result<(), WordsFault> {
    for _ in 0..read_size(words)? {
        script.push_str("# out\n")?;
    }
    Ok(())
}

/// Writes of many lines how many they are, and the last one.
pub fn tell_last(printed: &str, came: &mut String) -> Result<(), AllocError> {
    let Some(lines) = printed.strip_suffix("\n") else {
        return writeln!(came, "> ? no line feed behind {printed}");
    };
    let mut count = 0u64;
    for _line in lines.split('\n') {
        count = count.saturating_add(1);
    }
    match lines.rsplit_once('\n') {
        Some((_, last)) => writeln!(came, "> {count} lines, the last {last}"),
        None => writeln!(came, "> {count} lines, the last {lines}"),
    }
}

// Appends a string of 255 letters in its quotation marks.
fn push_long(script: &mut String) -> Result<(), AllocError> {
    script.push('"')?;
    for _ in 0..LONG {
        script.push('x')?;
    }
    script.push('"')
}
