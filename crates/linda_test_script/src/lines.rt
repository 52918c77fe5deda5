//! The lines of a script.

use std::alloc::{AllocError, Global};

/// The input of a line: the line without the blanks around it, if anything is there and it is no
/// output line, which begins with `>`.
pub fn said(line: &str) -> Option<&str> {
    let line = line.trim();
    if line.is_empty() || line.starts_with('>') {
        None
    } else {
        Some(line)
    }
}

/// The output of a line: what is after `> `, if it begins so.
pub fn told(line: &str) -> Option<&str> {
    line.trim().strip_prefix("> ")
}

/// The lines of a script that are not empty, without blanks around them, each with a line feed.
///
/// # Errors
///
/// `AllocError` if memory runs out.
pub fn tidied(alloc: Global, script: &str) -> Result<String, AllocError> {
    let mut lines = String::new(alloc);
    for line in script.lines() {
        let line = line.trim();
        if !line.is_empty() {
            lines.push_str(line)?;
            lines.push('\n')?;
        }
    }
    Ok(lines)
}
