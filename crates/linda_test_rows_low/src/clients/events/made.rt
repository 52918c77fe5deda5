//! Events as rows say them: as people type them, or made of so many alike.

use linda_event::Event;
use linda_shell_text::{EventTextFault, read_event};
use linda_test_script::{WordsFault, read_size, split_word};
use linda_text::TextFault;
use std::alloc::Global;

/// The event that the words say: typed; a choice of so many bases alike, as `40 inputs, 24 reads,
/// 192 alarms`; or one of these under so many labels, as `64 labels over never`.
pub fn event_of(alloc: Global, words: &str) -> Result<Event, WordsFault> {
    match words.split_once(" labels over ") {
        Some((count, below)) => labelled(alloc, read_size(count)?, unlabelled(alloc, below)?),
        None => unlabelled(alloc, words),
    }
}

fn unlabelled(alloc: Global, words: &str) -> Result<Event, WordsFault> {
    match typed_event(alloc, words) {
        Err(WordsFault::Unknown) => choice_of(alloc, words),
        read => read,
    }
}

// The event under so many labels, of which the innermost is 0.
fn labelled(alloc: Global, count: usize, below: Event) -> Result<Event, WordsFault> {
    let mut event = below;
    let mut label: u64 = 0;
    for _ in 0..count {
        event = Event::Wrap(label, Box::new(alloc, event)?);
        label = label.saturating_add(1);
    }
    Ok(event)
}

// A choice of so many inputs, reads and alarms.
fn choice_of(alloc: Global, words: &str) -> Result<Event, WordsFault> {
    let mut members = Vec::new(alloc);
    for part in words.split(',') {
        push_alike(alloc, &mut members, part.trim())?;
    }
    Ok(Event::Choose(members))
}

// Appends so many bases alike.
fn push_alike(alloc: Global, members: &mut Vec<Event>, words: &str) -> Result<(), WordsFault> {
    let (count, kind) = split_word(words);
    for _ in 0..read_size(count)? {
        members.push(member_of(alloc, kind)?)?;
    }
    Ok(())
}

fn member_of(alloc: Global, kind: &str) -> Result<Event, WordsFault> {
    match kind {
        "inputs" => typed_event(alloc, r#"in ("a", ?i)"#),
        "reads" => typed_event(alloc, r#"rd ("a", ?i)"#),
        "alarms" => Ok(Event::Alarm(3)),
        _ => Err(WordsFault::Unknown),
    }
}

// The event that the words say, as people type it.
fn typed_event(alloc: Global, words: &str) -> Result<Event, WordsFault> {
    match read_event(alloc, words) {
        Ok(event) => Ok(event),
        Err(EventTextFault::Text(TextFault::Memory)) => Err(WordsFault::Memory),
        Err(_) => Err(WordsFault::Unknown),
    }
}
