//! Events: their limits, bases, labels and nack numbers.
//!
//! | line | what comes of it |
//! |---|---|
//! | `event EVENT` | nothing; the lines after it are about this event |
//! | `check` | `fits`, or why it is refused |
//! | `count` | how many bases there are, and how many of them ask |
//! | `bases` | each base after its number, a line each |
//! | `at TIME` | `ready` if a base is ready then without a server, else `not ready` |
//! | `base K` | the labels above the base of this number, and what a commitment to it raises |
//! | `nothing` | what is raised if no base is chosen |
//! | `labels K` | how many labels are above the base |

mod made;

use linda_event::{
    Base, Event, all_nacks, ask_count, base_count, bases, check, has_ready_base, labels_of,
    nacks_of,
};
use linda_test_script::{WordsFault, done, read_size, split_word};
use linda_text::{push_atom, push_template};
use linda_tuple::Template;
pub use made::event_of;
use std::alloc::{AllocError, Global};

/// The player of rows of events.
#[derive(Drop)]
pub struct Events {
    event: Event,
}

impl Events {
    /// The event `never`, before a row says another one.
    pub fn new() -> Events {
        Events {
            event: Event::Never,
        }
    }

    /// Plays a line.
    pub fn play(
        &mut self,
        alloc: Global,
        words: &str,
        came: &mut String,
    ) -> Result<(), WordsFault> {
        let (verb, rest) = split_word(words);
        match verb {
            "event" => self.renew(alloc, rest),
            "check" | "count" | "bases" | "nothing" => {
                done(tell_whole(alloc, &self.event, verb, came))
            }
            "at" | "base" | "labels" => {
                done(tell_at(alloc, &self.event, verb, read_size(rest)?, came))
            }
            _ => Err(WordsFault::Unknown),
        }
    }

    // Goes on with the event that the words say.
    fn renew(&mut self, alloc: Global, words: &str) -> Result<(), WordsFault> {
        self.event = event_of(alloc, words)?;
        Ok(())
    }
}

// Writes what the verb asks of the whole event.
fn tell_whole(
    alloc: Global,
    event: &Event,
    verb: &str,
    came: &mut String,
) -> Result<(), AllocError> {
    match verb {
        "check" => tell_check(event, came),
        "count" => tell_count(event, came),
        "bases" => tell_bases(alloc, event, came),
        _ => tell_nothing(alloc, event, came),
    }
}

// Writes what the verb asks of the event at this time, or of its base of this number.
fn tell_at(
    alloc: Global,
    event: &Event,
    verb: &str,
    number: usize,
    came: &mut String,
) -> Result<(), AllocError> {
    match verb {
        "at" => tell_ready(event, number as u64, came),
        "base" => tell_base(alloc, event, number, came),
        _ => tell_labels(alloc, event, number, came),
    }
}

fn tell_check(event: &Event, came: &mut String) -> Result<(), AllocError> {
    match check(event) {
        Ok(()) => came.push_str("> fits\n"),
        Err(fault) => writeln!(came, "> {fault}"),
    }
}

fn tell_count(event: &Event, came: &mut String) -> Result<(), AllocError> {
    let (bases, asks) = (base_count(event), ask_count(event));
    writeln!(came, "> bases {bases} asks {asks}")
}

fn tell_bases(alloc: Global, event: &Event, came: &mut String) -> Result<(), AllocError> {
    let found = bases(alloc, event)?;
    for (place, base) in found.iter().enumerate() {
        tell_placed(place, base, came)?;
    }
    Ok(())
}

fn tell_placed(place: usize, base: &Base, came: &mut String) -> Result<(), AllocError> {
    write!(came, "> {place} ")?;
    push_base(came, base)?;
    came.push('\n')
}

fn push_base(came: &mut String, base: &Base) -> Result<(), AllocError> {
    match base {
        Base::Input(template) => push_pattern(came, "in ", template),
        Base::Read(template) => push_pattern(came, "rd ", template),
        Base::Alarm(time) => write!(came, "alarm {time}"),
        Base::Always(value) => {
            came.push_str("always ")?;
            push_atom(came, value)
        }
        Base::Never => came.push_str("never"),
    }
}

fn push_pattern(came: &mut String, word: &str, template: &Template) -> Result<(), AllocError> {
    came.push_str(word)?;
    push_template(came, template)
}

fn tell_ready(event: &Event, clock: u64, came: &mut String) -> Result<(), AllocError> {
    came.push_str(if has_ready_base(event, clock) {
        "> ready\n"
    } else {
        "> not ready\n"
    })
}

fn tell_base(
    alloc: Global,
    event: &Event,
    base: usize,
    came: &mut String,
) -> Result<(), AllocError> {
    came.push('>')?;
    push_numbers(came, "labels", &labels_of(alloc, event, base)?)?;
    push_numbers(came, "raised", &nacks_of(alloc, event, base)?)?;
    came.push('\n')
}

fn tell_nothing(alloc: Global, event: &Event, came: &mut String) -> Result<(), AllocError> {
    came.push('>')?;
    push_numbers(came, "raised", &all_nacks(alloc, event)?)?;
    came.push('\n')
}

fn tell_labels(
    alloc: Global,
    event: &Event,
    base: usize,
    came: &mut String,
) -> Result<(), AllocError> {
    let count = labels_of(alloc, event, base)?.len();
    writeln!(came, "> labels {count}")
}

// Appends a name and a list of numbers, as ` labels [2, 1]`.
fn push_numbers(out: &mut String, name: &str, numbers: &[u64]) -> Result<(), AllocError> {
    write!(out, " {name} [")?;
    for (place, number) in numbers.iter().enumerate() {
        out.push_str(if place == 0 { "" } else { ", " })?;
        write!(out, "{number}")?;
    }
    out.push(']')
}
