//! The lines of a log, and their times.
//!
//! - `time SECONDS`: the time so long after 1970 began, or `none`.
//! - `opened right GENERATION`, `opened unknown`, `socket unknown`, `end CAUSE`, `minute`,
//!   `snapshot MILLIS`, ..: it happens, after all that happened in the row; gives the line of the
//!   log, without its time.

use linda_serve::{
    Cause, CounterValues, FileCall, FileTrouble, Gauge, InUse, Log, Notice, RefusalReason,
    RefusalValues, Watcher, stamp_of,
};
use linda_test_script::{WordsFault, done, read_number, read_numbered, split_word};
use std::alloc::{AllocError, Global};
use std::io;
use std::time::Clock;

/// What the server comes to at each line.
const GAUGE: Gauge = Gauge {
    tuples: 3,
    holds: 0,
    oldest_hold: 0,
    waits: 0,
    oldest_wait: 0,
    clients: 2,
    next: 9,
    deeds: 13,
    records: 5,
    used: 178,
    limit: 1000,
    is_down: false,
};

/// What came to it.
const TALLY: CounterValues = CounterValues {
    came: 7,
    over: 4,
    refused: 6,
    closed: 2,
    missed: 3,
    turned: RefusalValues {
        busy: 4,
        clients: 3,
        greetings: 2,
        malformed: 1,
    },
    late: 5,
    groups: 0,
    messages: 0,
    took: 0,
};

/// What the system says if a device is full.
const NO_SPACE: i32 = 28;

/// What happened so far, line by line, and how many lines of the log were given.
#[derive(Drop)]
pub(crate) struct Logs {
    events: String,
    told: usize,
}

impl Logs {
    /// Nothing happened yet.
    pub(crate) fn new(alloc: Global) -> Logs {
        Logs {
            events: String::new(alloc),
            told: 0,
        }
    }

    /// Begins a row.
    pub(crate) fn begin(&mut self) {
        self.events.clear();
        self.told = 0;
    }

    /// Does what the words say: a time is given, or something happens. Then a new log is written of
    /// all that happened, and its lines are given that were not given before.
    pub(crate) fn play<C: Clock>(
        &mut self,
        clock: &C,
        alloc: Global,
        words: &str,
        came: &mut String,
    ) -> Result<(), WordsFault> {
        if let Some(seconds) = words.strip_prefix("time ") {
            return tell_time(seconds, came);
        }
        done(self.note(words))?;
        let sink = log_of(clock, alloc, self.events.as_str())?;
        done(self.tell_new(&sink, came))
    }

    // Keeps what happens.
    fn note(&mut self, words: &str) -> Result<(), AllocError> {
        self.events.push_str(words)?;
        self.events.push('\n')
    }

    // Gives the lines of the log that were not given before.
    fn tell_new(&mut self, sink: &[u8], came: &mut String) -> Result<(), AllocError> {
        let text = std::str::from_utf8(sink).unwrap_or("no text");
        for line in text.lines().skip(self.told) {
            tell_line(line, came)?;
            self.told = self.told.saturating_add(1);
        }
        Ok(())
    }
}

// Gives the time that is so many seconds, as the text says, after 1970 began.
fn tell_time(seconds: &str, came: &mut String) -> Result<(), WordsFault> {
    done(tell_stamp(read_number(seconds)?, came))
}

// Gives the time that is so many seconds after 1970 began, or says that there is none.
fn tell_stamp(seconds: u64, came: &mut String) -> Result<(), AllocError> {
    match stamp_of(seconds) {
        Some(bytes) => {
            let text = std::str::from_utf8(bytes.as_slice()).unwrap_or("no text");
            writeln!(came, "> {text}")
        }
        None => came.push_str("> none\n"),
    }
}

// Gives a line without its time, and as it is if there are not 20 bytes and a blank in front.
fn tell_line(line: &str, came: &mut String) -> Result<(), AllocError> {
    match line.split_once(' ') {
        Some((time, rest)) if time.len() == 20 => writeln!(came, "> {rest}"),
        _ => writeln!(came, "> {line}"),
    }
}

// The log of what happens.
fn log_of<C: Clock>(clock: &C, alloc: Global, events: &str) -> Result<Vec<u8>, WordsFault> {
    let mut sink: Vec<u8> = Vec::new(alloc);
    write_log(clock, alloc, &mut sink, events)?;
    Ok(sink)
}

// Writes the log of what happens.
fn write_log<C: Clock>(
    clock: &C,
    alloc: Global,
    sink: &mut Vec<u8>,
    events: &str,
) -> Result<(), WordsFault> {
    let mut log = Log::new(alloc, Some(sink))?;
    tell_events(clock, &mut log, events)
}

// Lets the log write all that happens.
fn tell_events<C: Clock>(
    clock: &C,
    log: &mut Log<'_, Vec<u8>>,
    events: &str,
) -> Result<(), WordsFault> {
    for words in events.lines() {
        tell_event(clock, log, words)?;
    }
    Ok(())
}

// Lets the log write what happens.
fn tell_event<C: Clock>(
    clock: &C,
    log: &mut Log<'_, Vec<u8>>,
    words: &str,
) -> Result<(), WordsFault> {
    let (word, rest) = split_word(words);
    match word {
        "opened" => log.tell_opened(clock, Some(7000), None, bank_of(rest)?, &GAUGE),
        "socket" => log.tell_opened(clock, None, Some("a b/s"), bank_of(rest)?, &GAUGE),
        "end" => log.tell_end(clock, cause_of(rest)?, TALLY.came, &GAUGE),
        "failed" => log.tell_failed(clock, "left", &trouble_of(rest)?),
        _ => log.tell(clock, notice_of(word, rest)?, &GAUGE, &TALLY),
    }
    Ok(())
}

// The bank that is in use, as `right 4`, if it is known.
fn bank_of(words: &str) -> Result<Option<InUse>, WordsFault> {
    if words == "unknown" {
        return Ok(None);
    }
    let (side, rest) = split_word(words);
    let (generation, _) = read_numbered(rest)?;
    Ok(Some(InUse {
        is_right: side == "right",
        generation: u64::from(generation),
    }))
}

// The cause of this name.
fn cause_of(name: &str) -> Result<Cause, WordsFault> {
    match name {
        "sessions" => Ok(Cause::Sessions),
        "device" => Ok(Cause::Device),
        "memory" => Ok(Cause::Memory),
        _ => Err(WordsFault::Unknown),
    }
}

// A call of this name that found no room.
fn trouble_of(name: &str) -> Result<FileTrouble, WordsFault> {
    Ok(FileTrouble {
        call: call_of(name)?,
        error: io::Error::from_raw_os_error(NO_SPACE),
    })
}

// The call of this name.
fn call_of(name: &str) -> Result<FileCall, WordsFault> {
    match name {
        "length" => Ok(FileCall::Length),
        "read" => Ok(FileCall::Read),
        "write" => Ok(FileCall::Write),
        "cut" => Ok(FileCall::Cut),
        "sync" => Ok(FileCall::Sync),
        _ => Err(WordsFault::Unknown),
    }
}

// The reason of this name for which clients are refused.
fn why_of(name: &str) -> Result<RefusalReason, WordsFault> {
    match name {
        "busy" => Ok(RefusalReason::Busy),
        "clients" => Ok(RefusalReason::Clients),
        "greeting" => Ok(RefusalReason::Greeting),
        "malformed" => Ok(RefusalReason::Malformed),
        _ => Err(WordsFault::Unknown),
    }
}

// The notice of this name, which took so many milliseconds if it is a snapshot.
fn notice_of(name: &str, millis: &str) -> Result<Notice, WordsFault> {
    match name {
        "minute" => Ok(Notice::Minute),
        "snapshot" => Ok(Notice::Snapshot(read_number(millis)?)),
        "unsnapped" => Ok(Notice::NoSnapshot(read_number(millis)?)),
        "full" => Ok(Notice::Full),
        "closed" => Ok(Notice::Closed),
        "missed" => Ok(Notice::Missed),
        "refused" => Ok(Notice::Turned(why_of(millis)?)),
        "unwatched" => Ok(Notice::Unwatched),
        "threadless" => Ok(Notice::NoThread),
        "unasked" => Ok(Notice::NoStatus),
        "down" => Ok(Notice::Down),
        _ => Err(WordsFault::Unknown),
    }
}
