//! The log of a server: a line for what happens, `TIME EVENT key value key value ..`.

use super::minutes::Counted;
use super::stamp::stamp_now;
use linda_disk::FileTrouble;
use linda_net::{CounterValues, Gauge, Notice, RefusalReason, RefusalValues, Watcher};
use linda_server::InUse;
use linda_status::connected;
use std::alloc::{AllocError, Global};
use std::io::Write;
use std::time::Clock;

/// How many bytes a line takes at most: it is spelled into a text that was made for so many.
const LINE: usize = 512;

/// Why a server ended.
#[derive(Clone, Copy, Debug, PartialEq, Eq)]
pub enum Cause {
    /// It served as many connections as it was to.
    Sessions,
    /// A device failed.
    Device,
    /// Memory ran out.
    Memory,
}

/// A log, and what was counted when its last line of a minute was written. One without a sink goes
/// nowhere.
#[derive(Drop)]
pub struct Log<'a, W: Write> {
    sink: Option<&'a mut W>,
    text: String,
    before: Counted,
}

impl<'a, W: Write> Log<'a, W> {
    /// A log to this sink, if there is one. No line of it takes memory afterwards.
    pub fn new(alloc: Global, sink: Option<&'a mut W>) -> Result<Log<'a, W>, AllocError> {
        let text = String::with_capacity(alloc, LINE)?;
        Ok(Log {
            sink,
            text,
            before: Counted::none(),
        })
    }

    /// Another server has the folder open, and from now on this one waits.
    pub fn tell_waiting<C: Clock>(&mut self, clock: &C) {
        let told = self.begin(clock, "waiting");
        self.send(told);
    }

    /// The server was opened, and listens on this port, at this path, or on both.
    pub fn tell_opened<C: Clock>(
        &mut self,
        clock: &C,
        port: Option<u16>,
        path: Option<&str>,
        bank: Option<InUse>,
        gauge: &Gauge,
    ) {
        let told = self.spell_opened(clock, port, path, bank, gauge);
        self.send(told);
    }

    /// A snapshot was taken before it served, in so many milliseconds.
    pub fn tell_snapshot<C: Clock>(&mut self, clock: &C, millis: u64, gauge: &Gauge) {
        let told = self.spell_snapshot(clock, "taken", millis, gauge);
        self.send(told);
    }

    /// A call of the system on the file of a bank failed.
    pub fn tell_failed<C: Clock>(&mut self, clock: &C, bank: &str, trouble: &FileTrouble) {
        let told = self.spell_failed(clock, bank, trouble);
        self.send(told);
    }

    /// The server ends.
    pub fn tell_end<C: Clock>(&mut self, clock: &C, cause: Cause, connections: u64, gauge: &Gauge) {
        let told = self.spell_end(clock, cause, connections, gauge);
        self.send(told);
    }

    /// The file of a bank is not in its place any more.
    pub(super) fn tell_removed<C: Clock>(&mut self, clock: &C, bank: &str) {
        let told = self.spell_removed(clock, bank);
        self.send(told);
    }

    // Each line is spelled whole before it goes out.

    fn spell_removed<C: Clock>(&mut self, clock: &C, bank: &str) -> Result<(), AllocError> {
        self.begin(clock, "removed")?;
        self.word("bank", bank)
    }

    // A path is the last of its line: it may have blanks.
    fn spell_opened<C: Clock>(
        &mut self,
        clock: &C,
        port: Option<u16>,
        path: Option<&str>,
        bank: Option<InUse>,
        gauge: &Gauge,
    ) -> Result<(), AllocError> {
        self.begin(clock, "opened")?;
        match port {
            Some(port) => self.number("port", u64::from(port))?,
            None => self.word("port", "none")?,
        }
        match bank {
            Some(
                InUse {
                    is_right,
                    generation,
                },
            ) => {
                self.word("bank", if is_right { "right" } else { "left" })?;
                self.number("generation", generation)?;
            }
            None => self.word("bank", "unknown")?,
        }
        self.state(gauge)?;
        self.bank(gauge)?;
        match path {
            Some(path) => self.word("socket", path),
            None => Ok(()),
        }
    }

    // The error is the last of the line: the words of the system have blanks.
    fn spell_failed<C: Clock>(
        &mut self,
        clock: &C,
        bank: &str,
        trouble: &FileTrouble,
    ) -> Result<(), AllocError> {
        self.begin(clock, "failed")?;
        self.word("bank", bank)?;
        self.word("call", trouble.call.name())?;
        write!(self.text, " error {}", trouble.error)
    }

    fn spell_end<C: Clock>(
        &mut self,
        clock: &C,
        cause: Cause,
        connections: u64,
        gauge: &Gauge,
    ) -> Result<(), AllocError> {
        self.begin(clock, "end")?;
        self.word("cause", word_of(cause))?;
        self.number("connections", connections)?;
        self.number("deeds", gauge.deeds)?;
        self.state(gauge)?;
        self.bank(gauge)
    }

    fn spell<C: Clock>(
        &mut self,
        clock: &C,
        notice: Notice,
        gauge: &Gauge,
        tally: &CounterValues,
    ) -> Result<(), AllocError> {
        match notice {
            Notice::Minute => self.spell_minute(clock, gauge, tally),
            Notice::Snapshot(millis) => self.spell_snapshot(clock, "taken", millis, gauge),
            Notice::NoSnapshot(millis) => self.spell_snapshot(clock, "full", millis, gauge),
            Notice::Full => {
                self.begin(clock, "full")?;
                self.bank(gauge)
            }
            Notice::Closed => self.spell_limit(clock, "thread", tally),
            Notice::Missed => self.spell_limit(clock, "connection", tally),
            Notice::Turned(why) => self.spell_refused(clock, why, tally),
            Notice::Unwatched => self.spell_limit(clock, "watch", tally),
            Notice::NoThread => self.spell_limit(clock, "snapshots", tally),
            Notice::NoStatus => self.spell_limit(clock, "status", tally),
            Notice::Down => {
                self.begin(clock, "down")?;
                self.number("deeds", gauge.deeds)?;
                self.bank(gauge)
            }
        }
    }

    fn spell_minute<C: Clock>(
        &mut self,
        clock: &C,
        gauge: &Gauge,
        tally: &CounterValues,
    ) -> Result<(), AllocError> {
        let more = self.before.end_minute(gauge.deeds, tally);
        self.begin(clock, "minute")?;
        self.number("connections", connected(tally))?;
        self.number("deeds", more.deeds)?;
        self.number("refused", more.refused)?;
        self.number("unserved", more.unserved)?;
        self.state(gauge)?;
        self.bank(gauge)?;
        self.turned(&more.turned)?;
        self.number("late", more.late)
    }

    // How many clients were refused, by the reason.
    fn turned(&mut self, more: &RefusalValues) -> Result<(), AllocError> {
        self.number("busy", more.busy)?;
        self.number("toomany", more.clients)?;
        self.number("greetings", more.greetings)?;
        self.number("malformed", more.malformed)
    }

    fn spell_refused<C: Clock>(
        &mut self,
        clock: &C,
        why: RefusalReason,
        tally: &CounterValues,
    ) -> Result<(), AllocError> {
        self.begin(clock, "refused")?;
        self.word("why", word_of_why(why))?;
        self.number("connections", connected(tally))
    }

    fn spell_snapshot<C: Clock>(
        &mut self,
        clock: &C,
        what: &str,
        millis: u64,
        gauge: &Gauge,
    ) -> Result<(), AllocError> {
        self.begin(clock, "snapshot")?;
        self.word("result", what)?;
        self.number("milliseconds", millis)?;
        self.bank(gauge)
    }

    fn spell_limit<C: Clock>(
        &mut self,
        clock: &C,
        lacks: &str,
        tally: &CounterValues,
    ) -> Result<(), AllocError> {
        self.begin(clock, "limit")?;
        self.word("lacks", lacks)?;
        self.number("connections", connected(tally))
    }

    // The time and the notice, with which a line begins.
    fn begin<C: Clock>(&mut self, clock: &C, notice: &str) -> Result<(), AllocError> {
        self.text.clear();
        match stamp_now(clock) {
            Some(stamp) => self.text.push_str(text_of(&stamp))?,
            None => self.text.push_str("-")?,
        }
        self.text.push_str(" ")?;
        self.text.push_str(notice)
    }

    // What the state comes to.
    fn state(&mut self, gauge: &Gauge) -> Result<(), AllocError> {
        self.number("tuples", gauge.tuples as u64)?;
        self.number("clients", gauge.clients as u64)?;
        self.number("next", gauge.next)
    }

    // What the bank in use comes to.
    fn bank(&mut self, gauge: &Gauge) -> Result<(), AllocError> {
        self.number("records", gauge.records as u64)?;
        self.number("used", gauge.used as u64)?;
        self.number("limit", gauge.limit as u64)
    }

    // A key with a word.
    fn word(&mut self, key: &str, value: &str) -> Result<(), AllocError> {
        write!(self.text, " {key} {value}")
    }

    // A key with a number.
    fn number(&mut self, key: &str, value: u64) -> Result<(), AllocError> {
        write!(self.text, " {key} {value}")
    }

    // Writes a line that was spelled, at once. A line that cannot be written is lost.
    fn send(&mut self, told: Result<(), AllocError>) {
        if let Some(sink) = &mut self.sink
            && told.is_ok()
            && self.text.push_str("\n").is_ok()
        {
            let _ = sink.write_all(self.text.as_bytes()).is_err();
        }
    }
}

impl<W: Write> Watcher for Log<'_, W> {
    fn tell<C: Clock>(&mut self, clock: &C, notice: Notice, gauge: &Gauge, tally: &CounterValues) {
        let told = self.spell(clock, notice, gauge, tally);
        self.send(told);
    }
}

fn word_of_why(why: RefusalReason) -> &'static str {
    match why {
        RefusalReason::Busy => "busy",
        RefusalReason::Clients => "toomany",
        RefusalReason::Greeting => "greeting",
        RefusalReason::Malformed => "malformed",
    }
}

fn word_of(cause: Cause) -> &'static str {
    match cause {
        Cause::Sessions => "sessions",
        Cause::Device => "device",
        Cause::Memory => "memory",
    }
}

// A time as text.
fn text_of(stamp: &[u8]) -> &str {
    match std::str::from_utf8(stamp) {
        Ok(text) => text,
        Err(_) => "-",
    }
}
