//! Things that may happen in a run of a server, each under its number.

use crate::servers::words::Told;
use linda_test_runs::Tally;

pub const GREETINGS: usize = 0;

pub const MESSAGES: usize = 1;

pub const STORED: usize = 2;

pub const OFFERS: usize = 3;

pub const READS: usize = 4;

pub const TAKEN: usize = 5;

pub const GONE: usize = 6;

pub const REFUSED: usize = 7;

/// Messages that were refused as they found no room on the bank.
pub const FULL: usize = 8;

pub const LEFT: usize = 9;

pub const CUTS: usize = 10;

/// Leases that ran out.
pub const LAPSES: usize = 11;

pub const SNAPSHOTS: usize = 12;

/// Snapshots in steps that were given up for room.
pub const GIVEN_UP: usize = 13;

pub const RESTS: usize = 14;

/// Stops between calls, and within one.
pub const STOPS: usize = 15;

pub const FALLS: usize = 16;

/// Unanswered messages at stops, those that were done and those that were not.
pub const DONE: usize = 17;

pub const UNDONE: usize = 18;

/// Writes and cuts that a stop kept, lost or tore each by itself.
pub const TORN: usize = 19;

/// Calls of the server for which memory was short.
pub const REFUSALS: usize = 20;

/// Their names.
pub const THINGS: [&str; 21] = [
    "greetings",
    "messages",
    "stored",
    "offers",
    "reads",
    "taken",
    "gone",
    "refused",
    "refused for room",
    "left",
    "cuts",
    "leases that ran out",
    "snapshots and steps",
    "snapshots given up for room",
    "rests",
    "stops between calls",
    "stops within a call",
    "unanswered messages that were done",
    "unanswered messages that were not",
    "writes and cuts kept, lost or torn by themselves",
    "times memory was refused",
];

/// A server answered this.
pub fn hear(tally: &mut Tally, told: Told) {
    if matches!(told, Told::Refused { code: 6, .. }) {
        tally.count(FULL);
    }
    tally.count(match told {
        Told::Stored { .. } => STORED,
        Told::Offer { .. } => OFFERS,
        Told::Read { .. } => READS,
        Told::Taken { .. } => TAKEN,
        Told::Gone { .. } => GONE,
        Told::Refused { .. } => REFUSED,
        Told::Left { .. } => LEFT,
        Told::Welcome { .. } => GREETINGS,
    });
}
