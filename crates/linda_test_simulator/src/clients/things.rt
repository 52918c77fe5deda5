//! Things that may happen in a run of clients, each under its number.

pub const GREETINGS: usize = 0;

/// Greetings that were refused, as another connection had the number.
pub const BUSY: usize = 1;

pub const STORED: usize = 2;

pub const TAKEN: usize = 3;

pub const COPIED: usize = 4;

pub const ALARMS: usize = 5;

/// Values that are always there.
pub const VALUES: usize = 6;

pub const DROPPED: usize = 7;

pub const GONE: usize = 8;

pub const LEFT: usize = 9;

/// Connections that clients gave up.
pub const CUTS: usize = 10;

/// Welcomes after which something was sent again.
pub const REPEATS: usize = 11;

/// Cancels of a ticket that was spared.
pub const SPARED: usize = 12;

/// Clients that stopped, that came again, and whose Accept was under way when they went.
pub const HALTS: usize = 13;

pub const AGAIN: usize = 14;

pub const ORPHANS: usize = 15;

pub const KEPT: usize = 16;

/// Stops between calls, and within one.
pub const STOPS: usize = 17;

pub const FALLS: usize = 18;

pub const SNAPSHOTS: usize = 19;

/// Tuples stored and taken while some server was down.
pub const LONELY: usize = 20;

pub const RESTS: usize = 21;

/// Their names.
pub const THINGS: [&str; 22] = [
    "greetings",
    "refused greetings",
    "stored",
    "taken",
    "copied",
    "alarms",
    "values",
    "given up",
    "gone",
    "left",
    "cuts",
    "sent again",
    "spared and cancelled",
    "clients stopped",
    "came again",
    "went amid an Accept",
    "heard a kept reply",
    "stops between calls",
    "stops within a call",
    "snapshots",
    "outcomes beside a server that is down",
    "rests",
];
