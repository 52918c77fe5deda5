//! A server: its connections, its disks, its clock and its clients, beside a model.
//!
//! Real is all from the connections of two loops down to what is written to the disks: `Serving` of
//! `linda_net_loops` over `Shared` over two disks in memory. It takes messages, makes groups, posts
//! and hands over replies, and ends connections by the same calls as the loops of `linda serve`. In
//! place of a socket is a pipe in memory (`src/servers/net.rt`), in place of the clock one that the
//! run sets (`src/servers/machine.rt`).
//!
//! One event is one of these (`src/servers/events.rt`):
//!
//! - One of 3 to 64 clients says something, or comes again, with its number or with a new one. A
//!   third of them is rude: numbers that are old, kept or a gap, tickets that are used, a Hello
//!   again or none, six kinds of frames that spell nothing.
//! - A piece of any length of what a client sent comes, or of what was written to it is taken. A
//!   pipe has room for 1 to 300 bytes.
//! - One of the loops makes a turn; it is slow, so that Asks go one by one, or not. In a quarter of
//!   the runs only the first has connections.
//! - A connection is lost, with a piece of what was under way: its end comes, or it breaks, and
//!   what is written is read, or not.
//! - A second goes by. In half of the runs a client that holds a tuple and says nothing for three
//!   seconds is late.
//! - A snapshot is taken, or begins, or has a step. In a third of the runs banks have little room,
//!   by a limit that is drawn each time the server is opened: some may be below what is there. So
//!   messages find no room, snapshots are due for room, and one in steps is given up for it.
//! - The server stops; or its disk stops inside a device call, or fails once, as was drawn when it
//!   was opened. Then each disk is as `Kept`, `Lost` or `Filled` of `linda_disk` has it; or each
//!   write and each cut since the last sync is kept, lost or torn at any byte by itself
//!   (`src/servers/disk.rt`), which is what the model of a disk allows. The server is opened on
//!   what is left, and may stop meanwhile.
//!
//! **Memory that is refused.** `tools/simulate --scarce` puts an allocator below the program
//! (`tools/simulator/scarce.c`), which the run asks to refuse an allocation of a number that it
//! draws (`src/servers/scarce.rt`), in one of sixteen turns, snapshots, steps and openings. Only
//! allocations of the server's calls count. For eight turns after that it may be down, refuse, or
//! end connections: if what it does differs then, it stops, and is opened again. What it answered
//! has to be there.
//!
//! `src/servers/model.rt` is the table "What a server answers" of `docs/PROTOCOL.md` over plain
//! lists: tuples, kept replies, waits. `src/servers/words.rt` spells frames by that page, and
//! `src/servers/bank.rt` counts the bytes of banks by its part "Banks". None of them uses the
//! server's code.
//!
//! - each connection's messages are taken in the order in which it sent them, each once
//!   (`src/servers/notes.rt`).
//! - each byte that is written, and that no more and no fewer are to be written, after each turn of
//!   their loop (`src/servers/wires.rt`, `src/servers/compare.rt`).
//! - the last word of a connection, and that none ends or breaks without a cause
//!   (`src/servers/notes.rt`).
//! - how many tuples, holds, waits, kept replies and deeds there are, and the next id
//!   (`src/servers/compare.rt`).
//! - how many bytes and records the bank in use has, after each turn and after a stop
//!   (`src/servers/compare.rt`, `src/servers/bank.rt`).
//! - which messages find no room: if there is none for all deeds of a group, each one for which
//!   there is none by itself (`src/servers/group.rt`, `src/servers/bank.rt`).
//! - a snapshot is refused for room exactly if there is none, one in steps is given up exactly
//!   then, and one is due once a message found none (`src/servers/keep.rt`).
//! - a lease runs out in time, and never before; what nobody takes is given up
//!   (`src/servers/compare.rt`, `src/servers/notes.rt`).
//! - at rest each message is taken and answered, and each lost connection is gone
//!   (`src/servers/rest.rt`).
//! - after a stop the state has all that was answered and some first of the messages that were not
//!   (`src/servers/lives.rt`, `src/servers/check.rt`).
//! - a client that keeps to the rules is never refused a number, and finds what it was answered
//!   (`src/servers/client.rt`).
//!
//! The order in which messages of several connections are served is what the connections note
//! (`ConnectionNotice` of `linda_net_loops`); the model follows it.

mod asks;
mod bank;
mod check;
mod client;
mod compare;
mod conn;
mod disk;
mod draw;
mod events;
mod group;
mod keep;
mod lives;
mod machine;
mod model;
mod net;
mod notes;
mod rest;
mod rig;
pub mod run;
mod scarce;
mod side;
mod things;
mod wires;
mod words;
mod world;
