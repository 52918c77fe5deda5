//! Clients of `linda_client` over several servers on disks in memory, and what has to come of them.
//!
//! Real are the clients, `Client` of `linda_client`, the servers, `Durable` of `linda_server` over
//! two disks in memory, and the frames between them (`linda_wire`). The code that drives a client
//! keeps to the rules of `docs/PROTOCOL.md`. One event is one of these
//! (`src/clients/events.rt`):
//!
//! - One of 2 to 8 clients connects, puts a tuple, waits for up to four things at once (inputs,
//!   reads, alarms, values, with labels and nack numbers), or leaves. There are few words and few
//!   tuples, so clients compete.
//! - A piece of what was sent over a connection comes, to its server or to its client. A server
//!   takes all that is whole as one group.
//! - A client's time goes on, or it gives up what it waits for.
//! - A connection is lost, with a piece of what is on the way. Its server sees that later: until
//!   then the number is busy there.
//! - A client stops. It comes again with its number, goes on after Welcome's last and asks for the
//!   kept reply; or another one comes in its place, and what was held for it is free.
//! - A server takes a snapshot; or it stops, also inside a call of a disk or as one fails, is down
//!   for a while, and is opened on what is left: of each disk all, nothing, or one byte in place of
//!   what was not synced. The others go on.
//! - A rest: nobody begins anything, all servers are up, and all that is sent comes.
//! - no tuple is taken twice, read after it was taken, or found otherwise than it was put
//!   (`src/clients/rows.rt`).
//! - an outcome is of the event that was asked for: its member, tuple, bindings, labels, nack
//!   numbers, the first alarm (`src/clients/obey.rt`).
//! - an event that is ready at once waits for nothing; a call of a client that keeps to the rules
//!   is refused by nobody (`src/clients/tasks.rt`, `src/clients/obey.rt`).
//! - Welcome's last has what was answered, and no more than was sent; the kept reply is that of the
//!   last request (`src/clients/fetch.rt`).
//! - after each opening and at rest each stored tuple is in its server's space once, or was taken,
//!   or an Accept of it is unanswered (`src/clients/look.rt`).
//! - at rest nothing is held, as many asks wait as are open, nobody waits for a tuple that is
//!   there, and all is answered (`src/clients/rest.rt`).
//! - a server answers only clients that are connected (`src/clients/deliver.rt`).

mod cast;
mod conn;
mod deliver;
mod draw;
mod events;
mod fetch;
mod look;
mod numbers;
mod obey;
mod person;
mod rest;
mod rows;
pub mod run;
mod site;
mod tasks;
mod things;
mod troupe;
mod wish;
mod words;
mod world;
