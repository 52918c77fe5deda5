//! Rows of disks and of what is on them: disks in memory, banks with their journals, two banks of
//! which one is chosen, and a server on two disks that is stopped inside each device call, fails
//! there, or finds a damage.
//!
//! A row begins with two empty disks. Bytes are a name (`none`, `shut`, `new`, `closed`, `one`,
//! `both`, `two`, `three`; `away` and `awaytwo`, where a client left; and for banks in the first
//! form `oldnew`, `oldone`, `oldboth`, `oldtwo`, `oldthree`; the first rows show them), a text,
//! `"abc"`, or pieces of hexadecimal digits, where `34*00` is a byte so many times; where bytes are
//! reported, 16 equal ones and more are such a piece. A way to crash is `kept`, `lost`, or `filled
//! ff` with a byte. Device calls are counted from 0. What is reported follows on the right; if
//! nothing is there, nothing is reported but why it was not done.
//!
//! both disks:
//!
//! - `disks LEFT RIGHT`: disks that hold these bytes, all synced.
//! - `crash WAY`: both crash.
//! - `unsynced`: both crash; gives which disk had bytes that were not synced: `left`, `right`,
//!   `both`, `neither`.
//!
//! one disk, after `left` or `right`:
//!
//! - `fuse CALL`, `fail CALL`: the power goes off inside this write, cut or sync; only this call
//!   fails, where reads and lengths count too.
//! - `write OFFSET BYTES`, `cut LENGTH`, `sync`, `read`, `length`: calls of the disk; `read` reads
//!   nothing; gives `failed`, if so; the length.
//! - `byte OFFSET VALUE`, `front LENGTH`, `more BYTES`: it holds what it held with another byte
//!   (both numbers are decimal), only the front of it, or more, and all is synced.
//! - `clients FIRST END`: it holds more: what a snapshot has of each client from the first on,
//!   below the second, whose message 1 got a Gone.
//! - `reads`, `bytes`, `text`, `failures`, `gate`: what it holds, by its name or as pieces, as
//!   pieces, as a text; how often it failed; whether a bank's first gate is open.
//!
//! a bank on the left disk:
//!
//! - `bank create LIMIT`, `bank open LIMIT`: a bank of generation 1 with an empty state, or the one
//!   that is there; gives how many records it has, and where its journal ends.
//! - `bank put TUPLE`, `bank fuse CALL`, `bank shut`: client 7 puts it by its message 1; as above;
//!   the disk comes back.
//!
//! banks and snapshots:
//!
//! - `banks choose LIMIT`: one is chosen; the disks are gone then; gives on which side, and its
//!   state; or why none.
//! - `banks switch LIMIT`, `banks switch LIMIT CALL`: the chosen one is left for the other disk,
//!   whose power goes off inside the call; the left disk is then the one that was in use.
//! - `state read`, `state spelled`: the state that all of the left disk's bytes spell, in the
//!   second form; gives its next id and its counts; its bytes.
//!
//! a server:
//!
//! - `create LIMIT`, `open LIMIT`, `look`: what it keeps.
//! - `shut`: the disks come back.
//! - `CLIENT MESSAGE`, `CLIENT leaves`, `all MESSAGES`: several have `; ` between them; gives each
//!   reply after its client; `full`, `down`.
//! - `snapshot`, `trim`: `full`, `down`.
//! - `stop CALL WAY`, with messages or `snapshot` after it: it is stopped inside that device call
//!   at work on them, crashes so, and is opened again; gives how many deeds were added.
//! - `talk BYTES`: a whole connection; gives the bytes that answer it.
//! - `begin`, `step BYTES`, `copy COUNT`: a snapshot in steps: it is begun; some bytes of it;
//!   clients are copied before it; gives how it goes on; whether all are copied.
//! - `group COUNT`: client 9 puts so many tuples by one call; gives why not.
//! - `use`, `begun`, `ids END`, `standing CLIENT`: the bank in use, its records and bytes; whether
//!   a snapshot in steps is begun; which ids have a tuple; the last number, and whether the client
//!   left by that.
//! - `quiet LINE`: what the line says; gives nothing.
//! - `long puts FIRST COUNT`, `long kept`, `kept CLIENT`: client 7 puts tuples with a tag of 255
//!   letters; gives how many replies there are; how many such tuples are kept; the client's reply.

mod bank;
mod banks;
mod bytes;
mod disk;
mod disks;
mod long;
mod making;
mod serving;
pub(crate) mod stand;
mod state;
mod steps;
mod torn;
