//! Rows of what a server in memory is made of: the bag, what is held and who waits, the book, the
//! step, reports of deeds, nodes, sessions and conversations.
//!
//! Messages, replies, tuples and templates are those of `linda_test_script`. What is reported
//! follows in the column on the right; if nothing is there, nothing is reported.
//!
//! `bag`:
//!
//! - `put ID TUPLE`, `pass ID`: puts a tuple; look-ups pass over this id from now on.
//! - `get ID`, `remove ID`: the tuple under the id, which is taken out or not; gives the tuple, or
//!   `none`.
//! - `least TEMPLATE`, `next ID`: the least id that matches; the first one from this id on; gives
//!   the id, or `none`.
//! - `count`: how many tuples there are.
//! - `kinds`: each tag and number of fields of the bag with an index, in their order, with how many
//!   tuples have both; `no more`.
//! - `fill COUNT TAGS KEYS`: puts the tuples `(n % TAGS, n % KEYS)` under the ids n from 0 on.
//! - `takes COUNT TAGS KEYS`: takes what `(n % TAGS, n % KEYS)` asks for, and at each tenth turn
//!   what `(n % TAGS, ?i)` does; gives where the bags differ.
//!
//! `waits`, `holds`:
//!
//! - `wait CLIENT TICKET in TEMPLATE`, or `rd`: the request waits; gives `waits already`, if so.
//! - `remove CLIENT TICKET`, `leaves CLIENT`: it waits no more; none of the client's does.
//! - `readers TUPLE`: takes the reads out that the tuple answers; gives each, in order.
//! - `longest TUPLE`, `awaited TUPLE`, `waits CLIENT TICKET`, `count`, `of CLIENT`: who waits
//!   longest; whether anybody, whether this one; how many.
//! - `hold ID CLIENT TICKET`, `free ID`: the tuple is held for the request; for nobody; gives
//!   `holds ID`, if the request holds one.
//! - `of ID`, `held CLIENT TICKET`, `client CLIENT`, `ids`: for whom; which; how many and which;
//!   all.
//! - `second S`, `oldest`, `age ID`: which second it is; how old the oldest wait or hold is, or the
//!   hold of that tuple.
//!
//! `book`, `promise`:
//!
//! - `keep CLIENT N REPLY`, `kept CLIENT`, `last CLIENT`, `clients`, `copy REPLY`: a reply is
//!   `stored ID`, `taken ID TUPLE`, `gone` or `left`; gives what is kept; a copy of the reply.
//! - `class CLIENT N`: `fresh`, `kept`, `old LAST`, `left LAST`, `gap LAST`.
//! - `standing CLIENT`: the client's last number, and whether it left by that; gives `LAST stays`,
//!   `LAST left`.
//! - `from CLIENT`, `above CLIENT`: the next client, or `none`.
//! - `put CLIENT N TUPLE`, `take CLIENT N ID`, `pass CLIENT N ID`, `leave CLIENT N`: one more deed.
//! - `last CLIENT`, `taker ID`: the client's last number; who took the tuple, by which number.
//! - `reported LAST: MESSAGE; REPLY`: client 7 said the message, its last number before was that
//!   one, and it got the reply; gives the deed, or `none`.
//!
//! `step`, `store`, `session`, `conversation`:
//!
//! - `CLIENT MESSAGE`, `close CLIENT`: of a step the deed, as `put 7 1 ("a", 3)`; and each reply
//!   after its client.
//! - `tuple ID`, `next`, `waiting`, `clients`: what is kept under the id, and for whom it is held;
//!   the next id; how many wait, or are kept.
//! - `puts FIELD ..`: client 7 puts `("a", FIELD)`, as its messages from 1 on.
//! - `many COUNT KEYS`: client 6 puts `("b", n, n % KEYS, n % 7)` for n from 1 on, so many, as its
//!   messages n.
//! - `asks END`: client 8 asks for `("a", 5)` by the tickets from 1 on, below this one: to take it
//!   by an odd one, else to read it.
//! - `passes FIRST END`: each client from the first on, below the second, accepts what nobody
//!   offered it.
//! - `state DIGITS`: the store of the state that this snapshot spells (`docs/PROTOCOL.md`).
//! - `size MESSAGES`, `size one MESSAGES`: with `; ` between them, each after its client; gives how
//!   many bytes their deeds will spell in the form of new banks, or in the first one; `no
//!   spelling`, if one has none.
//! - `all MESSAGES`, `stop MESSAGES`, `snapshot`, `is down`: of a node: several at once; a stop at
//!   work on them; whether it is down; gives replies; how many deeds were added; `up` or `down`.
//! - `takes MESSAGE`, `takes bytes DIGITS`, `session`: a piece for the session; how it is; gives
//!   replies, and whether it goes on.
//! - `says MESSAGE`, `says bytes DIGITS`: what the stream of a conversation goes on with.
//! - `talk SIZE ends ROOM`, `talk SIZE fails ROOM`: the conversation over the stream in pieces of
//!   that size, at whose end the reader ends or fails, with room for so many bytes in the writer;
//!   gives the replies that were written, the bytes of less than one, and the end.

pub(crate) mod bags;
pub(crate) mod book;
pub(crate) mod deeds;
pub(crate) mod holds;
pub(crate) mod node;
mod pipe;
pub(crate) mod step;
pub(crate) mod talks;
mod typed;
pub(crate) mod waits;
