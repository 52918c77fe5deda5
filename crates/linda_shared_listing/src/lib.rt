//! Lists of what a server keeps that sessions share, a page at a time, for those who ask how it
//! does.
//!
//! `list_tuples` gives the tuples from an id on, in rising order of ids, each with the request that
//! it is held for; with a tag, those of that tag. It gives a piece of a page, which is bounded: in
//! how many tuples it has, and how many bytes they spell. It says from which id the next piece goes
//! on, and `Gathered` puts pieces together, between which the server goes on. `list_clients` gives
//! the clients so, each with what is kept for it, how many tuples are held for it and how many of
//! its asks wait. `list_longest` gives the requests that wait for longest and the tuples that are
//! held for longest. `list_kinds` says how many tuples there are of each tag and number of fields,
//! a piece at a time, and `count_taken` how many clients are away and took a tuple by their last
//! message.
#![tactic(auto)]

mod clients;
mod found;
mod gathered;
mod kept;
mod kinds;
mod lesser;
mod limits;
mod listed;
mod listing;
mod longest;
mod shapes;
mod taken;

pub use clients::list_clients;
pub use gathered::Gathered;
pub use kinds::{KindPage, ListedKind, list_kinds};
pub use limits::{BYTES_AT_ONCE, MOST_AT_ONCE, MOST_BYTES, MOST_KINDS, MOST_LOOKED};
pub use listed::{ClientPage, ListedClient, ListedReply, ListedTuple, TuplePage, TupleQuery};
pub use listing::list_tuples;
pub use longest::{LongestWaitsAndHolds, list_longest};
pub use taken::{TakenCount, count_taken};
