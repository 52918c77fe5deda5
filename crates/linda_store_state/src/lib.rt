//! The state of a server, and the deeds that change it: all that a journal and a snapshot need to
//! know.
//!
//! - A `State` is a bag of tuples, a book with the last reply to each client, and the next id: what
//!   a server keeps over a restart.
//! - A `Deed` is one change of it. `State::put`, `State::take`, `State::pass` and `State::leave` do
//!   one each, and `State::redo` does one again that was written down; the state after a list of
//!   deeds is what `specs/After` says, no matter what the code did to get there. It is `Spelled` in
//!   bytes by `specs/DeedFormat`.
//! - `specs/Proper` says which lists of deeds a server can do. What follows for these lists is
//!   stated by the functions of `laws`.
#![tactic(auto)]

mod deed;
mod kinds;
mod laws;
mod limits;
mod state;

pub use deed::Deed;
pub use laws::{
    deeds_are_done_one_by_one, kept_numbers_count_deeds, lists_are_done_one_after_another,
    no_tuple_is_taken_twice, nothing_follows_a_leave, proper_lists_keep_the_ranges,
    replies_look_back,
};
pub use limits::{BANK_FORM, HEAD_BYTES, ID_BYTES, MAX_DEED_BYTES, MAX_DEEDS};
pub use linda_book::{Book, Class, KeptReply, has_leaves};
pub use linda_codec::{MAX_TUPLE_BYTES, tuple_len};
pub use linda_wire::NUMBER_LIMIT;
pub use state::State;
