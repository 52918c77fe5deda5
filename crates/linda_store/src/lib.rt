//! A server of a connection, and what a connection says.
//!
//! - A `Node` is a server of any kind; `Volatile` is one in memory only. What contracts see of it
//!   is in `specs/Node`.
//! - A `Session` takes one client's stream in pieces and answers it, and `converse` does so over a
//!   reader and a writer: what is written are the replies to what was read, as `specs/Conversation`
//!   says, for every node.
//! - The state of a server, its deeds and the step are those of linda_store_state and
//!   linda_store_step, which this crate exports again.
//!
//! A call that may take memory has a fault for that; no other call takes any.
#![tactic(auto)]

mod connection_state;
mod conversation;
mod end;
mod laws;
mod node;
mod sending;
mod session;
mod turn;
mod volatile;
mod work;

pub use connection_state::{ConnectionState, Taken};
pub use conversation::{MAX_READS, converse};
pub use end::{ConverseFault, End};
pub use laws::a_server_stays_sound;
pub use linda_disk::Torn;
pub use linda_store_state::{
    Book, Class, Deed, KeptReply, NUMBER_LIMIT, State, deeds_are_done_one_by_one,
    no_tuple_is_taken_twice, proper_lists_keep_the_ranges,
};
pub use linda_store_step::{
    MAX_BATCH, Served, Step, StepCounts, Store, a_cancelled_request_is_over,
    a_client_that_left_stays_away, a_closed_client_asks_nothing, a_list_has_one_outcome,
    a_repeated_message_gets_the_same_reply, all_that_comes_has_an_outcome,
    closings_offer_only_what_is_sought, deeds_are_answered_as_kept, last_number,
    no_history_takes_a_tuple_twice, no_history_with_stops_takes_a_tuple_twice, one_answer,
    replies_report_what_was_done, replies_tell_the_deed, reported_deed, steps_do_as_they_are_asked,
    steps_do_proper_lists, steps_keep_order, steps_offer_only_what_is_sought, taker_of,
    takes_hand_over_what_was_put, two_takes_of_a_tuple_are_one, what_is_reported_is_kept,
};
pub use node::{Node, NodeFault};
pub use sending::send;
pub use session::Session;
pub use volatile::Volatile;
pub use work::Work;
