//! The step of a server: what one message does to its state, and what is held and waits beside it.
//!
//! - A `Store` is a state that keeps its ranges, with which tuples are held for which requests, and
//!   which requests wait.
//! - `Store::step` takes one message and answers with the deed that it did, if it did one, and the
//!   replies, exactly as the table in `specs/Answer` says. `Store::close` gives up all that a
//!   client asked.
//! - What follows from these definitions, in terms of a program that hands out jobs, is stated by
//!   the functions of `laws`; what deeds and replies come to for the layers above, by those of
//!   `promises`.
//! - `deeds` finds the deed that a message led to, the last number of a client, and the taker of a
//!   tuple.
//!
//! A call that may take memory has a fault for that; no other call takes any.
#![tactic(auto)]

mod deeds;
mod judge;
mod kept;
mod laws;
mod promises;
mod served;
mod size;
mod soft;
mod step;
mod store;

pub use deeds::{comes_next, last_number, reported_deed, taker_of};
pub use laws::{
    a_cancelled_request_is_over, a_client_that_left_stays_away, a_closed_client_asks_nothing,
    a_list_has_one_outcome, a_repeated_message_gets_the_same_reply, all_that_comes_has_an_outcome,
    deeds_are_answered_as_kept, no_history_takes_a_tuple_twice,
    no_history_with_stops_takes_a_tuple_twice, one_answer, steps_do_proper_lists, steps_keep_order,
};
pub use promises::{
    closings_offer_only_what_is_sought, deeds_are_those_asked_for, replies_report_what_was_done,
    replies_tell_the_deed, steps_do_as_they_are_asked, steps_offer_only_what_is_sought,
    takes_hand_over_what_was_put, two_takes_of_a_tuple_are_one, what_is_covered_stays_so,
    what_is_reported_is_kept,
};
pub use served::{Served, StepCounts};
pub use size::{MAX_BATCH, MAX_GROUP, Need};
pub use step::Step;
pub use store::Store;
