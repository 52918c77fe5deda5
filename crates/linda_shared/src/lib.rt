//! Sessions of clients, each in a thread of its own, over one durable server.
//!
//! `Shared` has the server under a lock. What waits is served in groups: a session that finds
//! nobody serving leads, takes a batch of what waits to the server, and while the answers are given
//! out the next session leads the next group. A `Seat` is what a session carries; its replies come
//! out of an `Outlet`, which never asks for the server.
//!
//! One thread may serve many sessions too, and then waits for none of them: each is an `Account`,
//! its messages go to the server in a `MessageGroup` with those of the others (`admit`,
//! `serve_group`, `depart`), and `hear_answer` is what it hears of each answer of the
//! `ServedGroup`. What is sent to clients goes to a `ReplySink`.
#![tactic(auto)]

mod addressed;
mod batch;
mod gate;
mod greeted;
mod group;
mod locked;
mod seat;
mod served;
mod settle;
mod shared;
mod thread_safety;
mod worker;
mod workers;

pub use gate::Gate;
pub use greeted::Greeted;
pub use group::MessageGroup;
pub use linda_shared_accounts::{Account, Ack, MOST_ASKED, Receipt, SharedFault};
pub use linda_shared_held::{Admission, Gauge, Progress, Report};
pub use linda_shared_listing::{
    ClientPage, Gathered, KindPage, ListedClient, ListedKind, ListedReply, ListedTuple,
    LongestWaitsAndHolds, MOST_KINDS, MOST_LOOKED, TakenCount, TuplePage, TupleQuery,
};
pub use linda_shared_outbox::Sent;
pub use linda_shared_queue::{Outlet, hear_answer, outlet_crosses};
pub use linda_store_step::MAX_GROUP;
pub use seat::Seat;
pub use served::ServedGroup;
pub use shared::{ReplySink, Shared};
pub use thread_safety::{seat_crosses, shared_may_be_lent};
pub use worker::{MOST_TURNS, Next, Worker};
pub use workers::{Worked, run_workers};
