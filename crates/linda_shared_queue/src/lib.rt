//! Mailboxes, the queue of messages, and the router of answers. What is put into a mailbox is its
//! client's.
//!
//! - A `Mailbox` is a session's own: its replies, and a place for the answer to each message that
//!   it has on its way.
//! - An `Outlet` gives out its replies; a thread that reads there never asks for the server.
//! - The `Queue` has the messages that wait to be served, those of which no deed comes in a line of
//!   their own. It says who is to serve the next group.
//! - An `Answer` is what is reported of a message, with a second copy of it. On its way it has the
//!   `ReplySlot` of its message, and in the mailbox the `Recipient` that waits for it.
//! - `hear` is what an account hears of its answer, and `Heard` what it hears of a batch.
//!   `hear_answer` is for an answer that is not copied, since the thread that serves a group gives
//!   it to the session itself.
//! - The `Router` has the mailbox of each session, and gives out what a group came to, while the
//!   next one is served.
//!
//! Order of locks: the router's, the queue's, a mailbox's. A thread that has a mailbox's lock asks
//! for no other.
#![tactic(auto)]

mod answer;
mod heard;
mod hearing;
mod mail;
mod mailbox;
mod mailboxes;
mod outlet;
mod queue;
mod recipient;
mod reply_slot;
mod router;
mod thread_safety;

pub use answer::Answer;
pub use heard::Heard;
pub use hearing::{hear, hear_answer};
pub use mailbox::Mailbox;
pub use outlet::Outlet;
pub use queue::{Queue, Waiting};
pub use recipient::Recipient;
pub use reply_slot::ReplySlot;
pub use router::Router;
pub use thread_safety::{mailbox_crosses, outlet_crosses, queue_crosses, router_crosses};
