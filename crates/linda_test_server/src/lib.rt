//! A durable server in memory that a test's sessions share, and what tests ask of it. Only tests
//! use it.
//!
//! `play` plays a test's `Scene` over a new server, as a `Stand` says, that it speaks to as a
//! `Host`; `shared_on` makes that server. `words` has the messages that tests send;
//! `kept_after_crash` says what is there after a stop, and `banks_on` which bank is on which disk.
#![tactic(auto)]

mod banks;
mod host;
mod scene;
mod stand;
mod words;

pub use banks::{Banked, Banks, banks_on};
pub use host::{Host, Welcome};
pub use scene::{Scene, play};
pub use stand::{Kept, ROOMY, Stand, kept_after_crash, shared_on};
pub use words::{ask, hello, number_in, put, seated};
