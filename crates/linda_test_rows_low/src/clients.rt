//! Rows of events, of a client by itself, and of texts of events.

pub(crate) mod client;
pub(crate) mod events;
pub(crate) mod texts;
