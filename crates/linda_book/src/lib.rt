//! The book of a server: for each client the number of its last numbered message, and the reply.
//!
//! Clients number their messages 1, 2, 3, .. . Of each client the book keeps the last number that
//! was answered, with the reply, so that a message that comes again gets its reply again and is not
//! done twice. `Book::classify` says how a number compares to the last one, in the words of
//! `specs/Classes`; contracts see the book as a finite map from clients to the entries of
//! `specs/Entries`. A kept reply is `Spelled` in bytes by `specs/ReplyFormat`.
//!
//! A call that may take memory has a fault for that; no other call takes any.
#![tactic(auto)]

mod book;
mod class;
mod kept_reply;
mod kinds;

pub use book::Book;
pub use class::{Class, class_of};
pub use kept_reply::KeptReply;
pub use kinds::has_leaves;
