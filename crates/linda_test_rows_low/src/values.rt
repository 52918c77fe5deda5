//! Rows of the values of the tuple space, and of their texts, bytes, frames and words.

pub(crate) mod bytes;
pub(crate) mod copies;
pub(crate) mod echo;
mod frames;
mod hexadecimal;
pub(crate) mod limits;
pub(crate) mod lines;
pub(crate) mod matching;
pub(crate) mod notation;
pub(crate) mod order;
pub(crate) mod streams;
pub(crate) mod texts;
mod told;
mod typed;
pub(crate) mod words;
