//! The lines of one client: what people type, as `sync choose [in ("a", ?i), alarm 3]`, and what is
//! printed of it; and messages and replies in words.
//!
//! `read_event` reads the text of an event and `write_event` writes one: `specs/EventTexts` is the
//! grammar, and `laws` says that what is written is read again, as only that event. `read_request`
//! reads a line, which tests show. `write_outcome`, `write_refusal` and `write_fault` give the
//! lines of `specs/OutcomeLines`, and `write_message` and `write_reply` the words of
//! `specs/MessageWords`.
#![tactic(auto)]

mod event;
mod fault;
mod keyword;
mod laws;
mod limits;
mod line_fault;
mod marks;
mod message_words;
mod node;
mod outcome;
mod request;
mod skipping;
mod token;
mod word;
mod written;

pub use event::read_event;
pub use fault::EventTextFault;
pub use laws::{a_text_stands_for_one_event, what_is_written_is_read_again};
pub use limits::MAX_NESTED;
pub use line_fault::LineFault;
pub use message_words::{words_of_entry, write_message, write_reply};
pub use outcome::{write_fault, write_outcome, write_refusal};
pub use request::{Request, read_request};
pub use word::{behind_word, number_in};
pub use written::write_event;
