//! Frames: the messages and replies that go over a connection.
//!
//! A frame is a length of four bytes, 1 to 262,144, then a kind byte and a body, which the length
//! counts; numbers are big-endian. Each message and each reply has one spelling. A `Feed` takes the
//! bytes of a stream in any pieces and gives its messages: these and no others, whatever the
//! pieces, up to the first frame that spells nothing, whose fault it returns from then on. A
//! `ReplyFeed` does so for the replies of the other side. A `Refusal` is why a server says no, with
//! its code and detail. `specs/Frames` says what the bytes are, `specs/Stream` what is at the front
//! of a stream.
//!
//! A call that may take memory has a fault for that; no other call takes any.
#![tactic(auto)]

mod codes;
mod fault;
mod feed;
mod framed;
mod kinds;
mod laws;
mod length;
mod limits;
mod message;
mod payload;
mod refusal;
mod reply;
mod unread;

pub use fault::FrameFault;
pub use feed::{Feed, FrameFeed, ReplyFeed};
pub use framed::FramePayload;
pub use laws::{faults_stay, one_reading, one_reply_reading, reply_faults_stay};
pub use limits::{LENGTH_BYTES, MAX_ASKS, MAX_CLIENTS, MAX_PAYLOAD, NUMBER_LIMIT, VERSION};
pub use message::{Message, encode_message};
pub use refusal::Refusal;
pub use reply::{Reply, encode_reply};
