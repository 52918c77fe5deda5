//! Ends of a whole conversation.

use thiserror::Error;

/// The end of a conversation, all of whose replies were written.
#[derive(Clone, Copy, Debug, PartialEq, Eq)]
pub enum End {
    /// The client's stream ended. So many bytes came after its last message, and make none.
    Ended { rest: usize },
    /// The client sent a frame that spells nothing, and was answered so. The offset in the frame of
    /// the first byte at fault, 0 if its length is at fault.
    Malformed(u32),
}

/// Why a conversation did not come to its end.
#[derive(Clone, Copy, Debug, PartialEq, Eq, Error)]
pub enum ConverseFault {
    /// The reader failed. All that came before was answered.
    #[error("reading failed")]
    Read,
    /// The writer failed, and took a prefix of the replies.
    #[error("writing failed")]
    Write,
    /// The stream has not ended after 4,294,967,295 reads. All that came was answered.
    #[error("too many reads")]
    Turns,
    /// The node is down. The client was answered so.
    #[error("down")]
    Down,
    /// Memory ran out. Some first messages were answered, and a prefix of the replies was written.
    #[error("out of memory")]
    Memory,
}
