//! Faults of a value.

use thiserror::Error;

/// Why a tuple or a template was refused. The count of fields is judged first, then the texts from
/// the left.
#[derive(Clone, Copy, Debug, PartialEq, Eq, Error)]
pub enum ValueFault {
    /// More than 32 fields follow the tag.
    #[error("more than 32 fields")]
    TooManyFields,
    /// A text has more than 4,095 bytes.
    #[error("a text of more than 4,095 bytes")]
    TextTooLong,
}
