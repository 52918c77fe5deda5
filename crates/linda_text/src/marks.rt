//! The bytes that have a meaning in texts: blanks, marks, the first letters of words, and the
//! letters of escapes.

/// A blank.
pub const SPACE: u8 = b' ';

/// A blank; in a string, it is written as itself or as an escape.
pub const TAB: u8 = b'\t';

/// In a string, it is written only as an escape.
pub const LINE_FEED: u8 = b'\n';

/// In a string, it is written only as an escape.
pub const CARRIAGE_RETURN: u8 = b'\r';

/// Before a string and after it.
pub const QUOTE: u8 = b'"';

/// Before the letter of an escape.
pub const BACKSLASH: u8 = b'\\';

/// The letter of the escape of a line feed.
pub const FEED_LETTER: u8 = b'n';

/// The letter of the escape of a tab.
pub const TAB_LETTER: u8 = b't';

/// The letter of the escape of a carriage return.
pub const RETURN_LETTER: u8 = b'r';

/// Before the tag.
pub const OPENING: u8 = b'(';

/// After the last field.
pub const CLOSING: u8 = b')';

/// Before each field.
pub const COMMA: u8 = b',';

/// Before the digits of an integer below 0.
pub const MINUS: u8 = b'-';

/// The only digit of 0.
pub const ZERO: u8 = b'0';

/// The greatest digit.
pub const NINE: u8 = b'9';

/// The first letter of `true`.
pub const TRUE_LETTER: u8 = b't';

/// The first letter of `false`.
pub const FALSE_LETTER: u8 = b'f';

/// Before the letter of a formal.
pub const QUESTION: u8 = b'?';

/// The letter of the formal of any integer.
pub const INT_LETTER: u8 = b'i';

/// The letter of the formal of any text.
pub const TEXT_LETTER: u8 = b's';

/// The letter of the formal of any truth value.
pub const BOOL_LETTER: u8 = b'b';

/// The wildcard, which any value fits.
pub const WILDCARD: u8 = b'_';
