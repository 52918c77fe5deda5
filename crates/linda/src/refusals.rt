//! Meanings of the codes of refusals, for the second line of `server S: refused CODE DETAIL`.

/// The meaning of a refusal of this code, and what helps; nothing for a code of no server.
pub(crate) fn meaning_of(code: u8) -> Option<&'static str> {
    match code {
        1 => Some("the server speaks another version"),
        2 => Some("the client number was used before: give --again, or another number"),
        3 => Some("another program has the client number now"),
        4 | 5 => Some("the number of a message is not the next one"),
        6 => Some("no room: take something, or make room on the server's disk"),
        7 => Some("the server knows as many clients as it may: use one of their numbers"),
        8 => Some("the server is down: its log says why"),
        9 => Some("the server cannot read a message"),
        10 => Some("too many requests wait there"),
        11 => Some("the client number was given up: use another"),
        12 => Some("the server had no greeting"),
        _ => None,
    }
}
