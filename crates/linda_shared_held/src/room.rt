//! Room on the disks, as far as it is known, if it is made before records need it.

use linda_wire::Message;

/// The most bytes that are made ahead of what is needed.
const MOST_AHEAD: usize = 4_194_304;

/// The fewest, if the device has so many.
const LEAST_AHEAD: usize = 65_536;

/// Fewer, if it has not.
const FEW_AHEAD: usize = 4_096;

/// The part of the bytes taken that is made ahead, if it lies between the two; and the part of the
/// bytes of the file that is kept for takes, or as many as `LEAST_AHEAD`.
const PART: usize = 16;

/// Whether room is made before it is needed, and how far the files of both banks reach.
#[derive(Clone, Copy)]
pub(crate) struct Room {
    /// Whether it is.
    pub(crate) is_kept: bool,
    /// The most bytes that a bank may have, if the device has room for them.
    pub(crate) most: usize,
    /// How many bytes the file of the bank in use has at least, as far as this is known.
    pub(crate) reach: usize,
    /// Whether the device had no room for more: then `reach` is the bank's limit.
    pub(crate) is_short: bool,
}

impl Room {
    /// It is not: a record may be written where the file has no bytes yet.
    pub(crate) fn unkept() -> Room {
        Room {
            is_kept: false,
            most: 0,
            reach: 0,
            is_short: false,
        }
    }

    /// It is from now on, for banks of so many bytes at most.
    pub(crate) fn kept(most: usize) -> Room {
        Room {
            is_kept: true,
            most,
            reach: 0,
            is_short: false,
        }
    }

    /// Another bank is in use, of whose file nothing is known.
    pub(crate) fn begin_anew(&mut self) {
        self.reach = 0;
    }

    /// The length of `to` bytes and many more.
    pub(crate) fn far(&self, to: usize) -> usize {
        let ahead = (to / PART).min(MOST_AHEAD).max(LEAST_AHEAD);
        self.within(to.saturating_add(ahead))
    }

    /// The same with a few more.
    pub(crate) fn near(&self, to: usize) -> usize {
        self.within(to.saturating_add(FEW_AHEAD))
    }

    /// How many bytes of the file these messages have to leave. Puts leave some for takes, which
    /// make room: so a full device does not keep them from it. If there are takes beside them, half
    /// as many.
    pub(crate) fn kept_back(&self, messages: &[(u32, Message)]) -> usize {
        let (mut puts, mut others) = (false, false);
        for (_, message) in messages {
            match message {
                Message::Out { .. } => puts = true,
                Message::Accept { .. } | Message::Leave { .. } => others = true,
                Message::Hello { .. } | Message::Ask { .. } | Message::Cancel { .. } => {}
            }
        }
        let whole = (self.reach / PART).min(LEAST_AHEAD);
        match (puts, others) {
            (false, _) => 0,
            (true, true) => whole / 2,
            (true, false) => whole,
        }
    }

    /// So many bytes, or as many as a bank may have.
    pub(crate) fn within(&self, to: usize) -> usize {
        to.min(self.most)
    }
}
