//! Since when clients have an outbox.

use std::alloc::Global;
use std::collections::BTreeMap;

/// In which second each client's outbox was opened. Seconds are set from outside, and never fall.
/// Until one is set nothing is noted.
///
/// It is for people who look on: no contract sees it, and no answer of a server depends on it.
#[derive(Drop)]
pub(crate) struct Opened {
    // The present second; 0 until one is set.
    second: u64,
    noted: BTreeMap<u32, u64>,
}

impl Opened {
    /// Nothing is noted, and no second is set.
    pub(crate) fn none(alloc: Global) -> Opened {
        Opened {
            second: 0,
            noted: BTreeMap::new(alloc),
        }
    }

    /// Sets the present second. An earlier one than before changes nothing.
    pub(crate) fn set_second(&mut self, second: u64) {
        self.second = self.second.max(second);
    }

    /// The client's outbox is opened in the present second. If memory runs out, that is not noted.
    pub(crate) fn note(&mut self, client: u32) {
        if self.second > 0 {
            let _ = self.noted.insert(client, self.second);
        }
    }

    /// The client has no outbox.
    pub(crate) fn forget(&mut self, client: u32) {
        self.noted.remove(&client);
    }

    /// How many seconds ago the client's outbox was opened; nothing if that was not noted.
    pub(crate) fn age(&self, client: u32) -> Option<u64> {
        let second = self.noted.get(&client).copied()?;
        Some(self.second.saturating_sub(second))
    }
}
