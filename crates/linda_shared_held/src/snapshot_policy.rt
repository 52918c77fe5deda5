//! Policy of snapshots: when one pays for itself.

ghost use Rattle.std.specs.Prelude.{◌≡◌};
ghost use Rattle.linda_shared_held.specs.SnapshotPolicy.{is_due, pays, policy_from, deferred_at};
ghost use Rattle.linda_shared_held.specs.SnapshotPolicy.{tried_at};
ghost use Rattle.linda_shared_held.specs.SnapshotPolicy.{refused_for_room};

use crate::limits::SNAPSHOT_BYTES;
use linda_server::SNAPSHOT_RECORDS;

/// How long the bank in use was when it was new, what was tried since, and what was refused.
#[derive(Clone, Copy)]
pub(crate) struct SnapshotPolicy {
    // How many bytes the bank took when it was new.
    base: usize,
    // How many it took when counting began.
    start: usize,
    // How many records it has at least when a snapshot that pays is tried,
    not_before: usize,
    // or else how many bytes are taken of it at least.
    not_below: usize,
    // How many records it had when one was last tried, 0 on a new bank.
    tried: usize,
    // Whether a deed was refused since then, as the bank had no room for it.
    lacks_room: bool,
}

impl SnapshotPolicy {
    /// From a bank on that took `base` bytes when it was new. Its bytes are counted from `start`
    /// on.
    pub(crate) fn new(base: usize, start: usize) -> SnapshotPolicy
        ensures { result ≡ policy_from base start }
    {
        SnapshotPolicy {
            base,
            start,
            not_before: 0,
            not_below: 0,
            tried: 0,
            lacks_room: false,
        }
    }

    /// A snapshot is tried at so many records and bytes: if it is refused, then again once there
    /// are 1,024 records more or 32 MiB of them, or one more and a deed was refused for room.
    pub(crate) fn record_attempt(&mut self, records: usize, used: usize)
        ensures { self.new ≡ tried_at records used self.old }
    {
        self.not_before = records.saturating_add(SNAPSHOT_RECORDS);
        self.not_below = used.saturating_add(SNAPSHOT_BYTES);
        self.tried = records;
        self.lacks_room = false;
    }

    /// A snapshot that pays is not tried before there are 1,024 records more than so many, or more
    /// bytes by `room`, and by 32 MiB at most.
    pub(crate) fn defer(&mut self, records: usize, used: usize, room: usize)
        ensures { self.new ≡ deferred_at records used room self.old }
    {
        self.not_before = records.saturating_add(SNAPSHOT_RECORDS);
        self.not_below = used.saturating_add(room.min(SNAPSHOT_BYTES));
    }

    /// A deed was refused, as the bank has no room for it.
    pub(crate) fn record_refusal(&mut self)
        ensures { self.new ≡ refused_for_room self.old }
    {
        self.lacks_room = true;
    }

    /// Whether a snapshot of a bank with so many records, of which so many bytes are taken, is to
    /// be taken: it pays for itself, or the bank is not in the form of new banks, and it was put
    /// off for no longer; or a deed was refused for room, and there is a record that the last try
    /// did not find.
    pub(crate) fn is_due(&self, is_old: bool, records: usize, used: usize, limit: usize) -> bool
        ensures { result
            ≡ is_due is_old self.now.base self.now.start self.now.not_before self.now.not_below
            self.now.tried self.now.lacks_room records used limit }
    {
        ((records >= self.not_before || used >= self.not_below)
            && (is_old || self.pays(records, used, limit)))
            || (self.lacks_room && self.tried < records)
    }

    // Whether there are records or bytes enough, and they have at least as many bytes as the bank
    // had when it was new, or half of the limit is taken.
    fn pays(&self, records: usize, used: usize, limit: usize) -> bool
        ensures { result ≡ pays self.now.base self.now.start records used limit }
    {
        (records >= SNAPSHOT_RECORDS || used.saturating_sub(self.start) >= SNAPSHOT_BYTES)
            && (used.saturating_sub(self.base) >= self.base || limit.saturating_sub(used) <= used)
    }
}
