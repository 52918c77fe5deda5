//! Room on the bank in use, written ahead while records come fast.

ghost use Rattle.std.specs.Prelude.{◌≡◌, ◌+◌, ◌<◌, ◌≤◌, ◌/◌, ◌^◌, Some, None};
ghost use Rattle.linda_net_watch.specs.Preallocation.{room_for};

use linda_disk::Disk;
use linda_shared::Shared;
use std::sync::Wait;
use std::sync::ledger::Ledger;
use std::time::Clock;

/// The fewest bytes that are written ahead.
pub(crate) const LEAST_ROOM: usize = 1_048_576;

/// The most bytes that are written ahead.
pub(crate) const MOST_ROOM: usize = 4_194_304;

/// The part of the bytes taken that is written ahead, if it lies between the two.
pub(crate) const PART: usize = 16;

/// Records come fast if they take so many bytes between two looks: in a tenth of a second.
const FAST: usize = 1_024;

/// After how many looks it is tried again, if the disk has no room: a second.
const LOOKS: u32 = 10;

/// How far the file of the bank in use reaches, as far as this is known, and how many of its bytes
/// were taken at the last look.
#[derive(Drop)]
pub(crate) struct Preallocation {
    used: usize,
    reach: usize,
    // For how many looks more nothing is tried.
    rest: u32,
}

impl Preallocation {
    /// Nothing is known.
    pub(crate) fn new() -> Preallocation {
        Preallocation {
            used: usize::MAX,
            reach: 0,
            rest: 0,
        }
    }

    /// Another bank is in use: looks how much room there is beside it.
    pub(crate) fn begin_anew<D: Disk, L: Ledger, R: Wait>(
        &mut self,
        rt: &R,
        shared: &Shared<D, L>,
    ) {
        self.reach = 0;
        self.rest = 0;
        shared.renew_room(rt);
    }

    /// Has room written ahead on the bank in use, if records come fast and most of what it had is
    /// taken. If the disk has no room, it is tried again each second.
    pub(crate) fn look<D: Disk, L: Ledger, R: Wait + Clock>(
        &mut self,
        rt: &R,
        shared: &Shared<D, L>,
    ) {
        let used = shared.gauge(rt).used;
        if self.rest > 0 {
            self.rest -= 1;
        } else if shared.is_short(rt) {
            shared.renew_room(rt);
            self.reach = 0;
            self.rest = LOOKS;
        } else if let Some(to) = aim(self.used, used, self.reach) {
            if shared.extend(rt, to) {
                self.reach = to;
            } else {
                self.rest = LOOKS;
            }
        }
        self.used = used;
    }
}

// To which length the file is to be written, if it is: so many bytes were taken at the last look,
// so many are now, and it reaches so far.
fn aim(before: usize, used: usize, reach: usize) -> Option<usize>
    ensures slow { used < before + 1_024 → result ≡ None }
    ensures near { used + room_for used / 2 ≤ reach → result ≡ None }
    ensures aims { before + 1_024 ≤ used → reach < used + room_for used / 2
        → used + room_for used < 2 ^ 64 → result ≡ Some (used + room_for used) }
{
    if used < FAST || used - FAST < before {
        return None;
    }
    let room = room_for(used);
    if reach >= used && reach - used >= room / 2 {
        return None;
    }
    used.checked_add(room)
}

// How many bytes are written ahead of a bank of which so many are taken.
fn room_for(used: usize) -> usize
    ensures { result ≡ room_for used }
{
    (used / PART).min(MOST_ROOM).max(LEAST_ROOM)
}
