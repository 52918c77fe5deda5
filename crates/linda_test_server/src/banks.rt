//! Banks of two disks: which one is in use, read back from both.

use crate::stand::{Kept, kept_in};
use linda_bag::IndexBag;
use linda_disk::MemDisk;
use linda_snap::{Chosen, choose_bank};
use std::alloc::Global;

/// A bank: its generation, how many records it has, and what it keeps.
pub type Banked = (u64, usize, Kept);

/// The banks on two disks.
#[derive(Clone, Copy, Debug, PartialEq, Eq)]
pub struct Banks {
    /// Whether the one in use is on the right disk.
    pub is_right: bool,
    /// The one in use.
    pub in_use: Banked,
    /// The one on the other disk, read by itself; none if no bank is there.
    pub other: Option<Banked>,
}

/// The banks on these disks, as a server that is opened on them finds them; none if it finds none.
pub fn banks_on(alloc: Global, disks: (MemDisk, MemDisk), limit: usize) -> Option<Banks> {
    let (left, right) = disks;
    let (is_right, in_use, other) = chosen(alloc, left, right, limit)?;
    Some(Banks {
        is_right,
        in_use,
        other: bank_on(alloc, other, limit),
    })
}

// The bank on this disk, by itself.
fn bank_on(alloc: Global, disk: MemDisk, limit: usize) -> Option<Banked> {
    let (_, bank, _) = chosen(alloc, disk, MemDisk::new(alloc), limit)?;
    Some(bank)
}

// Whether the right bank is chosen, that bank, and the other disk.
fn chosen(
    alloc: Global,
    left: MemDisk,
    right: MemDisk,
    limit: usize,
) -> Option<(bool, Banked, MemDisk)> {
    let Ok(chosen) = choose_bank::<IndexBag, MemDisk>(alloc, left, right, limit) else {
        return None;
    };
    let Chosen {
        state,
        bank,
        other,
        is_right,
    } = chosen;
    let found = (bank.generation(), bank.records(), kept_in(&state));
    Some((is_right, found, other))
}
