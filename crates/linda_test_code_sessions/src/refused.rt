//! A group of messages of several sessions while an allocation is refused: all of it is served,
//! once it is asked again if it was not; or the server is down, and one that opens on its disks
//! keeps what was kept before the group, or after it.

ghost use Rattle.std.specs.Prelude.{◌≡◌};
ghost use Rattle.linda_shared_accounts.specs.declared.limits.TheConstants.{PARTS};

use super::groups::{DOWN, MIXED, TOLD, admitted, play_group};
use linda_disk::{MemDisk, Torn};
use linda_shared::{Account, Shared};
use linda_shared_accounts::PARTS;
use linda_test_server::{Host, Kept, ROOMY, kept_after_crash, shared_on};
use std::alloc::{AllocError, Global};
use std::marker::Brand;
use std::process::Abort;
use std::sync::Wait;
use std::sync::ledger::{Blank, Ledger};

/// What is kept before the group, and after it.
const BEFORE: Kept = (1, 0, 0);

const AFTER: Kept = (3, 2, 2);

/// What comes of a group for which memory ran out.
const UNSERVED: &str = "7 memory\n8 memory\n9 memory\n7 memory\n8 memory\nup, 0 records\n";

// What comes of the group; of the second try if memory ran out for it.
fn came_of<L: Ledger, R: Wait>(
    rt: &R,
    alloc: Global,
    shared: &Shared<MemDisk, L>,
    accounts: &mut Vec<Account<L>>,
) -> Result<String, AllocError> {
    let mut came = String::new(alloc);
    play_group(rt, alloc, shared, accounts, MIXED, &mut came)?;
    if came.as_str() == UNSERVED {
        came = String::new(alloc);
        play_group(rt, alloc, shared, accounts, MIXED, &mut came)?;
    }
    Ok(came)
}

// The group is served, and what it did is kept; or the server is down, and all of that is on its
// disks or nothing is.
fn ends_well<L: Ledger, R: Wait + Abort>(
    rt: &R,
    alloc: Global,
    blank: Blank,
) -> Result<(), AllocError>
    requires { (blank.name ≡ L.name) × (blank.parts ≡ L.parts) × (L.parts ≡ PARTS) }
{
    let shared: Shared<MemDisk, L> = shared_on(alloc, blank, ROOMY)?;
    let mut accounts = admitted(rt, alloc, &shared)?;
    let came = came_of(rt, alloc, &shared, &mut accounts)?;
    if came.as_str() == DOWN {
        let now = kept_after_crash(alloc, shared.into_disks(), ROOMY.limit, Torn::Kept);
        assert!(rt; now == Some(BEFORE) || now == Some(AFTER), "{now:?}");
        return Ok(());
    }
    assert!(rt;
        TOLD.starts_with(came.as_str()) && came.ends_with("up, 1 records\n"),
        "{came}"
    );
    assert_eq!(rt; shared.into_kept(), AFTER);
    Ok(())
}

#[test]
fn without_memory_a_group_is_served_or_nobody_is_up(rt: HostRuntime) -> Result<(), AllocError> {
    ends_well::<Brand, _>(&rt, rt.alloc(), Blank::new(PARTS))
}
