//! A server that waits until the folder is free that it is to serve: `open_when_free` opens it once
//! no other server has it open, and reads nothing of it before.

ghost use Rattle.std.specs.Prelude.{◌≡◌, false, IfOk};
ghost use Rattle.std.specs.Duration.{as_nanos};

use super::ServingFault;
use super::log::Log;
use super::start::{Begun, open_to_serve};
use linda_serve_plan::ServePlan;
use std::alloc::Global;
use std::fs::{File, Files};
use std::io::Write;
use std::sync::Wait;
use std::thread;
use std::time::{Clock, Duration};

/// How many milliseconds pass from one try to the next.
const PAUSE: u64 = 100;

/// Opens the store in the folder of a plan to serve it. If another server has it open, and the plan
/// says that this one waits, it tries again until that one has ended; the log says since when it
/// waits.
///
/// # Errors
///
/// As those of `open_to_serve`; `InUse` only if the plan says that it does not wait.
pub(super) fn open_when_free<F: Files<File = File>, S: Wait + Clock, E: Write>(
    files: &F,
    rt: &S,
    alloc: Global,
    log: &mut Log<'_, E>,
    plan: &ServePlan,
) -> Result<Begun, ServingFault>
    ensures up { IfOk result (λ begun. begun.server.down ≡ false) }
{
    let first = open_to_serve(files, rt, alloc, &plan.folder);
    if !plan.waits || !is_in_use(&first) {
        return first;
    }
    log.tell_waiting(rt);
    for _ in rt.forever() {
        thread::sleep(rt, pause());
        let opened = open_to_serve(files, rt, alloc, &plan.folder);
        if !is_in_use(&opened) {
            return opened;
        }
    }
    Err(ServingFault::InUse)
}

// Whether it was not opened since another server has it open.
fn is_in_use<T>(opened: &Result<T, ServingFault>) -> bool {
    match opened {
        Err(ServingFault::InUse) => true,
        _ => false,
    }
}

// How long it is from one try to the next.
fn pause() -> Duration
    ensures { as_nanos result ≡ 100_000_000 }
{
    Duration::from_millis(PAUSE)
}
