//! The store in a folder, which is served or inspected, and the exit status of that.

ghost use Rattle.std.specs.Prelude.{◌≡◌, ◌⊎◌};
ghost use Rattle.std.specs.Process.{exit_status};

use crate::end;
use crate::explaining::{is_wanted, tell_folder, tell_in_use, tell_listened};
use linda_inspect::Lists;
use linda_pipe::REFUSED;
use linda_serve::{
    NonBlockingWriter, ServingFault, SystemLookup, inspect_folder, inspect_folder_as_json,
    serve_folder,
};
use linda_serve_plan::ServePlan;
use std::net::{Net, TcpListener, TcpStream};
use std::process::ExitCode;
use std::random::RandomSource;
use std::sync::Wait;
use std::thread::Threads;
use std::time::Clock;

/// Serves the store in a folder on a port.
pub(crate) fn run_serve<
    S: Net<Listener = TcpListener, Stream = TcpStream>
        + Threads
        + Wait
        + Clock
        + RandomSource
        + Sync,
>(rt: &HostRuntime, threads: &S, plan: &ServePlan, log: bool, explain: bool) -> ExitCode
    ensures { (exit_status result ≡ 0) ⊎ (exit_status result ≡ 3) }
{
    let mut stderr = rt.stderr();
    let mut unwaited = if log {
        Some(NonBlockingWriter::new(threads, rt.alloc(), &mut stderr))
    } else {
        None
    };
    let sink = unwaited.as_mut();
    let lookup = SystemLookup::new(rt);
    match serve_folder(
        rt,
        threads,
        rt.alloc(),
        &mut rt.stdout(),
        sink,
        plan,
        lookup,
    ) {
        Ok(()) => ExitCode::SUCCESS,
        Err(cause) => {
            let code = match &mut unwaited {
                Some(log) => {
                    log.tell_fault(rt.alloc(), cause);
                    ExitCode::from(REFUSED)
                }
                None => end(rt, cause, REFUSED),
            };
            if is_wanted(rt, explain) {
                explain_serve(rt, threads, plan, cause);
            }
            code
        }
    }
}

// Says what the system says of the folder, or of the port, for which nothing is served.
fn explain_serve<S: Net<Listener = TcpListener, Stream = TcpStream>>(
    rt: &HostRuntime,
    net: &S,
    plan: &ServePlan,
    cause: ServingFault,
) {
    match cause {
        ServingFault::Disk => tell_folder(rt, &plan.folder, true),
        ServingFault::Io => tell_listened(rt, net, plan),
        ServingFault::InUse => tell_in_use(rt, &plan.folder),
        _ => {}
    }
}

/// Says what the store in a folder comes to.
pub(crate) fn run_inspect(
    rt: &HostRuntime,
    dir: &str,
    lists: Lists,
    json: bool,
    explain: bool,
) -> ExitCode
    ensures { (exit_status result ≡ 0) ⊎ (exit_status result ≡ 3) }
{
    let told = if json {
        inspect_folder_as_json(rt, rt.alloc(), &mut rt.stdout(), dir, lists)
    } else {
        inspect_folder(rt, rt.alloc(), &mut rt.stdout(), dir, lists)
    };
    match told {
        Ok(()) => ExitCode::SUCCESS,
        Err(cause) => {
            let code = end(rt, cause, REFUSED);
            if cause == ServingFault::Disk && is_wanted(rt, explain) {
                tell_folder(rt, dir, false);
            }
            code
        }
    }
}
