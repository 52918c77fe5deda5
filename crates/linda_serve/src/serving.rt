//! `linda serve`: the store in a folder, for clients that connect to a port of this machine, or to
//! a unix socket.

mod address;
mod banks;
mod fault;
mod heap;
mod listeners;
mod log;
mod minutes;
mod non_blocking_writer;
mod socket;
mod stamp;
mod start;
mod status;
mod store;
mod waiting;

ghost use Rattle.std.specs.Prelude.{◌≡◌, ◌<◌, false, OnErr, OnOk};
ghost use Rattle.linda_shared_accounts.specs.declared.limits.TheConstants.{PARTS};

use banks::FolderWatcher;
pub use banks::{FileLookup, SystemLookup};
pub use fault::ServingFault;
use fault::served;
use heap::keep_heap;
use linda_disk::FileDisk;
use linda_net::{
    CounterValues, Gauge, Limits, Listener, ListeningSockets, Shared, SharedFault, serve_loop,
};
use linda_serve_plan::{ServePlan, StatusPlace};
use linda_server::Durable;
pub use linda_server::InUse;
use linda_shared_accounts::PARTS;
use linda_status::About;
use listeners::{bind_listeners, keep_socket_open, own_file, port_of, tell_ready};
pub use log::{Cause, Log};
pub use non_blocking_writer::NonBlockingWriter;
use socket::remove;
pub use stamp::stamp_of;
use start::{BankTrouble, Begun, Course};
use status::{kept_status, listen_for_status, own_file_of_status, status_at};
use std::alloc::Global;
use std::fs::{File, Files};
use std::hash::RandomState;
use std::io::Write;
use std::marker::Brand;
use std::net::{Net, TcpListener, TcpStream};
use std::random::RandomSource;
use std::sync::ledger::{Blank, Ledger};
use std::sync::{Mutex, Wait};
use std::thread::Threads;
use std::time::Clock;
pub use store::open_store;
pub(crate) use store::{LEFT, RIGHT};
use waiting::open_when_free;

/// Serves the store in a folder to clients that connect to a port of this machine, to a unix
/// socket, or to either, and writes `ready PORT` once it listens; without a port `ready PATH`. If
/// there is a sink, it gets a log, as docs/OPERATING.md has it; a line that cannot be written there
/// is lost. If there is a place for it, the server says there how it does, as docs/OPERATING.md has
/// it too.
///
/// While another server has the folder open it waits, if the plan says so: it tries again ten times
/// a second, and reads nothing of the store before it has the lock. It listens once the store is
/// opened.
///
/// A socket's file has its mode from the first moment on. One that is left of a server that was
/// killed is replaced, and it is removed at the end. Anything else at its path stays.
///
/// Each second it looks by `lookup` whether the files of both banks are still there, and goes down
/// if one is not.
///
/// If its records have as many bytes as the last snapshot left in the bank, one is taken first. If
/// the last one was cut off, or this one cannot be written, its room is given back, and the next
/// one is put off until there are records of half of that room, or as many as make one due, unless
/// a deed is refused for room: so a disk that has no room for a snapshot is no reason to serve
/// nobody.
///
/// # Errors
///
/// As `open_store` returns them, but `InUse` only if it does not wait, and then `Io` if a port or a
/// socket cannot be listened on, or there is neither, or the output fails. `Down` if the server
/// went down, at the next connection or at the end. `Memory`.
pub fn serve_folder<
    F: Files<File = File> + Net,
    S: Net<Listener = TcpListener, Stream = TcpStream>
        + Threads
        + Wait
        + Clock
        + RandomSource
        + Sync,
    W: Write,
    E: Write + Send,
    P: FileLookup + Drop + Send,
>(
    files: &F,
    rt: &S,
    alloc: Global,
    writer: &mut W,
    sink: Option<&mut E>,
    plan: &ServePlan,
    lookup: P,
) -> Result<(), ServingFault> {
    let mut log = Log::new(alloc, sink)?;
    let begun = open_when_free(files, rt, alloc, &mut log, plan)?;
    let Begun { mut server, course } = begun;
    choose_keys(rt, &mut server);
    let watcher = FolderWatcher::new(lookup, alloc, &plan.folder, log)?;
    let listeners = bind_listeners(files, rt, alloc, plan)?;
    let kept = keep_socket_open(&listeners);
    let own = own_file(files, plan.socket.as_ref());
    let asked = listen_for_status(files, rt, alloc, plan.status.as_ref());
    let held = kept_status(&asked);
    let own_status = own_file_of_status(files, &asked, plan.status.as_ref());
    let ended = tell_and_serve::<Brand, P, S, W, E>(
        rt,
        alloc,
        writer,
        watcher,
        server,
        course,
        Blank::new(PARTS),
        listeners,
        asked,
        plan,
    );
    if let Some(StatusPlace::Path(path)) = &plan.status {
        remove(files, path, own_status);
    }
    drop(held);
    if let Some(socket) = &plan.socket {
        remove(files, &socket.path, own);
    }
    drop(kept);
    ended
}

// The server keeps what waits by random keys, if the system has any; else by those that it has.
fn choose_keys<S: RandomSource>(rt: &S, server: &mut Durable<FileDisk>)
    ensures { server.new.down ≡ server.old.down }
{
    if let Ok(keys) = RandomState::new(rt) {
        server.choose_keys(keys);
    }
}

// Shares a server that was opened. Its bytes are counted from those that its bank had when it was
// new, and its next snapshot is put off as its start says, unless its bank is in the old form.
fn share<L: Ledger, R: Wait>(
    rt: &R,
    alloc: Global,
    server: Durable<FileDisk>,
    course: &Course,
    blank: Blank,
) -> Result<Shared<FileDisk, L>, ServingFault>
    requires up { server.down ≡ false }
    requires blank { (blank.name ≡ L.name) × (blank.parts ≡ L.parts) × (L.parts ≡ PARTS) }
{
    let is_old = server.is_of_old_form();
    let shared = Shared::new(alloc, server, blank)?;
    shared.keep_room(rt);
    shared.count_from(rt, course.base);
    match course.put_off {
        Some(room) if !is_old => shared.defer_snapshot(rt, room),
        _ => {}
    }
    Ok(shared)
}

// Writes where it listens, and serves.
fn tell_and_serve<
    L: Ledger + Send + Sync,
    P: FileLookup + Drop + Send,
    S: Net<Listener = TcpListener, Stream = TcpStream> + Threads + Wait + Clock + Sync,
    W: Write,
    E: Write + Send,
>(
    rt: &S,
    alloc: Global,
    writer: &mut W,
    watcher: FolderWatcher<'_, P, E>,
    server: Durable<FileDisk>,
    course: Course,
    blank: Blank,
    listeners: ListeningSockets,
    asked: Result<Option<Listener>, ServingFault>,
    plan: &ServePlan,
) -> Result<(), ServingFault>
    requires up { server.down ≡ false }
    requires blank { (blank.name ≡ L.name) × (blank.parts ≡ L.parts) × (L.parts ≡ PARTS) }
{
    let mut watcher = watcher;
    let asked = asked?;
    let bank = server.in_use();
    let shared: Shared<FileDisk, L> = share(rt, alloc, server, &course, blank)?;
    keep_heap(alloc);
    let port = port_of(&listeners)?;
    let path = path_of(plan);
    let about = About {
        version: plan.version,
        folder: &plan.folder,
        port,
        socket: path,
    };
    let status = status_at(rt, alloc, asked, about, &plan.metrics);
    let log = watcher.log();
    log.tell_opened(rt, port, path, bank, &shared.gauge(rt));
    tell_start(rt, log, &course, &shared.gauge(rt));
    tell_ready(alloc, writer, port, path)?;
    let watcher = Mutex::new(watcher);
    let limits = Limits {
        sessions: plan.sessions,
        lease: plan.lease,
    };
    let (ended, tally) = serve_loop(rt, alloc, listeners, &shared, limits, &watcher, status);
    tell_end(rt, watcher.into_inner(), shared, ended, &tally)
}

// The path of the socket of a plan, if it has one.
fn path_of(plan: &ServePlan) -> Option<&str> {
    match &plan.socket {
        Some(socket) => Some(&socket.path),
        None => None,
    }
}

// Writes what a start came to: that a snapshot was taken, or why it could not be.
fn tell_start<S: Clock, E: Write>(rt: &S, log: &mut Log<'_, E>, course: &Course, gauge: &Gauge) {
    if let Some(millis) = course.taken {
        log.tell_snapshot(rt, millis, gauge);
    }
    if let Some(BankTrouble { is_right, trouble }) = &course.trouble {
        let bank = if *is_right { "right" } else { "left" };
        log.tell_failed(rt, bank, trouble);
    }
}

// Writes the last line of the log: how it ended, and why.
fn tell_end<L: Ledger, P: FileLookup + Drop, S: Wait + Clock, E: Write>(
    rt: &S,
    watcher: FolderWatcher<'_, P, E>,
    shared: Shared<FileDisk, L>,
    ended: Result<(), SharedFault>,
    tally: &CounterValues,
) -> Result<(), ServingFault> {
    let mut watcher = watcher;
    let gauge = shared.gauge(rt);
    let (left, right) = shared.into_server().into_disks();
    let removed = u64::from(watcher.is_removed());
    let log = watcher.log();
    tell_trouble(rt, log, "left", &left);
    tell_trouble(rt, log, "right", &right);
    let failures = left
        .failures()
        .saturating_add(right.failures())
        .saturating_add(removed);
    log.tell_end(rt, cause_of(&ended, failures), tally.came, &gauge);
    served(ended)
}

// Writes why a bank's file failed, if it did.
fn tell_trouble<S: Clock, E: Write>(rt: &S, log: &mut Log<'_, E>, bank: &str, disk: &FileDisk) {
    if let Some(trouble) = disk.trouble() {
        log.tell_failed(rt, bank, &trouble);
    }
}

// Why a server ended whose disks failed so often.
fn cause_of(ended: &Result<(), SharedFault>, failures: u64) -> Cause
    ensures sessions { OnOk ended.now (result ≡ Cause.Sessions) }
    ensures device { OnErr ended.now (0 < failures → result ≡ Cause.Device) }
    ensures memory { OnErr ended.now (failures ≡ 0 → result ≡ Cause.Memory) }
{
    match ended {
        Ok(()) => Cause::Sessions,
        Err(_) => {
            if failures > 0 {
                return Cause::Device;
            }
            Cause::Memory
        }
    }
}
