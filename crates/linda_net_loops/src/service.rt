//! Service of a loop: what its sessions ask goes to the server, group by group, and so do clients
//! that come and go.

ghost use Rattle.std.specs.Prelude.{◌≡◌, []};
ghost use Rattle.linda_shared.specs.Group.{group_of};

use crate::groups::{Groups, LoopCall};
use crate::loop_sink::LoopSink;
use crate::sessions::Sessions;
use crate::socket::Socket;
use linda_disk::Disk;
use linda_net_marks::micros_since;
use linda_net_relays::LoopDirectory;
use linda_net_session::Way;
use linda_shared::{Account, Admission, MessageGroup, Shared, SharedFault};
use std::sync::Wait;
use std::sync::ledger::Ledger;
use std::time::{Clock, Instant};

/// How often messages of which no deed comes are served before the others.
const MOST_ROUNDS: u32 = 128;

/// Takes what is ready, as far as the turn has some left, and serves what makes no deed, and
/// clients that come and go. Says whether the server is up.
pub(crate) fn serve_asks<D: Disk, S: Socket, L: Ledger, R: Wait + Clock>(
    rt: &R,
    shared: &Shared<D, L>,
    directory: &LoopDirectory,
    sessions: &mut Sessions<S, L>,
    batch: &mut Groups<L>,
) -> bool {
    let mut is_up = true;
    for _ in 0..MOST_ROUNDS {
        let before = batch.len();
        sessions.gather(batch, &directory.counters);
        let is_full = batch.is_full_of_asks();
        let is_last = !is_full && (batch.len() == before || !sessions.has_ready());
        if !is_full {
            sessions.flush(rt, directory);
        }
        is_up = serve_calls(rt, shared, directory, sessions) && is_up;
        if batch.asking.len() > 0 {
            let asking = &mut batch.asking;
            let (is_still_up, micros) = serve(rt, shared, directory, sessions, asking, Way::Asks);
            is_up = is_still_up && is_up;
            batch.share.end_asks(micros);
            batch.share.tell(sessions.take_told());
        }
        if is_last || !batch.share.has_left() {
            break;
        }
    }
    sessions.flush(rt, directory);
    is_up
}

/// Serves the rest as one group. Says whether the server is up.
pub(crate) fn serve_deeds<D: Disk, S: Socket, L: Ledger, R: Wait + Clock>(
    rt: &R,
    shared: &Shared<D, L>,
    directory: &LoopDirectory,
    sessions: &mut Sessions<S, L>,
    batch: &mut Groups<L>,
) -> bool {
    if batch.doing.len() == 0 {
        return true;
    }
    let (is_up, _) = serve(
        rt,
        shared,
        directory,
        sessions,
        &mut batch.doing,
        Way::Deeds,
    );
    let _ = sessions.take_told();
    is_up
}

// Serves clients that come and go. Says whether the server is up.
fn serve_calls<D: Disk, S: Socket, L: Ledger, R: Wait + Clock>(
    rt: &R,
    shared: &Shared<D, L>,
    directory: &LoopDirectory,
    sessions: &mut Sessions<S, L>,
) -> bool {
    let mut is_up = true;
    for _ in 0..sessions.calls.len() {
        let Some(call) = sessions.calls.pop_front() else {
            break;
        };
        match call {
            LoopCall::Greet(key, message) => {
                let greeting = shared.admit(rt, &message);
                if let Ok(Admission::Refused(code, _)) = &greeting {
                    directory
                        .counters
                        .count_refused_greeting(rt, &message, *code);
                }
                is_up = !is_down(&greeting) && is_up;
                sessions.note_greeting(key, &message, &greeting);
                let left = sessions.greet(rt, directory, key, greeting);
                is_up = leave(rt, shared, directory, sessions, left) && is_up;
            }
            LoopCall::Disconnected(key) => {
                let left = sessions.take_account(key);
                is_up = leave(rt, shared, directory, sessions, left) && is_up;
            }
        }
    }
    is_up
}

// The client of this account leaves, if there is one. Says whether the server is up.
fn leave<D: Disk, S: Socket, L: Ledger, R: Wait + Clock>(
    rt: &R,
    shared: &Shared<D, L>,
    directory: &LoopDirectory,
    sessions: &mut Sessions<S, L>,
    left: Option<Account<L>>,
) -> bool {
    let Some(account) = left else {
        return true;
    };
    let mut sink = sink(rt, sessions, directory);
    let is_up = shared.depart(rt, account, &mut sink);
    wake_others(rt, &sink);
    is_up
}

// Serves a group of the sessions. Says whether the server is up, and for how many microseconds it
// was locked.
fn serve<D: Disk, S: Socket, L: Ledger, R: Wait + Clock>(
    rt: &R,
    shared: &Shared<D, L>,
    directory: &LoopDirectory,
    sessions: &mut Sessions<S, L>,
    group: &mut MessageGroup<usize, L>,
    way: Way,
) -> (bool, u64)
    // All that was asked is served, and there is room for as much again.
    ensures { group.new ≡ group_of group.old.room [] [] }
{
    let asked = std::mem::replace(group, sessions.empty_group());
    let mut sink = sink(rt, sessions, directory);
    directory.counters.count_group(asked.len());
    let begin = Instant::now(rt).ok();
    let (served, is_up) = shared.serve_group(rt, asked, &mut sink);
    let locked = micros_since(rt, sink.begin);
    directory
        .counters
        .add_serving_micros(micros_since(rt, begin));
    wake_others(rt, &sink);
    *group = sessions.hear_all(served, way);
    (is_up, locked)
}

// Whether the server that answers so is down.
fn is_down<T>(answer: &Result<T, SharedFault>) -> bool {
    matches!(answer, Err(SharedFault::Down))
}

// Who takes what is sent while the loop has the server.
fn sink<'s, 'r, S: Socket, L: Ledger, R: Clock>(
    rt: &'r R,
    sessions: &'s mut Sessions<S, L>,
    directory: &'r LoopDirectory,
) -> LoopSink<'s, 'r, S, L, R> {
    LoopSink {
        clock: rt,
        sessions,
        directory,
        has_taken: false,
        has_handed: false,
        begin: None,
    }
}

// Wakes the loops that something was handed to.
fn wake_others<S: Socket, L: Ledger, C: Clock, R: Wait>(rt: &R, sink: &LoopSink<'_, '_, S, L, C>) {
    if sink.has_handed {
        sink.directory.wake_all(rt);
    }
}
