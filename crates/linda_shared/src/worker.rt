//! Workers: what a session does, step by step.

ghost use Rattle.std.specs.Prelude.{◌≡◌, ◌+◌, ◌-◌, ◌^◌, min};
ghost use Rattle.linda_shared.specs.Working.{HasWorked};

use crate::gate::Gate;
use crate::seat::Seat;
use crate::shared::Shared;
use linda_disk::Disk;
use linda_shared_accounts::SharedFault;
use linda_shared_queue::Outlet;
use linda_wire::{Message, Reply};
use std::alloc::Global;
use std::sync::Wait;
use std::sync::ledger::Ledger;
use std::thread;
use std::time::{Clock, Duration};

/// How often a closed gate is asked, with a millisecond in between.
pub const MOST_TURNS: u32 = 10_000;

/// What a worker does next.
#[derive(Debug, Drop)]
pub enum Next {
    /// It sends this, and goes on with the replies that are there then.
    Send(Message),
    /// It goes on once there is a reply.
    Wait,
    /// It ends.
    Done,
}

/// What a session does, step by step.
pub trait Worker: Drop {
    /// What it does next, given the replies that came since its last step, in order.
    fn next<R: Wait + Clock>(&mut self, rt: &R, replies: &[Reply]) -> Next;
}

/// How many messages a worker sent.
#[derive(Drop)]
struct Calls {
    sent: u64,
}

impl Calls {
    // It sent none.
    fn new() -> Calls
        ensures { result.sent ≡ 0 }
    {
        Calls { sent: 0 }
    }

    // The number of its next message, counted from 1; the last number there is for all after that.
    fn next(&mut self) -> u64
        ensures { (self.new.sent ≡ min (self.old.sent + 1) (2 ^ 64 - 1))
            × (result ≡ self.new.sent) }
    {
        self.sent = self.sent.saturating_add(1);
        self.sent
    }
}

/// Lets the worker do its steps until it ends. The seat stays its client's, and loses nothing that
/// was reported to it.
///
/// # Errors
///
/// The fault of `submit`; `Stuck` if the gate stays closed; and if the worker waits and no reply
/// comes any more, `Down`, or `Memory` if the server is up.
pub(crate) fn work<D: Disk, L: Ledger, W: Worker, G: Gate, R: Wait + Clock>(
    rt: &R,
    alloc: Global,
    shared: &Shared<D, L>,
    gate: &G,
    seat: &mut Seat<L>,
    outlet: &mut Outlet<L>,
    worker: &mut W,
) -> Result<(), SharedFault>
    ensures { HasWorked seat.old seat.new }
{
    let mut calls = Calls::new();
    let mut replies = Vec::new(alloc);
    for _ in rt.forever() {
        match worker.next(rt, &replies) {
            Next::Done => return Ok(()),
            Next::Wait => {
                replies = shared.drain_wait(rt, outlet);
                if replies.is_empty() {
                    return Err(why_silent(rt, shared));
                }
            }
            Next::Send(message) => {
                send(rt, shared, gate, seat, &message, calls.next())?;
                replies = shared.drain(rt, outlet);
            }
        }
    }
    unreachable!()
}

// Sends the message once the gate lets it go.
fn send<D: Disk, L: Ledger, G: Gate, R: Wait + Clock>(
    rt: &R,
    shared: &Shared<D, L>,
    gate: &G,
    seat: &mut Seat<L>,
    message: &Message,
    call: u64,
) -> Result<(), SharedFault>
    ensures { HasWorked seat.old seat.new }
{
    let client = seat.client();
    if !is_open(rt, gate, client, call) {
        return Err(SharedFault::Stuck(client));
    }
    let answer = shared.submit(rt, seat, message);
    gate.answered(rt, client, call);
    match answer {
        Ok(_) => Ok(()),
        Err(fault) => Err(fault),
    }
}

// Asks the gate until it lets the message go, or was asked too often.
fn is_open<G: Gate, R: Wait + Clock>(rt: &R, gate: &G, client: u32, call: u64) -> bool {
    for _ in 0..MOST_TURNS {
        if gate.may(rt, client, call) {
            return true;
        }
        thread::sleep(rt, Duration::from_millis(1));
    }
    false
}

// Why no reply comes any more.
fn why_silent<D: Disk, L: Ledger, R: Wait>(rt: &R, shared: &Shared<D, L>) -> SharedFault {
    if shared.is_down(rt) {
        SharedFault::Down
    } else {
        SharedFault::Memory
    }
}
