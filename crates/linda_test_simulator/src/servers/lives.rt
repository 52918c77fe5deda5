//! Lives of a server: it is opened on its disks, works, and stops.

ghost use Rattle.std.specs.Prelude.{◌≡◌, false, IfSome};
ghost use Rattle.linda_shared_accounts.specs.declared.limits.TheConstants.{PARTS};

use crate::servers::bank::{Bank, Taken};
use crate::servers::check::is_kept;
use crate::servers::disk::TornDisk;
use crate::servers::events::happen;
use crate::servers::machine::Machine;
use crate::servers::model::Model;
use crate::servers::rig::{Rig, relays_of};
use crate::servers::scarce::Scarce;
use crate::servers::side::Side;
use crate::servers::things::{GIVEN_UP, TORN};
use crate::servers::world::World;
use linda_server::Durable;
use linda_shared::Shared;
use linda_shared_accounts::PARTS;
use linda_test_runs::Course;
use std::alloc::{AllocError, Global};
use std::marker::Brand;
use std::net::Net;
use std::sync::Wait;
use std::sync::ledger::{Blank, Ledger};

/// How often a server is opened again at most that stops while it is opened.
const MOST_TRIES: u32 = 16;

/// Plays a run.
pub fn play<R: Wait + Net>(rt: &R, alloc: Global, course: &Course) -> Result<World, AllocError> {
    let mut world = World::new(alloc, course.seed, clients_of(course.seed))?;
    if course.is_scarce {
        world.scarce = Some(Scarce::new(alloc));
    }
    let machine = Machine::new(rt);
    let mut disks = None;
    for _ in 0..course.len() {
        let Some(server) = begin(alloc, disks, &mut world) else {
            break;
        };
        disks = live::<Brand, R>(
            &machine,
            alloc,
            Blank::new(PARTS),
            server,
            &mut world,
            course,
        );
        if world.fault.is_some() {
            break;
        }
        world.end_life();
        if world.tally.events >= course.len() {
            // What the last life left is looked at, too.
            let _ = begin(alloc, disks, &mut world);
            break;
        }
    }
    let given_up = world.model.bank.given_up;
    world.tally.count_all(GIVEN_UP, given_up);
    Ok(world)
}

// How many clients a run has.
fn clients_of(seed: u64) -> u32 {
    match seed % 4 {
        0 => 64,
        1 => 8,
        2 => 24,
        _ => 3,
    }
}

// The server begins: on new disks, or on what a stop left of its disks. None if it does not, or is
// not as it has to be.
fn begin(
    alloc: Global,
    disks: Option<(TornDisk, TornDisk)>,
    world: &mut World,
) -> Option<Durable<TornDisk>>
    ensures { IfSome result (λ s. s.down ≡ false) }
{
    match disks {
        Some((left, right)) => open(alloc, left, right, world),
        None => create(alloc, world),
    }
}

// A server that was never used.
fn create(alloc: Global, world: &mut World) -> Option<Durable<TornDisk>>
    ensures { IfSome result (λ s. s.down ≡ false) }
{
    let limit = world.draw_limit();
    world.model.bank = Bank::new(limit);
    match (TornDisk::new(alloc), TornDisk::new(alloc)) {
        (Ok(left), Ok(right)) => match Durable::create(alloc, left, right, limit) {
            Ok(server) => Some(server),
            Err(_) => {
                world.blame("the run has no memory");
                None
            }
        },
        _ => {
            world.blame("the run has no memory");
            None
        }
    }
}

// The server is opened on what a stop leaves of its disks, while it may stop again.
fn open(
    alloc: Global,
    left: TornDisk,
    right: TornDisk,
    world: &mut World,
) -> Option<Durable<TornDisk>>
    ensures { IfSome result (λ s. s.down ≡ false) }
{
    let mut left = left;
    let mut right = right;
    let limit = world.draw_limit();
    for _ in 0..MOST_TRIES {
        crash(&mut left, world);
        crash(&mut right, world);
        trouble(&mut left, world);
        trouble(&mut right, world);
        world.begin_call();
        let opened = Durable::open(alloc, left, right, limit);
        world.end_call();
        world.shaky = 0;
        match opened {
            Ok(server) => {
                find(&server, limit, world);
                return Some(server);
            }
            Err((_, one, other)) => {
                left = one;
                right = other;
            }
        }
    }
    world.blame("a server could not be opened");
    None
}

// A life of the server, until it stops. Returns its disks.
fn live<L: Ledger, R: Wait + Net>(
    rt: &Machine<'_, R>,
    alloc: Global,
    blank: Blank,
    server: Durable<TornDisk>,
    world: &mut World,
    course: &Course,
) -> Option<(TornDisk, TornDisk)>
    requires up { server.down ≡ false }
    requires blank { (blank.name ≡ L.name) × (blank.parts ≡ L.parts) × (L.parts ≡ PARTS) }
{
    let Ok(relays) = relays_of(rt.runtime(), alloc) else {
        return None;
    };
    match Shared::<TornDisk, L>::new(alloc, server, blank) {
        Ok(shared) => match Rig::new(alloc, shared, relays) {
            Ok(rig) => {
                let mut rig = rig;
                work(rt, &mut rig, world, course);
                Some(rig.into_disks())
            }
            Err(_) => None,
        },
        Err(_) => None,
    }
}

// What happens until the server stops.
fn work<S: Side, R: Wait>(rt: &Machine<'_, R>, side: &mut S, world: &mut World, course: &Course) {
    for at in world.tally.events..course.len() {
        world.dice = course.dice(at);
        match happen(rt, side, world) {
            Ok(goes_on) => {
                if !goes_on || world.fault.is_some() {
                    return;
                }
            }
            Err(_) => {
                world.blame("the run has no memory");
                return;
            }
        }
    }
}

// What a crash leaves of a disk.
fn crash(disk: &mut TornDisk, world: &mut World) {
    match disk.crash(&mut world.dice) {
        Ok(count) => world.tally.count_all(TORN, count),
        Err(_) => world.blame("the run has no memory"),
    }
}

// What goes wrong with a disk in the next life.
fn trouble(disk: &mut TornDisk, world: &mut World) {
    if world.dice.one_in(2) {
        let most = if world.dice.one_in(2) { 40 } else { 400 };
        let calls = world.dice.below(most);
        disk.fuse(u64::from(calls));
    }
    if world.dice.one_in(8) {
        let calls = world.dice.below(400);
        disk.fail_once(u64::from(calls));
    }
}

// Looks whether the server keeps what was answered, and some first of the unanswered messages.
fn find(server: &Durable<TornDisk>, limit: usize, world: &mut World) {
    let taken = Taken {
        used: server.used(),
        records: server.records(),
    };
    for at in 0..=world.unanswered.len() {
        if is_kept(server.state(), &world.model) && is_taken(taken, &world.model) {
            world.settle(at, limit, taken);
            return;
        }
        world.do_unanswered(at);
    }
    world.blame("a server was opened that keeps other than was answered");
}

// Whether this may be taken of the bank of a server that keeps what the model does.
fn is_taken(taken: Taken, model: &Model) -> bool {
    model.bank.may_be(taken, model.snapshot_len())
}
