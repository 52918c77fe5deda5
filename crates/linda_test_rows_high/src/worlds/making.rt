//! Worlds of a row, as they are made.

ghost use Rattle.std.specs.Prelude.{◌≤◌, All, IfOk, IfSome, length, map};
ghost use Rattle.linda_client.specs.declared.limits.TheConstants.{MAX_SERVERS};
ghost use Rattle.linda_world_laws.specs.Reached.{IsUnused};

use super::world::AnyWorld;
use linda_disk::MemDisk;
use linda_server::Durable;
use linda_store::{Node, Volatile};
use linda_test_script::{WordsFault, read_number, read_size, split_word};
use linda_world::{World, WorldFault};
use std::alloc::{AllocError, Global};

/// The most bytes that a bank of a server may have if its disks have room.
const LIMIT: usize = 1_048_576;

/// The disks of a first server.
#[derive(Clone, Copy)]
struct Disks {
    /// The most bytes that a bank may have.
    limit: usize,
    /// The call of the left device, from 0, that fails.
    left: Option<u64>,
    right: Option<u64>,
}

/// Appends the worlds that the words say.
pub fn push_worlds(
    alloc: Global,
    words: &str,
    worlds: &mut Vec<AnyWorld>,
) -> Result<(), WordsFault> {
    let (count, kind) = split_word(words);
    let two = match count {
        "1" => false,
        "2" => true,
        _ => return Err(WordsFault::Unknown),
    };
    match kind.strip_prefix("on disks") {
        Some(options) => push_on_disks(alloc, options, two, worlds),
        None if kind == "in memory" => push_in_memory(alloc, two, worlds),
        None => Err(WordsFault::Unknown),
    }
}

fn push_in_memory(alloc: Global, two: bool, worlds: &mut Vec<AnyWorld>) -> Result<(), WordsFault> {
    Ok(worlds.push(AnyWorld::InMemory(in_memory(alloc, two)?))?)
}

// Appends the worlds over disks that the options say.
fn push_on_disks(
    alloc: Global,
    options: &str,
    two: bool,
    worlds: &mut Vec<AnyWorld>,
) -> Result<(), WordsFault> {
    let (times, disks) = disks_of(options)?;
    for _ in 0..times {
        worlds.push(AnyWorld::OnDisks(on_disks(alloc, disks, two)?))?;
    }
    Ok(())
}

// How many worlds there are to be on disks, and on which disks.
fn disks_of(options: &str) -> Result<(u64, Disks), WordsFault> {
    let mut disks = Disks {
        limit: LIMIT,
        left: None,
        right: None,
    };
    let mut times = 1;
    if let Some(count) = options.strip_suffix(" times") {
        times = read_number(count.trim_start_matches(", "))?;
    } else if let Some(limit) = options.strip_prefix(", room ") {
        disks.limit = read_size(limit)?;
    } else if let Some(call) = options.strip_prefix(", left fails at ") {
        disks.left = Some(read_number(call)?);
    } else if let Some(call) = options.strip_prefix(", right fails at ") {
        disks.right = Some(read_number(call)?);
    } else if !options.is_empty() {
        return Err(WordsFault::Unknown);
    }
    Ok((times, disks))
}

/// A world of clients 7, 8 and 9 over these servers.
fn with_clients<N: Node>(alloc: Global, nodes: Vec<N>) -> Result<World<N>, WordsFault>
    requires some { 1 ≤ length nodes.items }
    requires few { length nodes.items ≤ MAX_SERVERS }
    requires unused { All IsUnused (map (λ n. N.shown n) nodes.items) }
{
    let mut world = World::new(alloc, nodes)?;
    for client in [7, 8, 9] {
        joined(world.add_client(alloc, client))?;
    }
    Ok(world)
}

fn joined(told: Result<(), WorldFault>) -> Result<(), WordsFault> {
    match told {
        Ok(()) => Ok(()),
        Err(WorldFault::Memory) => Err(WordsFault::Memory),
        Err(_) => Err(WordsFault::Unknown),
    }
}

/// A world over one server in memory, or two.
fn in_memory(alloc: Global, two: bool) -> Result<World<Volatile>, WordsFault> {
    with_clients(alloc, volatile_nodes(alloc, two)?)
}

fn volatile_nodes(alloc: Global, two: bool) -> Result<Vec<Volatile>, AllocError>
    ensures some { IfOk result (λ v. 1 ≤ length v.items) }
    ensures few { IfOk result (λ v. length v.items ≤ MAX_SERVERS) }
    ensures unused { IfOk result (λ v.
        All IsUnused (map (λ n. ⟦<Volatile as linda_store::Node>⟧.shown n) v.items)) }
{
    let mut nodes = Vec::new(alloc);
    nodes.push(Volatile::new(alloc))?;
    if two {
        nodes.push(Volatile::new(alloc))?;
    }
    Ok(nodes)
}

/// A world over one server on such disks, or two, of which the second is on disks that have room
/// and do not fail.
fn on_disks(alloc: Global, disks: Disks, two: bool) -> Result<World<Durable<MemDisk>>, WordsFault> {
    with_clients(alloc, durable_nodes(alloc, disks, two)?)
}

fn durable_nodes(
    alloc: Global,
    disks: Disks,
    two: bool,
) -> Result<Vec<Durable<MemDisk>>, AllocError>
    ensures some { IfOk result (λ v. 1 ≤ length v.items) }
    ensures few { IfOk result (λ v. length v.items ≤ MAX_SERVERS) }
    ensures unused { IfOk result (λ v.
        All IsUnused (map (λ n. ⟦<Durable<MemDisk> as linda_store::Node>⟧.shown n) v.items)) }
{
    let left = new_disk(alloc, disks.left);
    let right = new_disk(alloc, disks.right);
    let first = unused_node(alloc, left, right, disks.limit)?;
    if two {
        return nodes_of(alloc, first, Some(another_node(alloc)?));
    }
    nodes_of(alloc, first, None)
}

/// The first server, and after it the other one if there is one.
fn nodes_of<N: Node>(alloc: Global, first: N, other: Option<N>) -> Result<Vec<N>, AllocError>
    requires first { IsUnused (N.shown first) }
    requires other { IfSome other (λ n. IsUnused (N.shown n)) }
    ensures some { IfOk result (λ v. 1 ≤ length v.items) }
    ensures few { IfOk result (λ v. length v.items ≤ MAX_SERVERS) }
    ensures unused { IfOk result (λ v. All IsUnused (map (λ n. N.shown n) v.items)) }
{
    let mut nodes = Vec::new(alloc);
    nodes.push(first)?;
    if let Some(node) = other {
        nodes.push(node)?;
    }
    Ok(nodes)
}

fn new_disk(alloc: Global, fails_at: Option<u64>) -> MemDisk {
    let mut disk = MemDisk::new(alloc);
    if let Some(call) = fails_at {
        disk.fail_once(call);
    }
    disk
}

/// A server on new disks with room, that was never used.
fn another_node(alloc: Global) -> Result<Durable<MemDisk>, AllocError>
    ensures { IfOk result (λ n. IsUnused (⟦<Durable<MemDisk> as linda_store::Node>⟧.shown n)) }
{
    unused_node(alloc, MemDisk::new(alloc), MemDisk::new(alloc), LIMIT)
}

/// A server on these disks, with this limit, that was never used.
fn unused_node(
    alloc: Global,
    left: MemDisk,
    right: MemDisk,
    limit: usize,
) -> Result<Durable<MemDisk>, AllocError>
    ensures { IfOk result (λ n. IsUnused (⟦<Durable<MemDisk> as linda_store::Node>⟧.shown n)) }
{
    match Durable::create(alloc, left, right, limit) {
        Ok(node) => Ok(node),
        Err(_) => Err(AllocError),
    }
}
