//! The world: its events one by one and in lists, and what it shows.

ghost use Rattle.std.specs.Prelude.{◌≡◌, ◌≤◌, ◌<◌, [], Some, None, All, IfOk, true};
ghost use Rattle.std.specs.Prelude.{false, length, option_copied};
ghost use Rattle.std.specs.Prelude.{map as map_list};
ghost use Rattle.std.specs.Option.{option_map};
ghost use Rattle.std.specs.List.{slice_get};
ghost use Rattle.std.specs.FinMap as map;
ghost use Rattle.linda_client.specs.declared.limits.TheConstants.{MAX_SERVERS};
ghost use Rattle.linda_world_laws.specs.Reached.{IsUnused};
ghost use Rattle.linda_world.specs.Scene.{world_of};
ghost use Rattle.linda_world.specs.World.{IsRun, Joins, Passes, Ran, Steps, deeds_by, got_by};

use crate::fault::WorldFault;
use crate::scene::Scene;
use linda_store::{Deed, Node};
use linda_world_laws::{Packet, Seen, WorldEvent};
use std::alloc::{AllocError, Global};
use std::marker::Model;

/// Servers, numbered from 0, and clients with a network between them. Packets are numbered from 0,
/// in the order of sending, and are never removed.
pub struct World<N: Node> {
    scene: Scene<N>,
    // Whether memory ran out; then the world does nothing more.
    spent: bool,
}

impl<N: Node> Drop for World<N> {
    fn drop(self) {
        let World { scene: _, spent: _ } = self;
    }
}

impl<N: Node> Model for World<N> {
    ghost use Rattle.linda_world.specs.World as seen;
    ghost use Rattle.linda_world.specs.World.{IsRun};
    ghost use Rattle.linda_world.specs.WorldCode.{whole_code};

    ghost Value = { seen.World };

    ghost coded = { whole_code };

    ghost view = { λ w. record { world = w.scene; is_spent = w.spent } };

    ghost invariant = { λ w. IsRun (record { world = w.scene; is_spent = w.spent }) };
}

impl<N: Node> World<N> {
    /// These nodes, 1 to 16, none of which was ever used; no client yet, and no packet.
    ///
    /// # Errors
    ///
    /// If memory runs out.
    pub fn new(alloc: Global, nodes: Vec<N>) -> Result<World<N>, AllocError>
        requires some { 1 ≤ length nodes.items }
        requires few { length nodes.items ≤ MAX_SERVERS }
        requires unused { All IsUnused (map_list (λ n. N.shown n) nodes.items) }
        ensures { IfOk result (λ w. w
            ≡ record {
              world = world_of (map_list (λ n. N.shown n) nodes.items);
              is_spent = false;
            }) }
    {
        let scene = Scene::new(alloc, nodes)?;
        Ok(World {
            scene,
            spent: false,
        })
    }

    /// Adds a client of this number, over all servers.
    ///
    /// # Errors
    ///
    /// `ClientKnown` if there is one; nothing changes. `Memory` if there is none and memory ran
    /// out, as in `step`.
    pub fn add_client(&mut self, alloc: Global, number: u32) -> Result<(), WorldFault>
        ensures { Joins self.old number result self.new }
    {
        if self.spent {
            return Err(WorldFault::Memory);
        }
        match self.scene.add_client(alloc, number) {
            Ok(()) => return Ok(()),
            Err(WorldFault::ClientKnown) => return Err(WorldFault::ClientKnown),
            Err(_) => {
                self.spent = true;
                return Err(WorldFault::Memory);
            }
        }
    }

    /// What the client was given: the server and the id of each tuple that it took, in order.
    /// Nothing if there is no such client.
    pub fn got(&self, client: u32) -> &[(u32, u64)]
        ensures got { result.now ≡ got_by (map.get self.now.world.members client) }
        ensures run { IsRun self.now }
    {
        match self.scene.got(client) {
            Some(got) => got,
            None => &[],
        }
    }

    /// All deeds that the server ever did, in order. No deeds if there is no such server.
    pub fn deeds(&self, server: u32) -> &[Deed]
        ensures deeds { result.now ≡ deeds_by (slice_get self.now.world.servers server) }
        ensures run { IsRun self.now }
    {
        match self.scene.server(server) {
            Some(server) => server.deeds(),
            None => &[],
        }
    }

    /// The node of the server, if there is such a one.
    pub fn node(&self, server: u32) -> Option<&N>
        ensures { option_map (λ n. N.shown n) (option_copied result)
            ≡ option_map (λ s. s.node) (slice_get self.now.world.servers server) }
    {
        match self.scene.server(server) {
            Some(server) => Some(server.node()),
            None => None,
        }
    }

    /// All packets that were ever sent, in order; a packet's number is its place.
    pub fn packets(&self) -> &[Packet]
        ensures packets { result.now ≡ self.now.world.packets }
        ensures run { IsRun self.now }
    {
        self.scene.packets()
    }

    /// Does these events, one after another, until one is refused or goes wrong.
    ///
    /// # Errors
    ///
    /// As in `step`; the events before that one took place.
    pub fn run(&mut self, alloc: Global, events: Vec<WorldEvent>) -> Result<(), WorldFault>
        ensures { Ran self.old events.items result self.new }
    {
        for event in events {
            match self.pass(alloc, event) {
                Ok(()) => {}
                Err(fault) => return Err(fault),
            }
        }
        Ok(())
    }

    // Does one event, and reports nothing of what is seen.
    fn pass(&mut self, alloc: Global, event: WorldEvent) -> Result<(), WorldFault>
        ensures { Passes self.old event result self.new }
    {
        match self.step(alloc, event) {
            Ok(_) => Ok(()),
            Err(fault) => Err(fault),
        }
    }

    /// Does one event.
    ///
    /// # Errors
    ///
    /// A refusal changes nothing: `NoClient`, `NoServer`, `NoPacket` or `TooManyPackets` if the
    /// event names what is not there, or too much; `Client` if the client refuses. `Down` if the
    /// event took place and the server is down. `Memory` if memory ran out for an event that is not
    /// refused (only a reply that is delivered is copied before its client is asked): what the
    /// world shows is as before the event, and it answers `Memory` from then on.
    pub fn step(&mut self, alloc: Global, event: WorldEvent) -> Result<Seen, WorldFault>
        ensures { Steps self.old event result self.new }
    {
        if self.spent {
            return Err(WorldFault::Memory);
        }
        match self.scene.step(alloc, event) {
            Ok(seen) => Ok(seen),
            Err(fault) => {
                self.spent = fault == WorldFault::Memory;
                Err(fault)
            }
        }
    }
}
