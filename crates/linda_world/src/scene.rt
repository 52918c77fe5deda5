//! Scene of a world, its servers, clients and packets, and each event as one step of it.

ghost use Rattle.std.specs.Prelude.{◌≡◌, ◌<◌, [], ◌∷◌, length, IfOk, option_copied};
ghost use Rattle.std.specs.Prelude.{map as map_list};
ghost use Rattle.std.specs.Option.{option_map};
ghost use Rattle.std.specs.List.{slice_get};
ghost use Rattle.std.specs.FinMap as map;
ghost use Rattle.linda_world_laws.specs.Steps.{HasReacted, HasServed, IsStopped, Halts, HangsUp};
ghost use Rattle.linda_world_laws.specs.Steps.{Saves, Takes};
ghost use Rattle.linda_world_laws.specs.declared.event.WorldEvent.TheVariants as events;
ghost use Rattle.linda_client.specs.React.{Receive};
ghost use Rattle.linda_world_laws.specs.Reached.{IsReached};
ghost use Rattle.linda_client.specs.Call.{call_of};
ghost use Rattle.linda_world.specs.Member.{refusal_to};
ghost use Rattle.linda_world.specs.Refusal.{refusal_at, refusal_of_stop};
ghost use Rattle.linda_world.specs.Scene.{AddsOrNot, Answers, AsksOrNot, new_server, seen_of};
ghost use Rattle.linda_world.specs.Scene.{world_of};

use crate::fault::WorldFault;
use crate::mark::{mark_all_delivered, mark_delivered};
use crate::member::Members;
use crate::message::{are_messages, messages_at};
use crate::server::{Server, Told};
use linda_client::{Call, Client};
use linda_disk::Torn;
use linda_store::{MAX_BATCH, Node, Work};
use linda_wire::{Message, Reply};
use linda_world_laws::{Body, Packet, Seen, WorldEvent, servers_are_few, servers_stay_sound};
use std::alloc::{AllocError, Global};
use std::marker::Model;

/// The servers, the clients and all packets.
#[derive(Drop)]
pub(crate) struct Scene<N: Node> {
    servers: Vec<Server<N>>,
    members: Members,
    packets: Vec<Packet>,
}

impl<N: Node> Model for Scene<N> {
    ghost use Rattle.linda_world_laws.specs.World as seen;
    ghost use Rattle.linda_world.specs.Code.{world_code};

    ghost Value = { seen.World };

    ghost coded = { world_code };

    ghost view = { λ s. record {
      servers = s.servers.items;
      members = s.members;
      packets = s.packets.items;
    } };
}

/// Servers of these nodes, which have done nothing.
fn servers_of<N: Node>(alloc: Global, nodes: Vec<N>) -> Result<Vec<Server<N>>, AllocError>
    ensures { IfOk result (λ v.
        v.items ≡ map_list new_server (map_list (λ n. N.shown n) nodes.items)) }
{
    let mut servers = Vec::new(alloc);
    for node in nodes {
        servers.push(Server::new(alloc, node))?;
    }
    Ok(servers)
}

/// What the world answers if a server returned this, or memory ran out.
fn asked(told: Result<Told, AllocError>) -> Result<Seen, WorldFault>
    ensures { result ≡ seen_of told }
{
    match told {
        Ok(Ok(seen)) => Ok(seen),
        Ok(Err(server)) => Err(WorldFault::Down(server)),
        Err(_) => Err(WorldFault::Memory),
    }
}

impl<N: Node> Scene<N> {
    /// These nodes, no client and no packet.
    pub(crate) fn new(alloc: Global, nodes: Vec<N>) -> Result<Scene<N>, AllocError>
        ensures { IfOk result (λ s. s ≡ world_of (map_list (λ n. N.shown n) nodes.items)) }
    {
        Ok(Scene {
            servers: servers_of(alloc, nodes)?,
            members: Members::new(alloc),
            packets: Vec::new(alloc),
        })
    }

    /// Adds a client.
    pub(crate) fn add_client(&mut self, alloc: Global, number: u32) -> Result<(), WorldFault>
        requires { IsReached self.old }
        ensures { AddsOrNot self.old number result self.new }
    {
        servers_are_few();
        if self.members.has(number) {
            return Err(WorldFault::ClientKnown);
        }
        let Ok(client) = Client::new(alloc, number, self.servers.len() as u32) else {
            return Err(WorldFault::Memory);
        };
        self.members.add(alloc, number, client)?;
        Ok(())
    }

    /// All packets.
    pub(crate) fn packets(&self) -> &[Packet]
        ensures { result.now ≡ self.now.packets }
    {
        &self.packets
    }

    /// What a client was given, if there is one of this number.
    pub(crate) fn got(&self, client: u32) -> Option<&[(u32, u64)]>
        ensures { option_copied result ≡ option_map (λ m. m.got) (map.get self.now.members client) }
    {
        self.members.got(client)
    }

    /// The server of this number, if there is one.
    pub(crate) fn server(&self, server: u32) -> Option<&Server<N>>
        ensures { option_copied result ≡ slice_get self.now.servers server }
    {
        self.servers.get(server as usize)
    }

    // A client makes a call of its own.
    fn react(&mut self, alloc: Global, client: u32, call: Call) -> Result<Seen, WorldFault>
        ensures { AsksOrNot (HasReacted (call_of call) client [])
            (refusal_to (map.get self.old.members client) (call_of call))
            self.old result self.new }
    {
        self.members.react(alloc, client, call, &mut self.packets)
    }

    // A server closes a client.
    fn close(&mut self, alloc: Global, server: u32, client: u32) -> Result<Seen, WorldFault>
        ensures { AsksOrNot (HasServed (HangsUp client) server []) (refusal_at self.old server)
            self.old result self.new }
    {
        if server as usize >= self.servers.len() {
            return Err(WorldFault::NoServer);
        }
        let packets = &mut self.packets;
        asked(self.servers[server as usize].close(alloc, server, client, packets))
    }

    // A server writes a snapshot.
    fn snapshot(&mut self, alloc: Global, server: u32) -> Result<Seen, WorldFault>
        ensures { AsksOrNot (HasServed Saves server []) (refusal_at self.old server)
            self.old result self.new }
    {
        if server as usize >= self.servers.len() {
            return Err(WorldFault::NoServer);
        }
        asked(self.servers[server as usize].snapshot(alloc, server))
    }

    // A server is stopped while it writes a snapshot.
    fn stop_snapshot(
        &mut self,
        alloc: Global,
        server: u32,
        at: u64,
        torn: Torn,
    ) -> Result<Seen, WorldFault>
        ensures { AsksOrNot (HasServed (Halts []) server []) (refusal_at self.old server)
            self.old result self.new }
    {
        if server as usize >= self.servers.len() {
            return Err(WorldFault::NoServer);
        }
        let work = Work::Snapshot;
        asked(self.servers[server as usize].stop(alloc, server, work, at, torn))
    }

    // A server is stopped at work on these packets.
    fn stop(
        &mut self,
        alloc: Global,
        server: u32,
        ks: Vec<usize>,
        at: u64,
        torn: Torn,
    ) -> Result<Seen, WorldFault>
        ensures { AsksOrNot (IsStopped server ks.items) (refusal_of_stop self.old server ks.items)
            self.old result self.new }
    {
        if server as usize >= self.servers.len() {
            return Err(WorldFault::NoServer);
        }
        if !are_messages(&self.packets, server, &ks) {
            return Err(WorldFault::NoPacket);
        }
        if ks.len() > MAX_BATCH {
            return Err(WorldFault::TooManyPackets);
        }
        let Ok(messages) = messages_at(alloc, &self.packets, server, &ks) else {
            return Err(WorldFault::Memory);
        };
        let work = Work::Messages(messages);
        match self.servers[server as usize].stop(alloc, server, work, at, torn) {
            Ok(told) => {
                mark_all_delivered(&mut self.packets, &ks);
                return asked(Ok(told));
            }
            Err(short) => return asked(Err(short)),
        }
    }

    // A message is delivered to its server.
    fn hear(
        &mut self,
        alloc: Global,
        k: usize,
        server: u32,
        client: u32,
        message: Message,
    ) -> Result<Seen, WorldFault>
        requires reached { IsReached self.old }
        requires packet { k < length self.old.packets }
        ensures { AsksOrNot (HasServed (Takes client message) server (k ∷ []))
            (refusal_at self.old server) self.old result self.new }
    {
        servers_stay_sound();
        if server as usize >= self.servers.len() {
            return Err(WorldFault::NoServer);
        }
        let packets = &mut self.packets;
        match self.servers[server as usize].take(alloc, server, client, message, packets) {
            Ok(told) => {
                mark_delivered(&mut self.packets, k);
                return asked(Ok(told));
            }
            Err(short) => return asked(Err(short)),
        }
    }

    // A reply is delivered to its client.
    fn receive(
        &mut self,
        alloc: Global,
        k: usize,
        server: u32,
        client: u32,
        reply: Reply,
    ) -> Result<Seen, WorldFault>
        requires { k < length self.old.packets }
        ensures { AsksOrNot (HasReacted (Receive server reply) client (k ∷ []))
            (refusal_to (map.get self.old.members client) (Receive server reply))
            self.old result self.new }
    {
        let call = Call::Receive(server, reply);
        match self.members.react(alloc, client, call, &mut self.packets) {
            Ok(seen) => {
                mark_delivered(&mut self.packets, k);
                return Ok(seen);
            }
            Err(fault) => return Err(fault),
        }
    }

    // The packet of this number is delivered.
    fn deliver(&mut self, alloc: Global, k: usize) -> Result<Seen, WorldFault>
        requires { IsReached self.old }
        ensures { Answers self.old (events.Deliver k) result self.new }
    {
        if k >= self.packets.len() {
            return Err(WorldFault::NoPacket);
        }
        let packet = &self.packets[k];
        let (server, client) = (packet.server, packet.client);
        match &packet.body {
            Body::Message(message) => {
                if server as usize >= self.servers.len() {
                    return Err(WorldFault::NoServer);
                }
                let message = message.try_clone(alloc)?;
                return self.hear(alloc, k, server, client, message);
            }
            Body::Reply(reply) => {
                let reply = reply.try_clone(alloc)?;
                return self.receive(alloc, k, server, client, reply);
            }
        }
    }

    /// Does one event: a step, or a refusal that changes nothing; or memory runs out, and what is
    /// shown is as before.
    pub(crate) fn step(&mut self, alloc: Global, event: WorldEvent) -> Result<Seen, WorldFault>
        requires { IsReached self.old }
        ensures { Answers self.old event result self.new }
    {
        match event {
            WorldEvent::Out { client, tuple } => self.react(alloc, client, Call::Out(tuple)),
            WorldEvent::Sync { client, event } => self.react(alloc, client, Call::Sync(event)),
            WorldEvent::Abandon(client) => self.react(alloc, client, Call::Abandon),
            WorldEvent::Leave(client) => self.react(alloc, client, Call::Leave),
            WorldEvent::Deliver(k) => self.deliver(alloc, k),
            WorldEvent::Tick { client, now } => self.react(alloc, client, Call::Tick(now)),
            WorldEvent::Resend(client) => self.react(alloc, client, Call::Resend),
            WorldEvent::Reconnect { client, server } => {
                self.react(alloc, client, Call::Reconnected(server))
            }
            WorldEvent::Close { server, client } => self.close(alloc, server, client),
            WorldEvent::Snapshot(server) => self.snapshot(alloc, server),
            WorldEvent::Stop {
                server,
                packets,
                at,
                torn,
            } => self.stop(alloc, server, packets, at, torn),
            WorldEvent::StopSnapshot { server, at, torn } => {
                self.stop_snapshot(alloc, server, at, torn)
            }
        }
    }
}
