//! A server of a world: its node, and all that it has done.

ghost use Rattle.std.specs.Prelude.{◌≡◌, [], ◌∷◌, IfOk, None};
ghost use Rattle.linda_wire.specs.declared.refusal.Refusal.TheVariants as refusals;
ghost use Rattle.linda_wire.specs.Refusal.{refused};
ghost use Rattle.linda_store.specs.Sound.{IsSound};
ghost use Rattle.linda_store.specs.Node.{IsBatch, in_hand};
ghost use Rattle.linda_world_laws.specs.Steps.{Takes, HangsUp, Saves, Halts};
ghost use Rattle.linda_world.specs.Answer.{ServesOrNot};

use crate::deeds::Deeds;
use crate::post::packets_from;
use linda_disk::Torn;
use linda_store::{Deed, Node, NodeFault, Work};
use linda_store_step::reported_deed;
use linda_wire::{Message, Refusal, Reply};
use linda_world_laws::{Packet, Seen, deeds_are_learned};
use std::alloc::{AllocError, Global};
use std::marker::Model;

/// What a server's call returns: what is seen of it, or that the server of this number is down.
pub(crate) type Told = Result<Seen, u32>;

/// A node, and all deeds that it ever did.
#[derive(Drop)]
pub(crate) struct Server<N: Node> {
    node: N,
    deeds: Deeds,
}

impl<N: Node> Model for Server<N> {
    ghost use Rattle.linda_world_laws.specs.World as seen;
    ghost use Rattle.linda_world.specs.Code.{server_code};

    ghost Value = { seen.Server };

    ghost coded = { server_code };

    ghost view = { λ s. record { deeds = s.deeds; node = N.shown s.node } };
}

/// A server did what it was asked, or had no room.
fn served(full: bool) -> Seen
    ensures { result ≡ record { client = None; outcome = None; fault = None; full = full } }
{
    Seen {
        client: None,
        outcome: None,
        fault: None,
        full,
    }
}

/// What a server without room sends to the client whose message it is.
fn refuse_full(alloc: Global, client: u32) -> Result<Vec<(u32, Reply)>, AllocError>
    ensures { IfOk result (λ v. v.items ≡ (client, refused refusals.Full) ∷ []) }
{
    let mut sends = Vec::with_capacity(alloc, 1)?;
    sends.push((client, Refusal::Full.reply()))?;
    Ok(sends)
}

impl<N: Node> Server<N> {
    /// A server that has done nothing.
    pub(crate) fn new(alloc: Global, node: N) -> Server<N>
        ensures { result ≡ record { deeds = []; node = N.shown node } }
    {
        Server {
            node,
            deeds: Deeds::new(alloc),
        }
    }

    /// All deeds that it ever did, in order.
    pub(crate) fn deeds(&self) -> &[Deed]
        ensures { result.now ≡ self.now.deeds }
    {
        self.deeds.all()
    }

    /// Its node.
    pub(crate) fn node(&self) -> &N
        ensures { N.shown result.now ≡ self.now.node }
    {
        &self.node
    }

    /// Takes a message of a client.
    pub(crate) fn take(
        &mut self,
        alloc: Global,
        server: u32,
        client: u32,
        message: Message,
        packets: &mut Vec<Packet>,
    ) -> Result<Told, AllocError>
        requires { IsSound self.old.deeds self.old.node }
        ensures { ServesOrNot (Takes client message) server self.old packets.old.items result
            self.new packets.new.items }
    {
        deeds_are_learned();
        let last = self.deeds.last_number(client)?;
        match self.node.handle(alloc, client, &message) {
            Ok(sends) => {
                let deed = reported_deed(client, message, last, &sends);
                let more = packets_from(alloc, server, sends)?;
                self.deeds.append_with(deed, packets, more)?;
                return Ok(Ok(served(false)));
            }
            Err(NodeFault::Full) => {
                let mut more = packets_from(alloc, server, refuse_full(alloc, client)?)?;
                packets.append(&mut more)?;
                return Ok(Ok(served(true)));
            }
            Err(NodeFault::Down) => return Ok(Err(server)),
        }
    }

    /// Closes a client.
    pub(crate) fn close(
        &mut self,
        alloc: Global,
        server: u32,
        client: u32,
        packets: &mut Vec<Packet>,
    ) -> Result<Told, AllocError>
        ensures { ServesOrNot (HangsUp client)
            server self.old packets.old.items result self.new packets.new.items }
    {
        match self.node.close(alloc, client) {
            Ok(sends) => {
                let mut more = packets_from(alloc, server, sends)?;
                packets.append(&mut more)?;
                return Ok(Ok(served(false)));
            }
            Err(NodeFault::Full) => return Ok(Ok(served(true))),
            Err(NodeFault::Down) => return Ok(Err(server)),
        }
    }

    /// Writes a snapshot. Nothing is sent.
    pub(crate) fn snapshot(&mut self, alloc: Global, server: u32) -> Result<Told, AllocError>
        ensures { ServesOrNot Saves server self.old [] result self.new [] }
    {
        match self.node.snapshot(alloc) {
            Ok(()) => return Ok(Ok(served(false))),
            Err(NodeFault::Full) => return Ok(Ok(served(true))),
            Err(NodeFault::Down) => return Ok(Err(server)),
        }
    }

    /// Is stopped in this work, and opened again. Nothing is sent.
    pub(crate) fn stop(
        &mut self,
        alloc: Global,
        server: u32,
        work: Work,
        at: u64,
        torn: Torn,
    ) -> Result<Told, AllocError>
        requires { IsBatch work }
        ensures { ServesOrNot (Halts (in_hand work)) server self.old [] result self.new [] }
    {
        match self.node.stop(alloc, work, at, torn) {
            Ok(mut added) => {
                self.deeds.append(&mut added)?;
                return Ok(Ok(served(false)));
            }
            Err(NodeFault::Full) => return Ok(Ok(served(true))),
            Err(NodeFault::Down) => return Ok(Err(server)),
        }
    }
}
