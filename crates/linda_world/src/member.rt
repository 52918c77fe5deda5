//! The clients of a world.

ghost use Rattle.std.specs.Prelude.{◌≡◌, [], Some, None, OnOk, OnErr, option_copied, is_some};
ghost use Rattle.std.specs.Option.{option_map};
ghost use Rattle.std.specs.FinMap as map;
ghost use Rattle.linda_client.specs.Call.{call_of};
ghost use Rattle.linda_world.specs.Member.{ReactsOrNot, ReactsInOrNot};

use crate::fault::WorldFault;
use crate::post::{append_both, packets_by};
use crate::refusal::refused;
use crate::taken::tuple_taken_by;
use linda_client::{Call, Client, Reaction};
use linda_world_laws::{Packet, Seen};
use std::alloc::{AllocError, Global};
use std::collections::BTreeMap;
use std::marker::Model;

/// A client, and the server and the id of each tuple that it was given, in order.
#[derive(Drop)]
pub(crate) struct Member {
    client: Client,
    got: Vec<(u32, u64)>,
}

impl Model for Member {
    ghost use Rattle.linda_world_laws.specs.World as seen;
    ghost use Rattle.linda_world.specs.Code.{member_code};

    ghost Value = { seen.Member };

    ghost coded = { member_code };

    ghost view = { λ m. record { client = m.client; got = m.got.items } };
}

impl Member {
    // What it was given, in order.
    fn got(&self) -> &[(u32, u64)]
        ensures { result.now ≡ self.now.got }
    {
        &self.got
    }

    /// Makes a call of the client of this number. What it sends comes after the packets, and what
    /// it is given is noted.
    pub(crate) fn react(
        &mut self,
        alloc: Global,
        number: u32,
        call: Call,
        packets: &mut Vec<Packet>,
    ) -> Result<Seen, WorldFault>
        ensures { ReactsOrNot (call_of call)
            number self.old packets.old.items result self.new packets.new.items }
    {
        let reaction = match self.client.call(alloc, call) {
            Ok(reaction) => reaction,
            Err(fault) => return Err(refused(fault)),
        };
        let Reaction {
            packets: sends,
            outcome,
            fault,
        } = reaction;
        let more = packets_by(alloc, number, sends)?;
        append_both(packets, more, &mut self.got, tuple_taken_by(&outcome))?;
        Ok(Seen {
            client: Some(number),
            outcome,
            fault,
            full: false,
        })
    }
}

/// The clients of a world, by number.
#[derive(Drop)]
pub(crate) struct Members {
    by_number: BTreeMap<u32, Member>,
}

impl Model for Members {
    ghost use Rattle.std.specs.Coded.{coded_ℕ};
    ghost use Rattle.std.specs.FinMap as map;
    ghost use Rattle.linda_world_laws.specs.World as seen;
    ghost use Rattle.linda_world.specs.Code.{member_code};

    ghost Value = { seen.Members };

    ghost coded = { map.code coded_ℕ member_code };

    ghost view = { λ m. map.from_entries m.by_number.entries };
}

impl Members {
    /// No client yet.
    pub(crate) fn new(alloc: Global) -> Members
        ensures { result ≡ map.empty }
    {
        Members {
            by_number: BTreeMap::new(alloc),
        }
    }

    /// Whether there is a client of this number.
    pub(crate) fn has(&self, number: u32) -> bool
        ensures { result ≡ is_some (map.get self.now number) }
    {
        self.by_number.contains_key(&number)
    }

    /// Adds a client, which was given nothing, under its number.
    pub(crate) fn add(
        &mut self,
        alloc: Global,
        number: u32,
        client: Client,
    ) -> Result<(), AllocError>
        ensures ok { OnOk result (self.new
            ≡ map.insert self.old number (record { client = client; got = [] })) }
        ensures err { OnErr result (self.new ≡ self.old) }
    {
        let member = Member {
            client,
            got: Vec::new(alloc),
        };
        match self.by_number.insert(number, member) {
            Ok(_) => Ok(()),
            Err(_) => Err(AllocError),
        }
    }

    /// What the client of this number was given.
    pub(crate) fn got(&self, number: u32) -> Option<&[(u32, u64)]>
        ensures { option_copied result ≡ option_map (λ m. m.got) (map.get self.now number) }
    {
        match self.by_number.get(&number) {
            Some(member) => Some(member.got()),
            None => None,
        }
    }

    /// Makes a call of the client of this number, if there is one. The others stay as they are.
    pub(crate) fn react(
        &mut self,
        alloc: Global,
        number: u32,
        call: Call,
        packets: &mut Vec<Packet>,
    ) -> Result<Seen, WorldFault>
        ensures { ReactsInOrNot (call_of call)
            number self.old packets.old.items result self.new packets.new.items }
    {
        let Some(member) = self.by_number.get_mut(&number) else {
            return Err(WorldFault::NoClient);
        };
        member.react(alloc, number, call, packets)
    }
}
