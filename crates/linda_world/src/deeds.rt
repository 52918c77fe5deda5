//! All deeds of a server, with each client's last number at hand.

ghost use Rattle.std.specs.Prelude.{◌≡◌, ◌++◌, [], IfOk, OnOk, OnErr, length, option_to_list};
ghost use Rattle.std.specs.FinMap as map;
ghost use Rattle.linda_store_step.specs.Deeds.{last_in};
ghost use Rattle.linda_world.specs.Noted.{AreNoted, noted_number};

use crate::post::append_both;
use linda_store_state::Deed;
use linda_world_laws::Packet;
use std::alloc::{AllocError, Global};
use std::collections::BTreeMap;
use std::marker::Model;

/// A number for each client that has one.
#[derive(Drop)]
struct Lasts {
    by_client: BTreeMap<u32, u64>,
}

impl Model for Lasts {
    ghost use Rattle.std.specs.Coded.{coded_ℕ};
    ghost use Rattle.std.specs.FinMap as map;
    ghost use Rattle.linda_world.specs.Noted.{Lasts as Seen};

    ghost Value = { Seen };

    ghost coded = { map.code coded_ℕ coded_ℕ };

    ghost view = { λ l. map.from_entries l.by_client.entries };
}

impl Lasts {
    // No client has a number yet.
    fn new(alloc: Global) -> Lasts
        ensures { result ≡ map.empty }
    {
        Lasts {
            by_client: BTreeMap::new(alloc),
        }
    }

    // The client's number, 0 if it has none.
    fn of(&self, client: u32) -> u64
        ensures { result ≡ noted_number (map.get self.now client) }
    {
        match self.by_client.get(&client) {
            Some(n) => *n,
            None => 0,
        }
    }

    // The number of the client is this one now.
    fn note(&mut self, client: u32, n: u64) -> Result<(), AllocError>
        ensures ok { OnOk result (self.new ≡ map.insert self.old client n) }
        ensures err { OnErr result (self.new ≡ self.old) }
    {
        self.by_client.insert(client, n)?;
        Ok(())
    }
}

// Notes the numbers of all deeds of which they are not noted yet, one after another.
fn note_all(all: &[Deed], noted: &mut usize, lasts: &mut Lasts) -> Result<(), AllocError>
    requires { AreNoted all.now noted.old lasts.old }
    ensures kept { AreNoted all.now noted.new lasts.new }
    ensures all { OnOk result (noted.new ≡ length all.now) }
{
    while *noted < all.len() {
        let deed = &all[*noted];
        lasts.note(deed.client(), deed.number())?;
        *noted += 1;
    }
    Ok(())
}

/// All deeds of a server, in order. The last number of each client is noted, so that each deed is
/// looked at once, however many messages come.
#[derive(Drop)]
pub(crate) struct Deeds {
    all: Vec<Deed>,
    // Of how many deeds, from the first one on, the numbers are noted.
    noted: usize,
    lasts: Lasts,
}

impl Model for Deeds {
    ghost use Rattle.std.specs.Prelude.{List};
    ghost use Rattle.std.specs.Coded.{coded_list};
    ghost use Rattle.linda_store_state.specs.declared.deed.Deed as seen;
    ghost use Rattle.linda_store_state.specs.DeedCode.{deed_code};
    ghost use Rattle.linda_world.specs.Noted.{AreNoted};

    ghost Value = { List seen.Deed };

    ghost coded = { coded_list deed_code };

    ghost view = { λ d. d.all.items };

    ghost invariant = { λ d. AreNoted d.all.items d.noted d.lasts };
}

impl Deeds {
    /// No deed yet.
    pub(crate) fn new(alloc: Global) -> Deeds
        ensures { result ≡ [] }
    {
        Deeds {
            all: Vec::new(alloc),
            noted: 0,
            lasts: Lasts::new(alloc),
        }
    }

    /// All of them.
    pub(crate) fn all(&self) -> &[Deed]
        ensures { result.now ≡ self.now }
    {
        &self.all
    }

    /// The number of the client's last deed, 0 if it did none.
    pub(crate) fn last_number(&mut self, client: u32) -> Result<u64, AllocError>
        ensures same { self.new ≡ self.old }
        ensures last { IfOk result (λ n. n ≡ last_in self.old client) }
    {
        note_all(&self.all, &mut self.noted, &mut self.lasts)?;
        Ok(self.lasts.of(client))
    }

    /// Appends what was done by a step, and what it sends to the packets: both, or neither if
    /// memory runs out.
    pub(crate) fn append_with(
        &mut self,
        deed: Option<Deed>,
        packets: &mut Vec<Packet>,
        more: Vec<Packet>,
    ) -> Result<(), AllocError>
        ensures ok { OnOk result (packets.new.items ≡ packets.old.items ++ more.items) }
        ensures one { OnOk result (self.new ≡ self.old ++ option_to_list deed) }
        ensures err { OnErr result (packets.new.items ≡ packets.old.items) }
        ensures none { OnErr result (self.new ≡ self.old) }
    {
        append_both(packets, more, &mut self.all, deed)
    }

    /// Appends these, which are taken out of their list; if memory runs out nothing changes.
    pub(crate) fn append(&mut self, added: &mut Vec<Deed>) -> Result<(), AllocError>
        ensures ok { OnOk result (self.new ≡ self.old ++ added.old.items) }
        ensures err { OnErr result (self.new ≡ self.old) }
    {
        self.all.append(added)?;
        Ok(())
    }
}
