//! The client of a call and its standing with each of its servers: what it does with lines, with
//! time and with what comes, over no connection.

ghost use Rattle.std.specs.Prelude.{◌≡◌, ◌≤◌, None, Some, Ok, Err, true, false, map};
ghost use Rattle.std.specs.Prelude.{IfOk, IfErr, OnErr};
ghost use Rattle.std.specs.List.{list_any};
ghost use Rattle.linda_client.specs.declared.limits.TheConstants.{MAX_SERVERS};
ghost use Rattle.linda_client.specs.Client.{has_left, servers};
ghost use Rattle.linda_client.specs.React as calls;
ghost use Rattle.linda_client.specs.React.{react, new_client};
ghost use Rattle.linda_client.specs.Reaction.{Does, shown};
ghost use Rattle.linda_call.specs.Numbers.{onward_of, homeward_of, answered_in};
ghost use Rattle.linda_call.specs.Standings as standing;
ghost use Rattle.linda_call.specs.Standings.{with_standing, answered, welcomed, is_foreign};
ghost use Rattle.linda_call.specs.Standings.{settled, all_unmet, meeting, sent_on};
ghost use Rattle.linda_call.specs.declared.calling.standing.Meeting.TheVariants as meetings;
ghost use Rattle.linda_call.specs.Party as spec;
ghost use Rattle.linda_call.specs.Party.{Hears, accepted_after, call_for, cancelled_at};
ghost use Rattle.linda_call.specs.Taking.{IsTaken, standings_after};
ghost use Rattle.linda_call.specs.declared.calling.fault.CallFault.TheVariants as faults;

use super::fault::CallFault;
use super::numbers::{homeward, number_of, onward};
use super::standing::{Meeting, ServerStanding, first_unmet, put, settle, standing_at, unmet};
use linda_client::{Client, ClientFault, Reaction};
use linda_net_proxy::ServerEvent;
use linda_shell_text::Request;
use linda_wire::{Message, Reply};
use std::alloc::Global;

/// A client, and its standing with each of its servers.
#[derive(Drop)]
pub(super) struct Party {
    client: Client,
    standings: Vec<ServerStanding>,
    // It goes on after the numbers that servers keep for it.
    goes_on: bool,
    // The offer that was accepted last: its server and its ticket.
    accepted: Option<(u32, u64)>,
}

impl Party {
    /// A client of this number that has done nothing yet, or that goes on after what servers keep
    /// for it.
    ///
    /// # Errors
    ///
    /// `Memory`.
    pub(super) fn new(
        alloc: Global,
        number: u32,
        servers: u32,
        goes_on: bool,
    ) -> Result<Party, CallFault>
        requires some { 1 ≤ servers }
        requires few { servers ≤ MAX_SERVERS }
        ensures client { IfOk result (λ p. p.client ≡ new_client number servers) }
        ensures standings { IfOk result (λ p. p.standings.items ≡ all_unmet servers) }
        ensures begun { IfOk result (λ p. (p.goes_on ≡ goes_on) × (p.accepted ≡ None)) }
        ensures fault { IfErr result (λ f. f ≡ faults.Memory) }
    {
        let Ok(client) = Client::new(alloc, number, servers) else {
            return Err(CallFault::Memory);
        };
        let Ok(standings) = unmet(alloc, servers as usize) else {
            return Err(CallFault::Memory);
        };
        Ok(Party {
            client,
            standings,
            goes_on,
            accepted: None,
        })
    }

    /// The client's number.
    pub(super) fn number(&self) -> u32
        ensures { result ≡ self.now.client.number }
    {
        self.client.number()
    }

    /// How many servers there are.
    pub(super) fn servers(&self) -> u32
        ensures { result ≡ servers self.now.client }
    {
        self.client.servers()
    }

    /// Whether the client has left.
    pub(super) fn has_left(&self) -> bool
        ensures { result ≡ has_left self.now.client.task }
    {
        self.client.has_left()
    }

    /// The first server that has not welcomed the client yet.
    pub(super) fn first_unmet(&self) -> Option<u32>
        ensures { result ≡ standing.first_unmet 0 self.now.standings.items }
    {
        first_unmet(&self.standings)
    }

    /// The last number that a server is known to keep a reply for.
    pub(super) fn kept(&self, server: u32) -> u64
        ensures { result ≡ (standing.standing_at self.now.standings.items server).kept }
    {
        standing_at(&self.standings, server).kept
    }

    /// Does what is asked for.
    ///
    /// # Errors
    ///
    /// Why the client refuses it; then nothing has changed.
    pub(super) fn ask(&mut self, alloc: Global, request: Request) -> Result<Reaction, ClientFault>
        ensures does { Does self.old.client result self.new.client
            (react self.old.client (call_for request)) }
        ensures standings { self.new.standings.items ≡ self.old.standings.items }
        ensures rest { (self.new.goes_on ≡ self.old.goes_on)
            × (self.new.accepted ≡ self.old.accepted) }
    {
        match request {
            Request::Out(tuple) => self.client.out(alloc, tuple),
            Request::Sync(event) => self.client.sync(alloc, event),
            Request::Leave => self.client.leave(alloc),
        }
    }

    /// Is given the time.
    ///
    /// # Errors
    ///
    /// `Memory`; then nothing has changed.
    pub(super) fn tick(&mut self, alloc: Global, now: u64) -> Result<Reaction, CallFault>
        ensures does { IfOk result (λ told.
            react self.old.client (calls.Tick now) ≡ Ok (shown told self.new.client)) }
        ensures fault { IfErr result (λ f. f ≡ faults.Memory) }
        ensures client { OnErr result (self.new.client ≡ self.old.client) }
        ensures standings { self.new.standings.items ≡ self.old.standings.items }
        ensures rest { (self.new.goes_on ≡ self.old.goes_on)
            × (self.new.accepted ≡ self.old.accepted) }
    {
        match self.client.tick(alloc, now) {
            Ok(reaction) => Ok(reaction),
            Err(_) => Err(CallFault::Memory),
        }
    }

    /// Takes what came from a server: a reply, or a welcome, after which what is pending there is
    /// sent again.
    ///
    /// # Errors
    ///
    /// `Refused`, `NotAServer` and `NoConnection` of a server that is given up; `Restored`;
    /// `InUse`; `Memory`. The client is as before.
    pub(super) fn take(
        &mut self,
        alloc: Global,
        server: u32,
        arrival: ServerEvent,
    ) -> Result<Reaction, CallFault>
        ensures taken { IsTaken self.old server arrival result self.new }
        ensures client { OnErr result (self.new.client ≡ self.old.client) }
        ensures standings { IfOk result (λ told. self.new.standings.items
            ≡ standings_after self.old server arrival told) }
        ensures rest { (self.new.goes_on ≡ self.old.goes_on)
            × (self.new.accepted ≡ self.old.accepted) }
    {
        match arrival {
            ServerEvent::Came(reply) => self.hear(alloc, server, reply),
            ServerEvent::Greeted(last) => self.welcome(alloc, server, last),
            ServerEvent::Refused(code, detail) => Err(CallFault::Refused(server, code, detail)),
            ServerEvent::NotAServer => Err(CallFault::NotAServer(server)),
            ServerEvent::NoConnection => Err(CallFault::NoConnection(server)),
            ServerEvent::Memory => Err(CallFault::Memory),
        }
    }

    // Hears a reply of a server, which keeps it if it answers a numbered message. It is `InUse` if
    // the reply cannot answer what was sent under its number. After an error the client is as
    // before.
    fn hear(&mut self, alloc: Global, server: u32, reply: Reply) -> Result<Reaction, CallFault>
        ensures heard { IfOk result (λ told. Hears self.old.client server
            (homeward_of (standing.standing_at self.old.standings.items server).base reply)
            told self.new.client) }
        ensures standings { self.new.standings.items ≡ with_standing self.old.standings.items server
            (answered (standing.standing_at self.old.standings.items server) (answered_in reply)) }
        ensures foreign { is_foreign (standing.standing_at self.old.standings.items server) reply
            ≡ true
            → result ≡ Err (faults.InUse server) }
        ensures fault { is_foreign (standing.standing_at self.old.standings.items server) reply
            ≡ false
            → IfErr result (λ f. f ≡ faults.Memory) }
        ensures client { OnErr result (self.new.client ≡ self.old.client) }
        ensures rest { (self.new.goes_on ≡ self.old.goes_on)
            × (self.new.accepted ≡ self.old.accepted) }
    {
        let mut standing = standing_at(&self.standings, server);
        let base = standing.base;
        let is_foreign = standing.is_foreign(&reply);
        standing.answers(number_of(&reply));
        put(&mut self.standings, server, standing);
        if is_foreign {
            return Err(CallFault::InUse(server));
        }
        let mut reply = reply;
        if !homeward(&mut reply, base) {
            return Ok(quiet(alloc));
        }
        match self.client.receive(alloc, server, &reply) {
            Ok(reaction) => Ok(reaction),
            Err(_) => Err(CallFault::Memory),
        }
    }

    // A server welcomes the client with this number: what is pending there is sent again. It is
    // `Restored` if it keeps less than it answered, and `InUse` if it keeps more than it was sent.
    fn welcome(&mut self, alloc: Global, server: u32, last: u64) -> Result<Reaction, CallFault>
        ensures again { IfOk result (λ told. react self.old.client (calls.Reconnected server)
            ≡ Ok (shown told self.old.client)) }
        ensures client { self.new.client ≡ self.old.client }
        ensures known { meeting last (standing.standing_at self.old.standings.items server)
            ≡ meetings.Known
            → IfErr result (λ f. f ≡ faults.Memory) }
        ensures restored { meeting last (standing.standing_at self.old.standings.items server)
            ≡ meetings.Restored
            → result ≡ Err (faults.Restored server) }
        ensures used { meeting last (standing.standing_at self.old.standings.items server)
            ≡ meetings.InUse
            → result ≡ Err (faults.InUse server) }
        ensures standings { IfOk result (λ told. self.new.standings.items
            ≡ with_standing self.old.standings.items server
            (spec.asked (list_any (λ p. spec.is_ask p.1) told.packets.items)
            (welcomed self.old.goes_on last
            (standing.standing_at self.old.standings.items server)))) }
        ensures rest { (self.new.goes_on ≡ self.old.goes_on)
            × (self.new.accepted ≡ self.old.accepted) }
    {
        let mut standing = standing_at(&self.standings, server);
        match standing.welcomes(last, self.goes_on) {
            Meeting::Known => {}
            Meeting::Restored => return Err(CallFault::Restored(server)),
            Meeting::InUse => return Err(CallFault::InUse(server)),
        }
        let Ok(reaction) = self.client.reconnected(alloc, server) else {
            return Err(CallFault::Memory);
        };
        if has_ask(&reaction) {
            standing.asked_again = true;
        }
        put(&mut self.standings, server, standing);
        Ok(reaction)
    }

    /// Makes a message to a server what that is to see, and remembers its number, and the offer
    /// that it accepts.
    pub(super) fn send(&mut self, server: u32, message: &mut Message)
        ensures message { message.new ≡ onward_of
            (standing.standing_at self.old.standings.items server).base message.old }
        ensures accepted { self.new.accepted ≡ accepted_after self.old.accepted server message.old }
        ensures client { self.new.client ≡ self.old.client }
        ensures standings { self.new.standings.items ≡ with_standing self.old.standings.items server
            (sent_on message.new (standing.standing_at self.old.standings.items server)) }
        ensures rest { self.new.goes_on ≡ self.old.goes_on }
    {
        if let Message::Accept { ticket, .. } = message {
            self.accepted = Some((server, *ticket));
        }
        let mut standing = standing_at(&self.standings, server);
        onward(message, standing.base);
        standing.sends(message);
        put(&mut self.standings, server, standing);
    }

    /// A tuple is put at a server beside the client, which counts on after it. The number of the
    /// message.
    pub(super) fn puts(&mut self, server: u32) -> u64
        ensures number { result ≡ standing.next_number
            (standing.standing_at self.old.standings.items server) }
        ensures standings { self.new.standings.items ≡ with_standing self.old.standings.items server
            (standing.put_beside (standing.standing_at self.old.standings.items server)) }
        ensures client { self.new.client ≡ self.old.client }
        ensures rest { (self.new.goes_on ≡ self.old.goes_on)
            × (self.new.accepted ≡ self.old.accepted) }
    {
        let mut standing = standing_at(&self.standings, server);
        let number = standing.puts();
        put(&mut self.standings, server, standing);
        number
    }

    /// What was pending has ended. If its Asks were sent again to the server whose offer was
    /// accepted, that one's ticket may be open there once more, and the client cancels only the
    /// others: so it is to be cancelled, and is answered.
    pub(super) fn settle(&mut self) -> Option<(u32, u64)>
        ensures cancelled { result ≡ cancelled_at self.old.standings.items self.old.accepted }
        ensures accepted { self.new.accepted ≡ None }
        ensures standings { self.new.standings.items ≡ map settled self.old.standings.items }
        ensures client { self.new.client ≡ self.old.client }
        ensures rest { self.new.goes_on ≡ self.old.goes_on }
    {
        let accepted = self.accepted;
        self.accepted = None;
        let is_open = match accepted {
            Some((server, _)) => standing_at(&self.standings, server).asked_again,
            None => false,
        };
        settle(&mut self.standings);
        if is_open { accepted } else { None }
    }
}

// Nothing is sent and nothing is reported.
fn quiet(alloc: Global) -> Reaction
    ensures { spec.IsQuiet result }
{
    Reaction {
        packets: Vec::new(alloc),
        outcome: None,
        fault: None,
    }
}

// Whether something is asked for.
fn has_ask(reaction: &Reaction) -> bool
    ensures { result ≡ list_any (λ p. spec.is_ask p.1) reaction.now.packets.items }
{
    reaction.packets.iter().any(|packet| is_ask(&packet.1))
}

// Whether a message is an Ask.
fn is_ask(message: &Message) -> bool
    ensures { result ≡ spec.is_ask message.now }
{
    matches!(message, Message::Ask { .. })
}
