//! The bases of an event that a synchronization acts on: what is asked of the servers, and the
//! alarms.

ghost use Rattle.std.specs.Prelude.{◌≡◌, ◌++◌, nat_le, true, option_to_list, IfOk, OnOk, find, map};
ghost use Rattle.linda_tuple.specs.Matching.{Matches};
ghost use Rattle.linda_wire.specs.declared.message.Message.TheVariants as messages;
ghost use Rattle.linda_event.specs.Bases.{kind_of};
ghost use Rattle.linda_event.specs.Trees.{tree_of};
ghost use Rattle.linda_client.specs.Ask as spec;
ghost use Rattle.linda_client.specs.Ask.{alarm_of, ask_of};
ghost use Rattle.linda_client.specs.Pending.{is_fit};

use linda_event::{Base, Event, bases};
use linda_tuple::{Template, Tuple, matches};
use linda_wire::Message;
use std::alloc::{AllocError, Global};

/// A base that is asked of the servers: an input, which takes a tuple away, or a read, which copies
/// one.
#[derive(Drop)]
pub(crate) struct Ask {
    /// The number of the base.
    pub(crate) base: usize,
    /// Whether the base is an input.
    pub(crate) remove: bool,
    pub(crate) template: Template,
}

/// A base that is ready once the clock is there.
#[derive(Clone, Copy)]
pub(crate) struct Alarm {
    /// The number of the base.
    pub(crate) base: usize,
    pub(crate) time: u64,
}

impl Ask {
    /// What is asked under this ticket, as a message.
    pub(crate) fn message(&self, alloc: Global, ticket: u64) -> Result<Message, AllocError>
        ensures { IfOk result (λ m. m ≡ messages.Ask ticket self.now.remove self.now.template) }
    {
        Ok(Message::Ask {
            ticket,
            remove: self.remove,
            template: self.template.try_clone(alloc)?,
        })
    }

    /// Whether an offer (`remove`) or a copy of this tuple fits: the base is an input or a read,
    /// and its template matches.
    pub(crate) fn fits(&self, remove: bool, tuple: &Tuple) -> bool
        ensures test { result ≡ is_fit self.now remove tuple.now }
        ensures matches { result ≡ true → Matches self.now.template tuple.now }
    {
        self.remove == remove && matches(&self.template, tuple)
    }
}

/// What an event asks of the servers, and its alarms, each in tree order.
pub(crate) fn asks_and_alarms(
    alloc: Global,
    event: &Event,
) -> Result<(Vec<Ask>, Vec<Alarm>), AllocError>
    ensures asks { IfOk result (λ p. p.0.items ≡ spec.asks (tree_of event.now)) }
    ensures alarms { IfOk result (λ p. p.1.items ≡ spec.alarms (tree_of event.now)) }
{
    let bases = bases(alloc, event)?;
    Ok((asks_among(alloc, &bases)?, alarms_among(alloc, &bases)?))
}

// The inputs and reads among the bases of an event, in order.
fn asks_among(alloc: Global, bases: &[Base]) -> Result<Vec<Ask>, AllocError>
    ensures { IfOk result (λ v. v.items ≡ spec.asks_among (map kind_of bases.now)) }
{
    let mut asks = Vec::new(alloc);
    for (number, base) in bases.iter().enumerate() {
        push_ask(alloc, number, *base, &mut asks)?;
    }
    Ok(asks)
}

fn push_ask(alloc: Global, number: usize, base: Base, asks: &mut Vec<Ask>) -> Result<(), AllocError>
    ensures { OnOk result (asks.new.items
        ≡ asks.old.items ++ option_to_list (ask_of number (kind_of base.entry))) }
{
    let (remove, template) = match base {
        Base::Input(template) => (true, template),
        Base::Read(template) => (false, template),
        _ => return Ok(()),
    };
    asks.push(Ask {
        base: number,
        remove,
        template: template.try_clone(alloc)?,
    })?;
    Ok(())
}

// The alarms among the bases of an event, in order.
fn alarms_among(alloc: Global, bases: &[Base]) -> Result<Vec<Alarm>, AllocError>
    ensures { IfOk result (λ v. v.items ≡ spec.alarms_among (map kind_of bases.now)) }
{
    let mut alarms = Vec::new(alloc);
    for (number, base) in bases.iter().enumerate() {
        push_alarm(number, *base, &mut alarms)?;
    }
    Ok(alarms)
}

fn push_alarm(number: usize, base: Base, alarms: &mut Vec<Alarm>) -> Result<(), AllocError>
    ensures { OnOk result (alarms.new.items
        ≡ alarms.old.items ++ option_to_list (alarm_of number (kind_of base.entry))) }
{
    if let Base::Alarm(time) = base {
        alarms.push(Alarm { base: number, time })?;
    }
    Ok(())
}

/// The first alarm that is ready at this clock.
pub(crate) fn first_due(alarms: &[Alarm], clock: u64) -> Option<Alarm>
    ensures { result ≡ find (λ a. nat_le a.time clock) alarms.now }
{
    for alarm in alarms {
        if alarm.time <= clock {
            return Some(*alarm);
        }
    }
    None
}
