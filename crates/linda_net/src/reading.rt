//! Reading side of a connection: the messages that come are submitted.

ghost use Rattle.std.specs.Prelude.{◌≡◌, ◌<◌, ◌≤◌, true, None, All, length, take, IfOk, IfErr};
ghost use Rattle.linda_shared.specs.Greeting.{greeting_of};
ghost use Rattle.linda_shared_queue.specs.Seat.{IsRequest};
ghost use Rattle.linda_store_step.specs.declared.size.TheConstants.{MAX_BATCH};
ghost use Rattle.linda_net_pump.specs.Pumping.{IsOfIntake};
ghost use Rattle.linda_net.specs.Connection as spec;
ghost use Rattle.linda_net.specs.Connection.{seat_of};

use crate::connection::ThreadConnection;
use crate::writing::write_replies;
use linda_disk::Disk;
use linda_net_pump::{Intake, pump};
use linda_shared::{Greeted, Seat, Shared, SharedFault};
use linda_store::{ConverseFault, End};
use linda_wire::{Message, Refusal, Reply};
use std::alloc::Global;
use std::sync::Wait;
use std::sync::ledger::Ledger;

/// An intake that submits what it takes.
#[derive(Drop)]
struct Reader<'a, D: Disk, L: Ledger, R: Wait> {
    rt: &'a R,
    alloc: Global,
    shared: &'a Shared<D, L>,
    connection: &'a ThreadConnection<L>,
    // Once the client is welcome.
    seat: Option<Seat<L>>,
}

/// Nothing is taken while replies are written: so what is due to a client that does not read is
/// bounded.
impl<D: Disk, L: Ledger, R: Wait> Intake for Reader<'_, D, L, R> {
    ghost use Rattle.std.specs.Prelude.{None};

    ghost taken = { λ _. None };

    fn take(&mut self, messages: Vec<Message>) -> Result<(), ConverseFault> {
        drop(self.connection.turn().lock(self.rt));
        self.take_each(&messages)
    }
}

impl<D: Disk, L: Ledger, R: Wait> Reader<'_, D, L, R> {
    // Takes all of these messages, in order.
    fn take_each(&mut self, messages: &[Message]) -> Result<(), ConverseFault>
        requires few { length messages.now ≤ MAX_BATCH }
        ensures err { IfErr result IsOfIntake }
    {
        if messages.is_empty() {
            return Ok(());
        }
        match self.take_some(messages) {
            Ok(count) => self.take_each(&messages[count..]),
            Err(fault) => Err(fault),
        }
    }

    // Takes some first ones of these messages: a greeting by itself, and all others up to it
    // together. Returns how many.
    fn take_some(&mut self, messages: &[Message]) -> Result<usize, ConverseFault>
        requires some { 0 < length messages.now }
        requires few { length messages.now ≤ MAX_BATCH }
        ensures ok { IfOk result (λ n. (0 < n) × (n ≤ length messages.now)) }
        ensures err { IfErr result IsOfIntake }
    {
        let Some(seat) = &mut self.seat else {
            return match self.greet(&messages[0]) {
                Ok(()) => Ok(1),
                Err(fault) => Err(fault),
            };
        };
        let count = requests_in_front(messages);
        if count == 0 {
            return match self.shared.submit(self.rt, seat, &messages[0]) {
                Ok(_) => Ok(1),
                Err(fault) => Err(fault_of(fault)),
            };
        }
        match self.shared.submit_all(self.rt, seat, &messages[..count]) {
            Ok(_) => Ok(count),
            Err(fault) => Err(fault_of(fault)),
        }
    }

    // Greets the client, and writes how it was greeted. One that is welcome has its seat from then
    // on, and the writing thread its outlet.
    fn greet(&mut self, message: &Message) -> Result<(), ConverseFault>
        requires { self.old.seat ≡ None }
        ensures err { IfErr result IsOfIntake }
    {
        match self.shared.greet(self.rt, message) {
            Ok(greeted) => self.settle(greeted),
            Err(fault) => Err(fault_of(fault)),
        }
    }

    // It was greeted so.
    fn settle(&mut self, greeted: Greeted<L>) -> Result<(), ConverseFault>
        requires { self.old.seat ≡ None }
        ensures seat { self.new.seat ≡ seat_of (greeting_of greeted) }
        ensures err { IfErr result IsOfIntake }
    {
        let said = self.say(&reply_of(&greeted));
        match greeted {
            Greeted::Welcome(seat, outlet, _) => {
                self.seat = Some(seat);
                self.connection.put_outlet(self.rt, outlet);
                said
            }
            Greeted::Refused(_, _) => said,
        }
    }

    // Writes this reply.
    fn say(&self, reply: &Reply) -> Result<(), ConverseFault>
        ensures { IfErr result IsOfIntake }
    {
        let mut stream = self.connection.stream();
        write_replies(self.alloc, &mut stream, std::slice::from_ref(reply))
    }
}

// The reply that says how a client was greeted.
fn reply_of<L: Ledger>(greeted: &Greeted<L>) -> Reply
    ensures { result ≡ spec.reply_of (greeting_of greeted.now) }
{
    match greeted {
        Greeted::Welcome(_, _, last) => Reply::Welcome { last: *last },
        Greeted::Refused(code, detail) => Reply::Refused {
            code: *code,
            detail: *detail,
        },
    }
}

// How many of the first messages are no Hello.
fn requests_in_front(messages: &[Message]) -> usize
    ensures bound { result ≤ length messages.now }
    ensures requests { All IsRequest (take result messages.now) }
{
    match messages {
        [first, rest @ ..] if is_request(first) => 1 + requests_in_front(rest),
        _ => 0,
    }
}

fn is_request(message: &Message) -> bool
    ensures { result ≡ true → IsRequest message.now }
{
    match message {
        Message::Hello { .. } => false,
        Message::Out { .. } => true,
        Message::Ask { .. } => true,
        Message::Accept { .. } => true,
        Message::Cancel { .. } => true,
        Message::Leave { .. } => true,
    }
}

// What a connection ends with if the server has this fault.
fn fault_of(fault: SharedFault) -> ConverseFault
    ensures is { result ≡ spec.fault_of fault }
    ensures own { IsOfIntake result }
{
    match fault {
        SharedFault::Memory => ConverseFault::Memory,
        SharedFault::Down => ConverseFault::Down,
        SharedFault::Full => ConverseFault::Down,
        SharedFault::SeatMissing => ConverseFault::Down,
        SharedFault::Receipt { .. } => ConverseFault::Down,
        SharedFault::Stuck(_) => ConverseFault::Down,
        SharedFault::NoThread => ConverseFault::Down,
    }
}

/// How reading a connection ended.
#[derive(Drop)]
pub(crate) struct Ended<L: Ledger> {
    seat: Option<Seat<L>>,
    word: Option<Refusal>,
}

/// Reads a connection until nothing more comes, and submits what came. Then no more comes out of
/// its client's outlet than is there.
pub(crate) fn read_all<D: Disk, L: Ledger, R: Wait>(
    rt: &R,
    alloc: Global,
    shared: &Shared<D, L>,
    connection: &ThreadConnection<L>,
) -> Ended<L> {
    let mut reader = Reader {
        rt,
        alloc,
        shared,
        connection,
        seat: None,
    };
    let mut stream = connection.stream();
    let word = last_word(pump(alloc, &mut stream, &mut reader));
    let Reader { mut seat, .. } = reader;
    if let Some(seat) = &mut seat {
        shared.hang_up(rt, seat);
    }
    connection.end_greeting(rt);
    Ended { seat, word }
}

impl<L: Ledger> Ended<L> {
    /// Writes the last word, if there is one, after all replies were written. The session of a
    /// client that was greeted ends, and then the connection does.
    pub(crate) fn leave<D: Disk, R: Wait>(
        self,
        rt: &R,
        alloc: Global,
        shared: &Shared<D, L>,
        connection: &ThreadConnection<L>,
    ) {
        let Ended { seat, word } = self;
        if let Some(word) = word {
            let mut stream = connection.stream();
            let _ = write_replies(alloc, &mut stream, std::slice::from_ref(&word.reply())).is_err();
        }
        if let (Some(seat), Some(outlet)) = (seat, connection.take_outlet(rt)) {
            let _ = shared.leave(rt, seat, outlet).is_err();
        }
        connection.shut();
    }
}

// The last word to a client whose stream ended so.
fn last_word(end: Result<End, ConverseFault>) -> Option<Refusal>
    ensures { result ≡ spec.last_word end }
{
    match end {
        Ok(End::Malformed(offset)) => Some(Refusal::Malformed(offset)),
        Ok(End::Ended { .. }) => None,
        Err(ConverseFault::Down) => Some(Refusal::Down),
        Err(_) => None,
    }
}
