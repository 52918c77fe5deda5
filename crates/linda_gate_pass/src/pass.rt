//! The frames of one connection: which pass.

ghost use Rattle.std.specs.Prelude.{◌≡◌, ◌⊎◌, [], ◌∷◌, ◌++◌, true, false};
ghost use Rattle.std.specs.Prelude.{None, Some, Err, OnOk, IfErr, IfOk};
ghost use Rattle.linda_wire.specs.Frames.{message_frame};
ghost use Rattle.linda_gate_pass.specs.Passing.{AreOfOne, BeginsWith, ReadsAll, Writes};
ghost use Rattle.linda_gate_pass.specs.Passing.{begun, came, may_pass};
ghost use Rattle.linda_gate_pass.specs.declared.fault.PassFault.TheVariants as faults;

use crate::client_numbers::{ClientNumbers, is_hello};
use crate::fault::PassFault;
use crate::passed::Passed;
use linda_wire::{Feed, FrameFault, Message, encode_message};
use std::alloc::Global;
use std::marker::Model;

/// The frames of one connection. Contracts see all messages that passed.
#[derive(Drop)]
pub struct Pass {
    alloc: Global,
    numbers: ClientNumbers,
    feed: Feed,
    passed: Passed,
    // Why nothing more passes.
    fault: Option<PassFault>,
}

impl Model for Pass {
    ghost use Rattle.linda_gate_pass.specs.Passing.{AreOfOne, Passing};

    ghost Value = { Passing };

    ghost view = { λ p. record {
      numbers = p.numbers;
      passed = p.passed;
      unread = p.feed;
      fault = p.fault;
    } };

    ghost invariant = { λ p. AreOfOne p.numbers p.passed };
}

impl Pass {
    /// Nothing came yet of a client whose certificate allows these numbers.
    pub fn new(alloc: Global, numbers: ClientNumbers) -> Pass
        ensures { result ≡ begun numbers }
    {
        Pass {
            alloc,
            numbers,
            feed: Feed::new(alloc),
            passed: Passed::new(),
            fault: None,
        }
    }

    /// These bytes came. The frames that are whole now and may pass are appended to `out`, in
    /// order, and nothing else is.
    ///
    /// # Errors
    ///
    /// Why nothing more passes. It is returned from then on, and changes nothing more.
    pub fn received(&mut self, bytes: &[u8], out: &mut Vec<u8>) -> Result<(), PassFault>
        ensures passed { self.old.fault ≡ None → ReadsAll self.old.numbers self.old.passed
            self.new.passed (self.old.unread ++ bytes.now) self.new.unread out.old.items
            out.new.items result }
        ensures written { Writes self.old.passed self.new.passed out.old.items out.new.items }
        ensures front { self.old.fault ≡ None
            → BeginsWith (came self.old ++ bytes.now) self.new.passed }
        ensures ok { OnOk result (came self.new ≡ came self.old ++ bytes.now) }
        ensures numbers { self.new.numbers ≡ self.old.numbers }
        ensures before { IfOk result (λ _. (self.old.fault ≡ None) × (self.new.fault ≡ None)) }
        ensures fault { IfErr result (λ fault. self.new.fault ≡ Some fault) }
        ensures over { (fault : _) → self.old.fault ≡ Some fault → (result ≡ Err fault)
            × ((self.new ≡ self.old) × (out.new.items ≡ out.old.items)) }
    {
        if let Some(fault) = self.fault {
            return Err(fault);
        }
        let read = read_all(
            self.alloc,
            self.numbers,
            &mut self.feed,
            &mut self.passed,
            bytes,
            out,
        );
        if let Err(fault) = read {
            self.fault = Some(fault);
        }
        read
    }

    /// What passed is of one client that is allowed.
    pub fn is_of_one(&self)
        ensures { AreOfOne self.now.numbers self.now.passed }
    {
        let _ = &self.numbers;
    }
}

// Reads these bytes after those that are not read yet.
fn read_all(
    alloc: Global,
    numbers: ClientNumbers,
    feed: &mut Feed,
    passed: &mut Passed,
    bytes: &[u8],
    out: &mut Vec<u8>,
) -> Result<(), PassFault>
    requires { AreOfOne numbers passed.old }
    ensures one { AreOfOne numbers passed.new }
    ensures all { ReadsAll numbers passed.old passed.new (feed.old ++ bytes.now) feed.new
        out.old.items out.new.items result }
{
    if feed.feed(bytes).is_err() {
        return Err(PassFault::Memory);
    }
    read_whole(alloc, numbers, feed, passed, out)
}

// Reads the frames that are whole.
fn read_whole(
    alloc: Global,
    numbers: ClientNumbers,
    feed: &mut Feed,
    passed: &mut Passed,
    out: &mut Vec<u8>,
) -> Result<(), PassFault>
    requires { AreOfOne numbers passed.old }
    ensures one { AreOfOne numbers passed.new }
    ensures all { ReadsAll numbers passed.old passed.new feed.old feed.new out.old.items
        out.new.items result }
{
    loop {
        match feed.next(alloc) {
            Ok(Some(message)) => let_through(numbers, &message, passed, out)?,
            Ok(None) => return Ok(()),
            Err(FrameFault::Memory) => return Err(PassFault::Memory),
            Err(_) => return Err(PassFault::NoMessage),
        }
    }
}

// Passes a message on, if it may pass.
fn let_through(
    numbers: ClientNumbers,
    message: &Message,
    passed: &mut Passed,
    out: &mut Vec<u8>,
) -> Result<(), PassFault>
    ensures may { OnOk result (may_pass numbers passed.old message.now ≡ true) }
    ensures passed { OnOk result (passed.new ≡ passed.old ++ message.now ∷ []) }
    ensures written { OnOk result (out.new.items ≡ out.old.items ++ message_frame message.now) }
    ensures same { IfErr result (λ _. (passed.new ≡ passed.old)
        × (out.new.items ≡ out.old.items)) }
    ensures fault { IfErr result (λ fault. (fault ≡ faults.Memory)
        ⊎ ((fault ≡ faults.NotAllowed) × (may_pass numbers passed.old message.now ≡ false))) }
{
    let may_pass = if passed.has_some() {
        !is_hello(message)
    } else {
        numbers.may_begin(message)
    };
    if !may_pass {
        return Err(PassFault::NotAllowed);
    }
    if encode_message(out, message).is_err() {
        return Err(PassFault::Memory);
    }
    passed.push(message);
    Ok(())
}
