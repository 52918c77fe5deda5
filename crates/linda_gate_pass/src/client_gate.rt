//! One connection of a client, from its head on.

ghost use Rattle.std.specs.Prelude.{◌≡◌, ◌++◌, true, None, Err, OnOk, IfSome};
ghost use Rattle.linda_gate_pass.specs.Head.{IsHead};
ghost use Rattle.linda_gate_pass.specs.Gating as spec;
ghost use Rattle.linda_gate_pass.specs.Gating.{IsOf, IsOfOne, Waits, begun, passed_in};
ghost use Rattle.linda_gate_pass.specs.Passing.{Writes};

use crate::client_numbers::ClientNumbers;
use crate::fault::PassFault;
use crate::head::{ProxyHead, read_head};
use crate::pass::Pass;
use std::alloc::Global;
use std::marker::Model;

/// One connection of a client, from its head on. Contracts see all messages that passed.
#[derive(Drop)]
pub struct ClientGate {
    alloc: Global,
    // What came until the head was whole, and how long that is.
    head: Vec<u8>,
    len: usize,
    pass: Option<Pass>,
    is_refused: bool,
}

impl Model for ClientGate {
    ghost use Rattle.std.specs.Prelude.{IfSome};
    ghost use Rattle.linda_gate_pass.specs.Head.{IsHead};
    ghost use Rattle.linda_gate_pass.specs.Gating.{Gating};

    ghost Value = { Gating };

    ghost view = { λ g. record {
      head = g.head.items;
      len = g.len;
      pass = g.pass;
      is_refused = g.is_refused;
    } };

    ghost invariant = { λ g. IfSome g.pass (λ p. IsHead g.head.items p.numbers g.len) };
}

impl ClientGate {
    /// Nothing came yet.
    pub fn new(alloc: Global) -> ClientGate
        ensures { result ≡ begun }
    {
        ClientGate {
            alloc,
            head: Vec::new(alloc),
            len: 0,
            pass: None,
            is_refused: false,
        }
    }

    /// These bytes came. The frames that are whole now and may pass are appended to `out`, in
    /// order, and nothing else is.
    ///
    /// # Errors
    ///
    /// Why nothing more passes, now and from then on.
    pub fn received(&mut self, bytes: &[u8], out: &mut Vec<u8>) -> Result<(), PassFault>
        ensures written { Writes (passed_in self.old.pass) (passed_in self.new.pass)
            out.old.items out.new.items }
        ensures ok { OnOk result (spec.came self.new ≡ spec.came self.old ++ bytes.now) }
        ensures waits { OnOk result (Waits self.new) }
        ensures front { IfSome self.old.pass (λ p. p.fault ≡ None)
            → IsOf (spec.came self.old ++ bytes.now) self.new }
        ensures refused { self.old.pass ≡ None → self.old.is_refused ≡ true
            → (result ≡ Err PassFault.NoHead) × (out.new.items ≡ out.old.items) }
    {
        if let Some(pass) = &mut self.pass {
            return pass.received(bytes, out);
        }
        if self.is_refused {
            return Err(PassFault::NoHead);
        }
        if self.head.extend_from_slice(bytes).is_err() {
            self.is_refused = true;
            return Err(PassFault::Memory);
        }
        match read_head(&self.head) {
            ProxyHead::Short => Ok(()),
            ProxyHead::Allows(numbers, len) => self.start_passing(numbers, len, out),
            ProxyHead::Refused => {
                self.is_refused = true;
                Err(PassFault::NoHead)
            }
        }
    }

    // The head is whole: what came after it is read.
    fn start_passing(
        &mut self,
        numbers: ClientNumbers,
        len: usize,
        out: &mut Vec<u8>,
    ) -> Result<(), PassFault>
        requires head { IsHead self.old.head numbers len }
        requires first { self.old.pass ≡ None }
        ensures written { Writes (passed_in self.old.pass) (passed_in self.new.pass)
            out.old.items out.new.items }
        ensures ok { OnOk result (spec.came self.new ≡ spec.came self.old) }
        ensures waits { OnOk result (Waits self.new) }
        ensures front { IsOf self.old.head self.new }
    {
        let mut pass = Pass::new(self.alloc, numbers);
        let read = pass.received(&self.head[len..], out);
        self.len = len;
        self.pass = Some(pass);
        read
    }

    /// What passed is of one client, which the head allows.
    pub fn is_of_one(&self)
        ensures { IsOfOne self.now }
    {
        if let Some(pass) = &self.pass {
            pass.is_of_one();
        }
    }
}
