//! The messages that passed, of which only proofs see more than whether there are any.

ghost use Rattle.std.specs.Prelude.{◌≡◌, [], ◌∷◌, ◌++◌};
ghost use Rattle.linda_gate_pass.specs.Passing.{are_some};

use http_server::Log;
use linda_wire::Message;
use std::marker::Model;

/// The messages that passed.
#[derive(Drop)]
pub(crate) struct Passed {
    has_some: bool,
    log: Log<Message, ()>,
}

impl Model for Passed {
    ghost use Rattle.std.specs.Prelude.{◌≡◌, List, map};
    ghost use Rattle.linda_gate_pass.specs.Passing.{are_some};
    ghost use Rattle.linda_wire.specs.declared.message.Message.{Message as MessageValue};

    ghost Value = { List MessageValue };

    ghost view = { λ p. map (λ x. x.0) p.log.items };

    ghost invariant = { λ p. p.has_some ≡ are_some (map (λ x. x.0) p.log.items) };
}

impl Passed {
    /// None passed yet.
    pub(crate) fn new() -> Passed
        ensures { result ≡ [] }
    {
        Passed {
            has_some: false,
            log: Log::new(),
        }
    }

    /// Whether one passed.
    pub(crate) fn has_some(&self) -> bool
        ensures { result ≡ are_some self.now }
    {
        self.has_some
    }

    /// One more passed.
    pub(crate) fn push(&mut self, message: &Message)
        ensures { self.new ≡ self.old ++ message.now ∷ [] }
    {
        self.log = self.log.and(message, &());
        self.has_some = true;
    }
}
