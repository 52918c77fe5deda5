//! Intakes of a stream's messages, and a list in memory that is one.

ghost use Rattle.std.specs.Prelude.{◌≤◌, Option, List, IfErr, OnOk, vec_len};
ghost use Rattle.linda_wire.specs.declared.message.Message.{Message as MessageValue};
ghost use Rattle.linda_store_step.specs.declared.size.TheConstants.{MAX_BATCH};
ghost use Rattle.linda_net_pump.specs.Pumping.{Takes, TakesSome, IsOfIntake};

use linda_store::ConverseFault;
use linda_wire::Message;

/// What takes the messages of a stream.
pub trait Intake {
    /// The messages that were taken, in order; `None` if nothing is said of them, as of a server
    /// that threads share.
    ghost taken: { Self → Option (List MessageValue) };

    /// Takes messages, in order; there is one at least, and no more than a batch has.
    ///
    /// # Errors
    ///
    /// `Write`, `Down`, `Memory`: some first ones of them were taken.
    fn take(&mut self, messages: Vec<Message>) -> Result<(), ConverseFault>
        requires some { 1 ≤ vec_len messages }
        requires few { vec_len messages ≤ MAX_BATCH }
        ensures ok { OnOk result (Takes (taken self.old) (taken self.new) messages.items) }
        ensures err { IfErr result (λ fault. IsOfIntake fault
            × TakesSome (taken self.old) (taken self.new) messages.items) };
}

/// A list takes what comes and keeps it. `Memory` is returned before any of the messages is taken.
impl Intake for Vec<Message> {
    ghost use Rattle.std.specs.Prelude.{Some};

    ghost taken = { λ kept. Some kept.items };

    fn take(&mut self, messages: Vec<Message>) -> Result<(), ConverseFault> {
        let mut messages = messages;
        match self.append(&mut messages) {
            Ok(()) => Ok(()),
            Err(_) => Err(ConverseFault::Memory),
        }
    }
}
