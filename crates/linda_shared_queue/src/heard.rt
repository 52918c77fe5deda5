//! State of a session within a batch: what it heard so far.

ghost use Rattle.std.specs.Prelude.{◌≡◌, ◌+◌, ◌<◌, ◌++◌, ◌∷◌, [], false, true, List, Some, None};
ghost use Rattle.std.specs.Prelude.{vec_len, vec_capacity, IfOk, IfErr};
ghost use Rattle.linda_wire.specs.declared.message.Message as messages;
ghost use Rattle.linda_shared_accounts.specs.Account as accounts;
ghost use Rattle.linda_shared_queue.specs.Seat.{with_asked, IsLeftBy};
ghost use Rattle.linda_shared_queue.specs.Heard as spec;
ghost use Rattle.linda_shared_queue.specs.Heard.{HasHeard, IsToldAll};

use crate::answer::Answer;
use crate::hearing::hear;
use linda_shared_accounts::{Account, Receipt, SharedFault};
use linda_wire::Message;
use std::sync::ledger::Ledger;

/// What the messages led to so far, the worst fault, and whether the account is known to be as
/// before.
#[derive(Drop)]
pub struct Heard {
    /// What each message led to.
    pub told: Vec<Option<Receipt>>,
    /// The worst fault.
    pub fault: Option<SharedFault>,
    /// Whether the account is known to be as before.
    pub is_as_before: bool,
}

impl Heard {
    /// Nothing was heard.
    pub fn new(told: Vec<Option<Receipt>>) -> Heard
        ensures { (result.told ≡ told) × ((result.fault ≡ None) × (result.is_as_before ≡ true)) }
    {
        Heard {
            told,
            fault: None,
            is_as_before: true,
        }
    }

    /// The account hears the answer to its next message.
    pub fn add<A: Drop, L: Ledger>(
        &mut self,
        account: &mut Account<L>,
        message: &Message,
        answer: Answer<A, L>,
    )
        requires asked { 0 < account.old.asked }
        requires room { vec_len self.old.told < vec_capacity self.old.told }
        ensures so { (before : accounts.Account) (ms : List messages.Message)
            → HasHeard before ms account.old self.old.told.items self.old.fault
            self.old.is_as_before
            → HasHeard before (ms ++ message.now ∷ [])
            account.new self.new.told.items self.new.fault self.new.is_as_before }
        ensures told { (vec_len self.new.told ≡ vec_len self.old.told + 1)
            × (vec_capacity self.new.told ≡ vec_capacity self.old.told) }
    {
        match hear(account, message, answer) {
            Ok(one) => self.tell(one),
            Err(fault) => self.fail(fault),
        }
    }

    // The next message led to this.
    fn tell(&mut self, one: Option<Receipt>)
        requires { vec_len self.old.told < vec_capacity self.old.told }
        ensures told { self.new.told.items ≡ self.old.told.items ++ one ∷ [] }
        ensures len { (vec_len self.new.told ≡ vec_len self.old.told + 1)
            × (vec_capacity self.new.told ≡ vec_capacity self.old.told) }
        ensures fault { self.new.fault ≡ self.old.fault }
        ensures as_before { self.new.is_as_before ≡ true
            → (self.old.is_as_before ≡ true) × (one ≡ None) }
        ensures still { self.old.is_as_before ≡ true → one ≡ None → self.new.is_as_before ≡ true }
    {
        if one.is_some() {
            self.is_as_before = false;
        }
        self.told.push_reserved(one);
    }

    // The next message led to a fault.
    fn fail(&mut self, fault: SharedFault)
        requires { vec_len self.old.told < vec_capacity self.old.told }
        ensures told { self.new.told.items ≡ self.old.told.items ++ None ∷ [] }
        ensures len { (vec_len self.new.told ≡ vec_len self.old.told + 1)
            × (vec_capacity self.new.told ≡ vec_capacity self.old.told) }
        ensures fault { self.new.fault ≡ Some (spec.worse_fault self.old.fault fault) }
        ensures as_before { self.new.is_as_before ≡ true
            → (self.old.is_as_before ≡ true) × (spec.is_severe fault ≡ false) }
        // A fault after which nothing changed leaves it known that the account is as before.
        ensures still { self.old.is_as_before ≡ true → spec.is_severe fault ≡ false
            → self.new.is_as_before ≡ true }
    {
        if is_severe(fault) {
            self.is_as_before = false;
        }
        self.fault = Some(worse_fault(self.fault, fault));
        self.told.push_reserved(None);
    }

    /// What all led to.
    ///
    /// # Errors
    ///
    /// The worst fault; `Down` in place of one that says that nothing changed, if the account may
    /// have changed.
    pub fn end(self) -> Result<Vec<Option<Receipt>>, SharedFault>
        ensures ok { (before account : accounts.Account) (ms : List messages.Message)
            → HasHeard before ms account self.told.items self.fault self.is_as_before
            → IfOk result (λ told. IsToldAll before ms account told.items) }
        ensures err { (before account : accounts.Account) (ms : List messages.Message)
            → HasHeard before ms account self.told.items self.fault self.is_as_before
            → IfErr result (λ fault. IsLeftBy ms (with_asked before account.asked) fault account) }
    {
        match self.fault {
            None => Ok(self.told),
            Some(fault) => Err(told_fault(fault, self.is_as_before)),
        }
    }
}

// The fault of several messages: the first of a receipt that was no answer, else the first.
fn worse_fault(before: Option<SharedFault>, fault: SharedFault) -> SharedFault
    ensures { result ≡ spec.worse_fault before fault }
{
    match before {
        None => fault,
        Some(first) => {
            if is_receipt(first) {
                first
            } else if is_receipt(fault) {
                fault
            } else {
                first
            }
        }
    }
}

// Whether it is that of a receipt.
fn is_receipt(fault: SharedFault) -> bool
    ensures { result ≡ spec.is_receipt fault }
{
    match fault {
        SharedFault::Receipt { .. } => true,
        SharedFault::Down | SharedFault::Full | SharedFault::SeatMissing => false,
        SharedFault::Stuck(_) | SharedFault::NoThread | SharedFault::Memory => false,
    }
}

// Whether the account may have changed if the server reports this fault.
fn is_severe(fault: SharedFault) -> bool
    ensures { result ≡ spec.is_severe fault }
{
    match fault {
        SharedFault::Down | SharedFault::Receipt { .. } => true,
        SharedFault::Full | SharedFault::SeatMissing => false,
        SharedFault::Stuck(_) | SharedFault::NoThread | SharedFault::Memory => false,
    }
}

// The fault, or `Down` for one that says that nothing changed, if something may have.
fn told_fault(fault: SharedFault, is_as_before: bool) -> SharedFault
    ensures { result ≡ spec.told_fault fault is_as_before }
{
    if is_as_before || is_severe(fault) {
        fault
    } else {
        SharedFault::Down
    }
}
