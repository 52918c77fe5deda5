//! A client comes.

ghost use Rattle.std.specs.Prelude.{◌≡◌, ℕ, false, IfOk, IsErrOf};
ghost use Rattle.std.specs.Arc.{arc_value};
ghost use Rattle.linda_shared_outbox.specs.Waiting.{waits_for};
ghost use Rattle.linda_shared.specs.Greeting as spec;
ghost use Rattle.linda_shared.specs.Greeting.{WasGreeted, IsSeatOf, HasOwnOutlet, greeting_of};

use super::Shared;
use crate::greeted::Greeted;
use crate::seat::Seat;
use linda_disk::Disk;
use linda_shared_accounts::SharedFault;
use linda_shared_held::{Admission, Held};
use linda_shared_queue::{Mailbox, Outlet};
use linda_wire::Message;
use std::alloc::{AllocError, Global};
use std::sync::ledger::Ledger;
use std::sync::{Arc, Wait};

impl<D: Disk, L: Ledger> Shared<D, L> {
    /// Gives the client of a Hello its seat and its outlet, with the number of its last request
    /// that is kept; or refuses it with a code and a detail.
    ///
    /// # Errors
    ///
    /// `Down`, before all; `Memory`: nothing changed.
    pub fn greet<R: Wait>(&self, rt: &R, message: &Message) -> Result<Greeted<L>, SharedFault>
        // It was answered as a server says that is in some state, and has given out some seats;
        ensures greeted { IfOk result (λ g. WasGreeted message.now (greeting_of g)) }
        // so a seat is of the Hello's client, and nothing of it is on its way.
        ensures seat { IfOk result (λ g. IsSeatOf message.now (greeting_of g)) }
        // What comes out of the outlet was for the seat's client.
        ensures outlet { IfOk result HasOwnOutlet }
    {
        let (greeted, _) = with_locked!(
            self,
            rt,
            |locked| self.welcome(rt, &mut locked.held, message)
        );
        greeted
    }

    // Greets the client. A mailbox for it is made first, and its place in the router: so the server
    // is asked only if there is memory for them.
    fn welcome<R: Wait>(
        &self,
        rt: &R,
        held: &mut Held<D, L>,
        message: &Message,
    ) -> Result<Greeted<L>, SharedFault>
        ensures greeted { IfOk result (λ g. WasGreeted message.now (greeting_of g)) }
        ensures outlet { IfOk result HasOwnOutlet }
        // Without memory all is as before, so a second greeting is answered as this one was to be.
        ensures memory { IsErrOf result SharedFault.Memory → (held.new.server.down ≡ false)
            × (held.new.server.store.state ≡ held.old.server.store.state)
            × (held.new.server.store.soft ≡ held.old.server.store.soft)
            × (held.new.accounts ≡ held.old.accounts)
            × ((c : ℕ) → waits_for held.new.boxes c ≡ waits_for held.old.boxes c) }
    {
        if held.is_down() {
            return Err(SharedFault::Down);
        }
        let Ok((mine, theirs, out)) = new_mailbox_handles(self.alloc, client_in(message)) else {
            return Err(SharedFault::Memory);
        };
        let mut router = self.router.lock(rt);
        let newcomer = newcomer(held, message);
        if newcomer.is_some() {
            let Ok(()) = router.open(rt, theirs) else {
                return Err(SharedFault::Memory);
            };
        }
        let greeted = admit(held, self.alloc, message, mine, out);
        if let (Some(client), false) = (newcomer, is_welcome(&greeted)) {
            router.shut(rt, client);
        }
        greeted
    }
}

// The client of a Hello, if it can have a seat now.
fn newcomer<D: Disk, L: Ledger>(held: &Held<D, L>, message: &Message) -> Option<u32> {
    match message {
        Message::Hello { client, .. } => {
            if held.is_out(*client) {
                None
            } else {
                Some(*client)
            }
        }
        _ => None,
    }
}

// The client of a Hello, and 0 of any other message, since nothing else is welcome.
fn client_in(message: &Message) -> u32
    ensures { result ≡ spec.client_in message.now }
{
    match message {
        Message::Hello { client, .. } => *client,
        _ => 0,
    }
}

// Asks the server; a client that gets a seat has this mailbox.
fn admit<D: Disk, L: Ledger>(
    held: &mut Held<D, L>,
    alloc: Global,
    message: &Message,
    mine: Arc<Mailbox<L>, Global>,
    out: Arc<Mailbox<L>, Global>,
) -> Result<Greeted<L>, SharedFault>
    requires own { (arc_value mine).client ≡ spec.client_in message.now }
    requires same { (arc_value out).client ≡ spec.client_in message.now }
    ensures greeted { IfOk result (λ g. WasGreeted message.now (greeting_of g)) }
    ensures outlet { IfOk result HasOwnOutlet }
    ensures memory { IsErrOf result SharedFault.Memory → (held.new.server.down ≡ false)
        × (held.new.server.store.state ≡ held.old.server.store.state)
        × (held.new.server.store.soft ≡ held.old.server.store.soft)
        × (held.new.accounts ≡ held.old.accounts)
        × ((c : ℕ) → waits_for held.new.boxes c ≡ waits_for held.old.boxes c) }
{
    let admission = held.greet(alloc, message)?;
    match admission {
        Admission::Refused(code, detail) => Ok(Greeted::Refused(code, detail)),
        Admission::Welcome(account, last) => Ok(Greeted::Welcome(
            Seat::new(account, mine),
            Outlet::new(out),
            last,
        )),
    }
}

fn is_welcome<L: Ledger>(greeted: &Result<Greeted<L>, SharedFault>) -> bool {
    matches!(greeted, Ok(Greeted::Welcome(..)))
}

// Three handles of one new mailbox of the client.
fn new_mailbox_handles<L: Ledger>(
    alloc: Global,
    client: u32,
) -> Result<
    (
        Arc<Mailbox<L>, Global>,
        Arc<Mailbox<L>, Global>,
        Arc<Mailbox<L>, Global>,
    ),
    AllocError,
>
    ensures { IfOk result (λ o. ((arc_value o.0).client ≡ client)
        × ((arc_value o.1).client ≡ client)
        × ((arc_value o.2).client ≡ client)) }
{
    let first = Arc::new(alloc, Mailbox::new(alloc, client))?;
    let second = Arc::try_clone(&first)?;
    let third = Arc::try_clone(&first)?;
    Ok((first, second, third))
}
