//! Greeting: who may have a seat.

ghost use Rattle.std.specs.Prelude.{◌≡◌, ◌≢◌, ◌∷◌, ◌+◌, ◌*◌, ◌<◌, [], ℕ, true, false, None};
ghost use Rattle.std.specs.Prelude.{vec_len};
ghost use Rattle.std.specs.Prelude.{IfOk, IfErr, OnErr, IfSome, IfNone};
ghost use Rattle.std.specs.FinMap as map;
ghost use Rattle.linda_wire.specs.declared.reply.Reply as wire;
ghost use Rattle.linda_store_step.specs.Answer.{greeting};
ghost use Rattle.linda_shared_outbox.specs.Waiting.{waits_for};
ghost use Rattle.linda_shared_outbox.specs.Replies.{opened};
ghost use Rattle.linda_shared_accounts.specs.declared.limits.TheConstants.{ACCOUNT_PARTS, PARTS};
ghost use Rattle.linda_shared_accounts.specs.Accounts.{is_away, account_at, seats_out};
ghost use Rattle.linda_shared_held.specs.Greeting.{IsGreeted, IsAdmitted, IsGreetingReply};
ghost use Rattle.linda_shared_held.specs.Greeting.{OnNoSeat, admission_of, told_why};
ghost use Rattle.linda_shared_held.specs.Kept.{KeepCovered};
ghost use Rattle.linda_shared_held.specs.Seating.{Admits, Greets, GoesOut, IsAsked, NoneGoesOut};

use super::Held;
use crate::admission::Admission;
use linda_disk::Disk;
use linda_server::{Durable, ServeFault};
use linda_shared_accounts::{Account, Accounts, SharedFault};
use linda_shared_outbox::Outboxes;
use linda_wire::{Message, Refusal, Reply, VERSION};
use std::alloc::Global;
use std::sync::ledger::Ledger;

impl<D: Disk, L: Ledger> Held<D, L> {
    /// Whether the client can have no seat now: its seat is out, or is parked for good.
    pub fn is_out(&self, client: u32) -> bool
        ensures { result ≡ is_away (map.get self.now.accounts.places client) }
    {
        self.accounts.is_out(client)
    }

    /// Gives the client of a Hello its seat, with the number of its last request that is kept; or
    /// refuses it with a code and a detail. Nothing is posted. The server is asked first: a Hello
    /// changes nothing there, so if there is no memory for the seat, nothing has changed.
    ///
    /// # Errors
    ///
    /// `Down` before all, and exactly if the server is down: one that was down is as before.
    /// `Memory`: nothing changed.
    pub fn greet(&mut self, alloc: Global, message: &Message) -> Result<Admission<L>, SharedFault>
        ensures greeted { IfOk result (λ answer. IsGreeted self.old.server.store.state
            self.old.accounts.places message.now (admission_of answer)) }
        // A client that is welcome has its seat, which is out, and an outbox;
        ensures out { IfOk result (λ answer. IfOk (admission_of answer) (λ got.
            GoesOut self.old.accounts self.old.boxes got.0.client self.new.accounts
            self.new.boxes)) }
        // if no seat is given, none is out but those of before, and what waits is as it was.
        ensures none { OnNoSeat result (NoneGoesOut self.old.accounts self.old.boxes
            self.new.accounts self.new.boxes) }
        ensures greets { Greets self.old.server result self.new.server }
        ensures same { (self.new.opening.value ≡ self.old.opening.value)
            × (self.new.base.value ≡ self.old.base.value)
            × (self.new.receipts.items ≡ self.old.receipts.items)
            × (self.new.count ≡ self.old.count)
            × (self.new.policy ≡ self.old.policy) × (self.new.recall ≡ self.old.recall)
            × (self.new.server.limit ≡ self.old.server.limit) }
    {
        if self.server.is_down() {
            return Err(SharedFault::Down);
        }
        let Message::Hello {
            version,
            client,
            fresh,
        } = message
        else {
            return Ok(refused(Refusal::NoHello));
        };
        if *version != VERSION {
            return Ok(refused(Refusal::Version));
        }
        if self.accounts.is_out(*client) {
            return Ok(refused(Refusal::Busy));
        }
        admit(
            &mut self.server,
            &mut self.boxes,
            &mut self.accounts,
            alloc,
            *client,
            *fresh,
        )
    }
}

// The client is refused, for this.
fn refused<L: Ledger>(refusal: Refusal) -> Admission<L>
    ensures { admission_of result ≡ Err (told_why refusal) }
{
    Admission::Refused(refusal.code(), refusal.detail())
}

// Greets a client whose seat is not out.
fn admit<D: Disk, L: Ledger>(
    server: &mut Durable<D>,
    boxes: &mut Outboxes,
    accounts: &mut Accounts<L>,
    alloc: Global,
    client: u32,
    fresh: bool,
) -> Result<Admission<L>, SharedFault>
    requires { is_away (map.get accounts.old.places client) ≡ false }
    ensures admitted { IfOk result (λ answer. IsAdmitted server.old.store.state
        accounts.old.places client fresh (admission_of answer)) }
    ensures out { IfOk result (λ answer. IfOk (admission_of answer) (λ got.
        GoesOut accounts.old boxes.old got.0.client accounts.new boxes.new)) }
    ensures none { OnNoSeat result
        (NoneGoesOut accounts.old boxes.old accounts.new boxes.new) }
    ensures admits { Admits server.old result server.new }
    ensures total { accounts.new.total ≡ accounts.old.total }
    ensures covered { KeepCovered boxes.old boxes.new }
{
    match hello(server, alloc, client, fresh)? {
        Err((code, detail)) => Ok(Admission::Refused(code, detail)),
        Ok(last) => match seat(boxes, accounts, alloc, client)? {
            Some(account) => Ok(Admission::Welcome(account, last)),
            None => Ok(refused(Refusal::TooManyClients)),
        },
    }
}

// The seat of a client goes out, and it has an outbox. If there is no seat for it, all is as
// before.
fn seat<L: Ledger>(
    boxes: &mut Outboxes,
    accounts: &mut Accounts<L>,
    alloc: Global,
    client: u32,
) -> Result<Option<Account<L>>, SharedFault>
    requires { is_away (map.get accounts.old.places client) ≡ false }
    ensures account { IfOk result (λ found. IfSome found (λ a.
        a ≡ account_at client (map.get accounts.old.places client))) }
    ensures out { IfOk result (λ found. IfSome found (λ a.
        GoesOut accounts.old boxes.old a.client accounts.new boxes.new)) }
    ensures only_memory { IfErr result (λ fault. fault ≡ SharedFault.Memory) }
    ensures none { IfOk result (λ found.
        IfNone found (PARTS < ACCOUNT_PARTS * (seats_out accounts.old.places + 1))) }
    ensures no_seat { IfOk result (λ found. IfNone found
        (NoneGoesOut accounts.old boxes.old accounts.new boxes.new)) }
    ensures err { OnErr result (NoneGoesOut accounts.old boxes.old accounts.new boxes.new) }
    ensures total { accounts.new.total ≡ accounts.old.total }
    ensures covered { KeepCovered boxes.old boxes.new }
{
    let had_one = boxes.has(client);
    if !open(boxes, alloc, client) {
        return Err(SharedFault::Memory);
    }
    match accounts.go_out(alloc, client) {
        Ok(Some(account)) => Ok(Some(account)),
        Ok(None) => {
            take_back(boxes, client, had_one);
            Ok(None)
        }
        Err(_) => {
            take_back(boxes, client, had_one);
            Err(SharedFault::Memory)
        }
    }
}

// Whether the client has an outbox now. What waits stays covered.
fn open(boxes: &mut Outboxes, alloc: Global, client: u32) -> bool
    ensures at { result ≡ true → waits_for boxes.new client ≡ opened (waits_for boxes.old client) }
    ensures others { (c : ℕ) → c ≢ client → waits_for boxes.new c ≡ waits_for boxes.old c }
    ensures err { result ≡ false → (c : ℕ) → waits_for boxes.new c ≡ waits_for boxes.old c }
    ensures covered { KeepCovered boxes.old boxes.new }
{
    match boxes.open(alloc, client) {
        Ok(()) => true,
        Err(_) => false,
    }
}

// The client's outbox is shut again, if it had none before. What waits stays covered.
fn take_back(boxes: &mut Outboxes, client: u32, had_one: bool)
    ensures kept { had_one ≡ true → waits_for boxes.new client ≡ waits_for boxes.old client }
    ensures shut { had_one ≡ false → waits_for boxes.new client ≡ None }
    ensures others { (c : ℕ) → c ≢ client → waits_for boxes.new c ≡ waits_for boxes.old c }
    ensures covered { KeepCovered boxes.old boxes.new }
{
    if !had_one {
        boxes.shut(client);
    }
}

// What the server answers to a Hello: the number of the last request that is kept, or a code and a
// detail.
fn hello<D: Disk>(
    server: &mut Durable<D>,
    alloc: Global,
    client: u32,
    fresh: bool,
) -> Result<Result<u64, (u8, u64)>, SharedFault>
    ensures welcome { IfOk result (λ answer. IfOk answer (λ last.
        greeting server.old.store.state client VERSION fresh ≡ Reply.Welcome last)) }
    ensures refused { IfOk result (λ answer. IfErr answer (λ why.
        greeting server.old.store.state client VERSION fresh ≡ Reply.Refused why.0 why.1)) }
    ensures asked { IsAsked server.old result server.new }
{
    match ask(server, alloc, client, fresh)? {
        Reply::Welcome { last } => Ok(Ok(last)),
        Reply::Refused { code, detail } => Ok(Err((code, detail))),
        Reply::Stored { .. } => unreachable!(),
        Reply::Offer { .. } => unreachable!(),
        Reply::Read { .. } => unreachable!(),
        Reply::Taken { .. } => unreachable!(),
        Reply::Gone { .. } => unreachable!(),
        Reply::Left { .. } => unreachable!(),
    }
}

// The reply to a Hello.
fn ask<D: Disk>(
    server: &mut Durable<D>,
    alloc: Global,
    client: u32,
    fresh: bool,
) -> Result<Reply, SharedFault>
    ensures reply { IfOk result (λ r. r ≡ greeting server.old.store.state client VERSION fresh) }
    ensures kind { IfOk result IsGreetingReply }
    ensures asked { IsAsked server.old result server.new }
{
    let _ = server.is_down();
    let message = Message::Hello {
        version: VERSION,
        client,
        fresh,
    };
    match server.serve(alloc, client, &message) {
        Ok(served) => Ok(first_of(served.into_sends())),
        // A Hello does no deed.
        Err(ServeFault::Full) => unreachable!(),
        Err(_) => Err(SharedFault::Down),
    }
}

// The first reply.
fn first_of(sends: Vec<(u32, Reply)>) -> Reply
    requires { vec_len sends ≡ 1 }
    ensures { (c : ℕ) (r : wire.Reply) → sends.items ≡ (c, r) ∷ [] → result ≡ r }
{
    let mut sends = sends;
    let Some(send) = sends.pop() else {
        unreachable!()
    };
    send.1
}
