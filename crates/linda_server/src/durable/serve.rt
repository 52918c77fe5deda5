//! Serving messages: judged, done, and put onto the bank in use before anything is answered.

ghost use Rattle.std.specs.Prelude.{◌≡◌, ◌∷◌, [], ◌<◌, ◌≤◌, ◌+◌, ◌↔◌};
ghost use Rattle.std.specs.Prelude.{ℕ, true, false, length, All, IfOk, IfErr, IfSome, OnOk};
ghost use Rattle.std.specs.Prelude.{OnErr};
ghost use Rattle.std.specs.Prelude.{IsErrOf, is_some};
ghost use Rattle.linda_disk.specs.Disk.{TellsFailures};
ghost use Rattle.linda_store_step.specs.declared.size.TheConstants.{MAX_GROUP};
ghost use Rattle.linda_server.specs.Calls.{room_for};
ghost use Rattle.linda_server.specs.Server.{is_usable, form_in_use, end_in_use, limit_in_use};
ghost use Rattle.linda_server.specs.Server.{BothHonest};
ghost use Rattle.linda_server.specs.Server.{failures_of, IsKeptFor, IsPutOn, AlwaysLeave};

use super::Durable;
use crate::commit::commit;
use crate::copying::renewed;
use crate::fault::ServeFault;
use crate::next::{unless_spent, with_deeds_logged, with_taken_copied};
use crate::serving::{Messages, serve};
use linda_disk::Disk;
use linda_ghost::Moment;
use linda_journal::{GATE_BYTES, RECORD_HEAD, records_for};
use linda_store_step::{Need, Served};
use linda_wire::Message;
use std::alloc::Global;
use std::mem;

impl<D: Disk> Durable<D> {
    ghost use Rattle.linda_store_state.specs.State.{IsState};
    ghost use Rattle.linda_store_state.specs.DeedFormat.{payload, SuitsForm};
    ghost use Rattle.linda_store_step.specs.Size.{IsNeedOf};
    ghost use Rattle.linda_store_step.specs.declared.size.TheConstants.{MAX_GROUP};
    ghost use Rattle.linda_store_step.specs.History.{History, Answers};
    ghost use Rattle.linda_store_step.specs.Store.{IsOrderly};
    ghost use Rattle.linda_server.specs.Messages.{messages_of};
    ghost use Rattle.linda_server.specs.Calls.{LeadTo, IsEither};
    ghost use Rattle.linda_server.specs.Handled.{Serves};
    ghost use Rattle.linda_store_state.specs.Deed.{is_taken};
    ghost use Rattle.linda_server.specs.Next.{IsNextFor, IsSafeIn};
    ghost use Rattle.linda_snap.specs.BookCopy.{IsCopyFor};

    /// Does what the messages ask, one after another, each of its client, and says for each of
    /// them which deed it did and what is sent. All deeds come onto the bank in use at once, 64 of
    /// them in a record; if there are none, no device call is made.
    ///
    /// # Errors
    ///
    /// `Down`, then `Full`: nothing changed. `Disk` if the device failed, and `Memory`: the server
    /// is down, nothing is to be sent, and all of the deeds are done or none.
    pub fn serve_all(
        &mut self,
        alloc: Global,
        messages: &[(u32, Message)],
    ) -> Result<Served, ServeFault>
        requires { length messages.now ≤ MAX_GROUP }
        ensures { Serves self.old messages.now result self.new }
    {
        self.serve_batch(alloc, Messages::Many(messages))
    }

    /// Does what the message of the client asks, as `serve_all` does of several.
    ///
    /// # Errors
    ///
    /// As those of `serve_all`.
    pub fn serve(
        &mut self,
        alloc: Global,
        client: u32,
        message: &Message,
    ) -> Result<Served, ServeFault>
        ensures { Serves self.old ((client, message.now) ∷ []) result self.new }
    {
        self.serve_batch(alloc, Messages::One(client, message))
    }

    /// How many bytes of the bank in use the deeds of the messages will need at most, with the gate
    /// after them: 0 if they make none, or one of them will have no spelling there.
    pub fn room_for(&self, messages: &[(u32, Message)]) -> usize
        requires few { length messages.now ≤ MAX_GROUP }
    {
        match self.need_of(Messages::Many(messages)) {
            Some(need) => bytes_of(need),
            None => 0,
        }
    }

    // Does what the messages ask.
    fn serve_batch(&mut self, alloc: Global, batch: Messages<'_>) -> Result<Served, ServeFault>
        requires { length (messages_of batch) ≤ MAX_GROUP }
        ensures { Serves self.old (messages_of batch.entry) result self.new }
    {
        let need = self.need_of(batch);
        self.admit(need)?;
        self.begin();
        let next = mem::replace(&mut self.next, None);
        self.next = unless_spent(with_taken_copied(next, alloc, self.store.state(), batch));
        let Ok(served) = serve(&mut self.store, alloc, batch) else {
            return Err(ServeFault::Memory);
        };
        self.settle(alloc, served)
    }

    // What the deeds of the messages will need on the bank in use; `None` if one of them will have
    // no spelling in its form.
    fn need_of(&self, batch: Messages<'_>) -> Option<Need>
        requires { length (messages_of batch) ≤ MAX_GROUP }
        ensures need { (all : History)
            → Answers self.now.store.state self.now.store.soft (messages_of batch.entry) all
            → IsNeedOf (form_in_use self.now.disks) all.deeds result }
        ensures few { IfSome result (λ need. need.deeds ≤ MAX_GROUP) }
        ensures orderly { IsOrderly self.now.store.state self.now.store.soft }
    {
        let form = self.disks.form();
        match batch {
            Messages::One(client, message) => self.store.need_of_one(form, client, message),
            Messages::Many(messages) => self.store.need_of(form, messages),
        }
    }

    // Whether it may do deeds that need this; it is `None` if one of them has no spelling in the
    // form of the bank in use.
    fn admit(&self, need: Option<Need>) -> Result<(), ServeFault>
        requires { IfSome need (λ need. need.deeds ≤ MAX_GROUP) }
        ensures was_down { IsErrOf result ServeFault.Down ↔ (self.now.down ≡ true) }
        ensures full { IsErrOf result ServeFault.Full → IfSome need (λ need. (0 < need.deeds)
            × (self.now.limit < end_in_use self.now.disks + room_for need.deeds need.bytes)) }
        ensures room { OnOk result (IfSome need (λ need. 0 < need.deeds
            → end_in_use self.now.disks + room_for need.deeds need.bytes ≤ self.now.limit)) }
        ensures spelled { OnOk result (is_some need ≡ true) }
        ensures known { (IsErrOf result ServeFault.Disk → ⊥)
            × (IsErrOf result ServeFault.Memory → ⊥) }
    {
        if self.down {
            return Err(ServeFault::Down);
        }
        let Some(need) = need else {
            return Err(ServeFault::Full);
        };
        if !has_room(self.limit, self.disks.end(), need) {
            return Err(ServeFault::Full);
        }
        Ok(())
    }

    /// Begins a call. Until it ends well the server counts as down, in the state before the call.
    pub(super) fn begin(&mut self)
        requires { self.old.down ≡ false }
        ensures down { self.new.down ≡ true }
        ensures before { self.new.before.value ≡ self.old.store.state }
        ensures same { (self.new.store ≡ self.old.store) × (self.new.disks ≡ self.old.disks)
            × (self.new.limit ≡ self.old.limit) × (self.new.lost.items ≡ [])
            × (self.new.next ≡ self.old.next) × (self.new.copy ≡ self.old.copy) }
        // What the type keeps of a server that is up is not lost.
        ensures live { self.new.store.is_spent ≡ false }
        ensures ranges { IsState self.new.store.state }
        ensures ready { is_usable self.new.disks ≡ true }
        ensures limited { limit_in_use self.new.disks ≡ self.new.limit }
        ensures kept { ∥ IsKeptFor self.new.disks self.old.store.state ∥₁ }
        ensures begun { ∥ IsNextFor self.new.next self.new.disks self.old.store.state ∥₁ }
        ensures copied { ∥ IsCopyFor self.new.copy self.old.store.state.book ∥₁ }
    {
        self.before = Moment::of(self.store.state());
        self.down = true;
    }

    // Ends a call that served this: puts the deeds onto the bank in use.
    fn settle(&mut self, alloc: Global, served: Served) -> Result<Served, ServeFault>
        requires down { self.old.down ≡ true }
        requires none_lost { self.old.lost.items ≡ [] }
        requires live { self.old.store.is_spent ≡ false }
        requires ranges { IsState self.old.before.value }
        requires ready { is_usable self.old.disks ≡ true }
        requires limited { limit_in_use self.old.disks ≡ self.old.limit }
        requires kept { ∥ IsKeptFor self.old.disks self.old.before.value ∥₁ }
        requires begun { ∥ IsNextFor self.old.next self.old.disks self.old.before.value ∥₁ }
        requires copied { ∥ IsCopyFor self.old.copy self.old.before.value.book ∥₁ }
        requires safe { (id : ℕ) → is_taken id served.deeds.items ≡ true
            → IsSafeIn self.old.next self.old.before.value.bag id }
        requires leads { LeadTo self.old.before.value served.deeds.items self.old.store.state }
        requires few { length served.deeds.items ≤ MAX_GROUP }
        requires suit { All (SuitsForm (form_in_use self.old.disks)) served.deeds.items }
        requires room { 0 < length served.deeds.items
            → end_in_use self.old.disks + room_for (length served.deeds.items)
            (length (payload (form_in_use self.old.disks) served.deeds.items)) ≤ self.old.limit }
        ensures any_moment { AlwaysLeave self.old.disks self.new.disks
            (IsEither self.old.before.value self.old.store.state) }
        ensures done { IfOk result (λ s. s ≡ served) }
        ensures up { OnOk result (self.new.down ≡ false) }
        ensures fault { OnErr result (self.new.down ≡ true) }
        ensures lost { OnErr result (self.new.lost.items ≡ served.deeds.items) }
        ensures known { (IsErrOf result ServeFault.Full → ⊥)
            × (IsErrOf result ServeFault.Down → ⊥) }
        ensures same { (self.new.store ≡ self.old.store) × (self.new.limit ≡ self.old.limit)
            × (self.new.before.value ≡ self.old.before.value) }
        ensures cause { IfErr result (λ fault. TellsFailures ServeFault.Disk fault
            (failures_of self.old.disks) (failures_of self.new.disks)) }
        ensures idle { IfOk result (λ s. s.deeds.items ≡ [] → self.new.disks ≡ self.old.disks) }
        ensures clock { IfOk result (λ s. 0 < length s.deeds.items
            → IsPutOn self.old.disks self.new.disks) }
        ensures honest { BothHonest self.old.disks ↔ BothHonest self.new.disks }
    {
        match commit(&mut self.disks, alloc, &served.deeds) {
            Ok(()) => {
                let next = mem::replace(&mut self.next, None);
                self.next = unless_spent(with_deeds_logged(next, alloc, &served.deeds));
                let copy = mem::replace(&mut self.copy, None);
                self.copy = renewed(copy, alloc, self.store.state(), &served.deeds);
                self.down = false;
                Ok(served)
            }
            Err(fault) => {
                self.lost = served.into_deeds();
                Err(fault)
            }
        }
    }
}

// How many bytes the records of deeds that need this take, and the gate after them; 0 if there are
// none.
fn bytes_of(need: Need) -> usize
    requires { need.deeds ≤ MAX_GROUP }
{
    if need.deeds == 0 {
        return 0;
    }
    let heads = RECORD_HEAD * records_for(need.deeds) + GATE_BYTES;
    need.bytes.saturating_add(heads)
}

// Whether the records of deeds that need this, and the gate after them, keep within the limit, if
// there are deeds.
fn has_room(limit: usize, end: usize, need: Need) -> bool
    requires { need.deeds ≤ MAX_GROUP }
    ensures yes { result ≡ true → 0 < need.deeds → end + room_for need.deeds need.bytes ≤ limit }
    ensures no { result ≡ false → (0 < need.deeds)
        × (limit < end + room_for need.deeds need.bytes) }
{
    if need.deeds == 0 {
        return true;
    }
    let heads = RECORD_HEAD * records_for(need.deeds) + GATE_BYTES;
    let Some(start) = end.checked_add(heads) else {
        return false;
    };
    start <= limit && need.bytes <= limit - start
}
