//! Sessions that one thread serves, which waits for none of them.

ghost use Rattle.std.specs.Prelude.{◌≡◌, map, All, IfOk};
ghost use Rattle.linda_shared_held.specs.Greeting.{admission_of};
ghost use Rattle.linda_shared.specs.Greeting.{WasGreeted, IsSeatOf};
ghost use Rattle.linda_shared.specs.Group.{told_in, AreTold, IsEffectOf};

use super::Shared;
use crate::group::MessageGroup;
use crate::served::ServedGroup;
use linda_disk::Disk;
use linda_shared_accounts::{Account, SharedFault};
use linda_shared_held::Admission;
use linda_shared_outbox::Sent;
use linda_wire::Message;
use std::sync::Wait;
use std::sync::ledger::Ledger;

/// Who takes what is sent to clients.
pub trait ReplySink {
    /// The server is locked from now on.
    fn begin(&mut self) {}

    /// These go to their client, after all that went to it before. The server is locked meanwhile.
    fn post<R: Wait>(&mut self, rt: &R, sent: Sent);
}

impl<D: Disk, L: Ledger> Shared<D, L> {
    /// Gives the client of a Hello its account, with the number of its last request that is kept;
    /// or refuses it with a code and a detail. It has no seat and no outlet: its messages go by
    /// groups, and what is sent to it is posted by
    /// `serve_group` and `depart`.
    ///
    /// # Errors
    ///
    /// `Down`, before all; `Memory`: nothing changed.
    pub fn admit<R: Wait>(&self, rt: &R, message: &Message) -> Result<Admission<L>, SharedFault>
        // It was answered as a server says that is in some state, and has given out some seats;
        ensures greeted { IfOk result (λ a. WasGreeted message.now (admission_of a)) }
        // so the account is of the Hello's client, and nothing of it is on its way.
        ensures account { IfOk result (λ a. IsSeatOf message.now (admission_of a)) }
    {
        let (answer, _) = with_locked!(self, rt, |locked| locked.held.greet(self.alloc, message));
        answer
    }

    /// Serves the messages of a group, one after the other in one call of the server, and posts
    /// what is sent, once it is on the disks; it says before that the server is locked. Returns
    /// each message with its answer, and whether the server is up.
    pub fn serve_group<A: Drop, R: Wait, P: ReplySink>(
        &self,
        rt: &R,
        group: MessageGroup<A, L>,
        posts: &mut P,
    ) -> (ServedGroup<A, L>, bool)
        // Each message that was asked has its answer, also if the server is down, in order, and
        // that has its address;
        ensures each { map (λ a. a.0) result.0.answers ≡ group.messages }
        ensures addresses { map (λ a. a.1.address) result.0.answers ≡ group.addresses }
        ensures room { result.0.room ≡ group.room }
        // what is reported is what a server in some state says of these messages, or why none was
        // served: the server is down only if that is said,
        ensures told { AreTold D D.Disk result.1 group.messages (told_in result.0) }
        // and so a deed is one that its own message asks for.
        ensures own { All (λ a. IsEffectOf a.0 a.1.told) result.0.answers }
    {
        let (served, is_down) = with_locked!(self, rt, |locked| {
            posts.begin();
            let served = group.serve(self.alloc, &mut locked.held);
            locked.post_all(rt, self.alloc, posts);
            locked.forget(self.alloc, served.len());
            served
        });
        (served, !is_down)
    }

    /// The client leaves: what it asked is given up, and its account is parked for its next
    /// connection. What its leaving sends to others is posted. Says whether the server is up.
    pub fn depart<R: Wait, P: ReplySink>(
        &self,
        rt: &R,
        account: Account<L>,
        posts: &mut P,
    ) -> bool {
        let (_, is_down) = with_locked!(self, rt, |locked| {
            let _ = locked.held.leave(self.alloc, account);
            locked.post_all(rt, self.alloc, posts);
        });
        !is_down
    }
}
