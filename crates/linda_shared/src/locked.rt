//! The server, and the batch in hand.

ghost use Rattle.std.specs.Prelude.{◌≡◌, ◌+◌, ◌-◌, ◌*◌, ◌^◌, ℕ, [], true, false, None, All};
ghost use Rattle.std.specs.Prelude.{IsTrue, IfNone, min};
ghost use Rattle.linda_shared.specs.declared.locked.TheConstants.{LET_GO};
ghost use Rattle.linda_shared_outbox.specs.Waiting.{waits_for};
ghost use Rattle.linda_shared_outbox.specs.Replies.{handed_out};

use crate::batch::LeaderBatch;
use crate::shared::ReplySink;
use linda_disk::Disk;
use linda_shared_held::Held;
use linda_shared_outbox::Sent;
use linda_shared_queue::Router;
use std::alloc::Global;
use std::sync::Wait;
use std::sync::ledger::Ledger;

/// Of how many receipts that were forgotten memory is given back after each group, besides two for
/// each of its messages.
const LET_GO: usize = 64;

/// The server, and the batch in hand. Once the answers of a group were lost the server is given up,
/// and nothing that waits in its outboxes is given out any more.
#[derive(Drop)]
pub(crate) struct Locked<D: Disk, L: Ledger> {
    pub(crate) held: Held<D, L>,
    pub(crate) batch: LeaderBatch<L>,
    pub(crate) is_given_up: bool,
}

impl<D: Disk, L: Ledger> Locked<D, L> {
    /// Serves what is in hand.
    pub(crate) fn serve(&mut self, alloc: Global)
        ensures served { self.new.batch.messages ≡ [] }
        // Unless the server was given up, each answer has its copy;
        ensures kept { self.new.is_given_up ≡ false → All IsTrue self.new.batch.answers }
        // and once it was it is for good.
        ensures stays { self.old.is_given_up ≡ true → self.new.is_given_up ≡ true }
        ensures down { self.old.is_given_up ≡ false → self.new.is_given_up ≡ true
            → self.new.held.server.down ≡ true }
    {
        if !self.batch.serve(alloc, &mut self.held) {
            self.is_given_up = true;
        }
    }

    /// Has receipts forgotten, if there are many, after a group of so many messages was served: all
    /// at once, but their memory is given back group by group, of more receipts than a group has.
    pub(crate) fn forget(&mut self, alloc: Global, messages: usize)
        ensures same { (self.new.held.server ≡ self.old.held.server)
            × (self.new.held.boxes ≡ self.old.held.boxes) × (self.new.batch ≡ self.old.batch)
            × (self.new.is_given_up ≡ self.old.is_given_up) }
    {
        self.held.forget(alloc);
        self.held.free_forgotten(let_go_after(messages));
    }

    /// Takes what is posted out of the server's outboxes.
    pub(crate) fn take_posted<R: Wait>(&mut self, rt: &R, alloc: Global, router: &mut Router<L>)
        // Nothing is left there, unless the server was given up: then nothing goes out.
        ensures all { self.old.is_given_up ≡ false
            → (c : ℕ) → handed_out (waits_for self.new.held.boxes c) ≡ [] }
        ensures none { self.old.is_given_up ≡ true → router.new ≡ router.old }
        ensures answers { router.new.answers ≡ router.old.answers }
        ensures same { self.new.is_given_up ≡ self.old.is_given_up }
    {
        for _ in rt.forever() {
            let Some(sent) = self.next_posted(alloc) else {
                return;
            };
            router.take_replies(rt, sent);
        }
    }

    /// Posts what waits in the server's outboxes.
    pub(crate) fn post_all<R: Wait, P: ReplySink>(&mut self, rt: &R, alloc: Global, posts: &mut P)
        // Nothing is left there, unless the server was given up: then nothing goes out.
        ensures all { self.old.is_given_up ≡ false
            → (c : ℕ) → handed_out (waits_for self.new.held.boxes c) ≡ [] }
        ensures none { self.old.is_given_up ≡ true → posts.new ≡ posts.old }
        ensures same { self.new.is_given_up ≡ self.old.is_given_up }
        ensures server { self.new.held.server ≡ self.old.held.server }
    {
        for _ in rt.forever() {
            let Some(sent) = self.next_posted(alloc) else {
                return;
            };
            posts.post(rt, sent);
        }
    }

    // The next replies that are posted, and whose.
    fn next_posted(&mut self, alloc: Global) -> Option<Sent>
        // Nothing only if nothing is left, or if the server was given up: then nothing goes out.
        ensures all { self.old.is_given_up ≡ false → IfNone result ((c : ℕ)
            → handed_out (waits_for self.new.held.boxes c) ≡ []) }
        ensures none { self.old.is_given_up ≡ true → result ≡ None }
        ensures same { self.new.is_given_up ≡ self.old.is_given_up }
        ensures server { self.new.held.server ≡ self.old.held.server }
    {
        if self.is_given_up {
            return None;
        }
        self.held.drain_next(alloc)
    }
}

// Of how many receipts memory is given back after a group of so many messages: of more than it has
// receipts, so that none are left before there are many again.
fn let_go_after(messages: usize) -> usize
    ensures { result ≡ min (2 * messages + LET_GO) (2 ^ 64 - 1) }
{
    messages.saturating_mul(2).saturating_add(LET_GO)
}
