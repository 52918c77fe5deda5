//! The batch in hand.

ghost use Rattle.std.specs.Prelude.{◌≡◌, ◌+◌, ◌-◌, ◌≤◌, ◌++◌, [], true, false, All, IsTrue, map};
ghost use Rattle.std.specs.Prelude.{length};
ghost use Rattle.std.specs.Prelude.{nat_lt, vec_len, vec_capacity, IfOk};
ghost use Rattle.std.specs.VecDeque.{deque_len};
ghost use Rattle.linda_store_step.specs.declared.size.TheConstants.{MAX_BATCH};
ghost use Rattle.linda_shared_queue.specs.Queue.{line, fits, asks_next};
ghost use Rattle.linda_shared.specs.Batch.{batch_of, parcel, has_copy};
ghost use Rattle.linda_shared.specs.Group.{group_of};

use crate::group::MessageGroup;
use crate::served::ServedGroup;
use crate::settle::settle;
use linda_disk::Disk;
use linda_shared_held::Held;
use linda_shared_queue::{Answer, Queue, ReplySlot, Router, Waiting};
use linda_store_step::MAX_BATCH;
use std::alloc::{AllocError, Global};
use std::marker::Model;
use std::sync::Wait;
use std::sync::ledger::Ledger;

/// The messages in hand, and the answers that go out. Contracts see the messages with their
/// clients, in order, and of each answer whether it has a copy. The client of a message is the one
/// that its answer goes to.
#[derive(Drop)]
pub(crate) struct LeaderBatch<L: Ledger> {
    group: MessageGroup<ReplySlot<L>, L>,
    pub(crate) answers: Vec<Answer<ReplySlot<L>, L>>,
}

impl<L: Ledger> Model for LeaderBatch<L> {
    ghost use Rattle.std.specs.Prelude.{◌≡◌, ◌+◌, ◌≤◌, length, map, vec_len, vec_capacity};
    ghost use Rattle.linda_store_step.specs.declared.size.TheConstants.{MAX_BATCH};
    ghost use Rattle.linda_shared.specs.Batch as seen;
    ghost use Rattle.linda_shared.specs.Batch.{batch_of, has_copy};

    ghost Value = { seen.LeaderBatch };

    ghost view = { λ t. batch_of t.group.messages (map has_copy t.answers.items) };

    ghost invariant = { λ t. (map (λ m. m.0) t.group.messages
        ≡ map (λ a. a.client) t.group.addresses)
        × (t.group.room ≡ MAX_BATCH)
        × (length t.group.messages + vec_len t.answers ≤ MAX_BATCH)
        × (MAX_BATCH ≤ vec_capacity t.answers) };
}

impl<L: Ledger> LeaderBatch<L> {
    /// Nothing is in hand, and there is room for a batch.
    pub(crate) fn new(alloc: Global) -> Result<LeaderBatch<L>, AllocError>
        ensures { IfOk result (λ t. t ≡ batch_of [] []) }
    {
        let group = MessageGroup::new(alloc, MAX_BATCH)?;
        let answers = Vec::with_capacity(alloc, MAX_BATCH)?;
        Ok(LeaderBatch { group, answers })
    }

    /// Takes what waits of one kind, up to a batch.
    pub(crate) fn fill(&mut self, queue: &mut Queue<L>)
        ensures kind { queue.new.has_asked ≡ asks_next (nat_lt 0 (deque_len queue.old.asking))
            (nat_lt 0 (deque_len queue.old.doing)) queue.old.has_asked }
        // The messages in hand, and those of this kind that wait, are the same, in order;
        ensures taken { self.new.messages ++ map parcel (line queue.new.has_asked queue.new)
            ≡ self.old.messages ++ map parcel (line queue.new.has_asked queue.old) }
        // and no call of those that wait fits any more.
        ensures full { fits (MAX_BATCH - length self.new.messages - length self.new.answers)
            (line queue.new.has_asked queue.new) ≡ false }
        ensures answers { self.new.answers ≡ self.old.answers }
    {
        queue.begin();
        for _ in 0..MAX_BATCH {
            let room = MAX_BATCH - self.group.len() - self.answers.len();
            let Some(waiting) = queue.next(room) else {
                break;
            };
            let Waiting { message, asked, .. } = waiting;
            self.group.push(asked.address().client(), message, asked);
        }
    }

    /// Serves all that was asked, and writes an answer with a copy for each. If there is no memory
    /// for all copies, the server is given up, and the answers are lost.
    pub(crate) fn serve<D: Disk>(&mut self, alloc: Global, held: &mut Held<D, L>) -> bool
        ensures served { self.new.messages ≡ [] }
        ensures each { length self.new.answers
            ≡ length self.old.messages + length self.old.answers }
        ensures kept { result ≡ true → All IsTrue self.new.answers }
        ensures down { result ≡ false → held.new.server.down ≡ true }
    {
        let group = std::mem::replace(&mut self.group, MessageGroup::placeholder(alloc));
        let served = group.serve(alloc, held);
        self.group = write_all(alloc, served, &mut self.answers);
        settle(&mut self.answers, held)
    }

    /// The answers, for room to write as many again.
    pub(crate) fn hand_over<R: Wait>(&mut self, rt: &R, router: &mut Router<L>)
        ensures { self.new ≡ batch_of self.old.messages [] }
    {
        router.take_answers(rt, &mut self.answers);
    }
}

// Writes each answer with a copy, and gives the room back.
fn write_all<L: Ledger>(
    alloc: Global,
    served: ServedGroup<ReplySlot<L>, L>,
    answers: &mut Vec<Answer<ReplySlot<L>, L>>,
) -> MessageGroup<ReplySlot<L>, L>
    requires { vec_len answers.old + length served.answers ≤ vec_capacity answers.old }
    ensures group { result ≡ group_of served.room [] [] }
    ensures answers { (vec_len answers.new ≡ vec_len answers.old + length served.answers)
        × (vec_capacity answers.new ≡ vec_capacity answers.old) }
{
    let mut served = served;
    while let Some((_, _, answered)) = served.next() {
        answers.push_reserved(Answer::of(alloc, answered));
    }
    served.into_group()
}
