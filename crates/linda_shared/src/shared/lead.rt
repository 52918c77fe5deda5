//! Groups: one session serves what waits, and the next one leads while the answers are given out.

use super::Shared;
use linda_disk::Disk;
use linda_shared_queue::{Answer, Mailbox, Recipient};
use std::sync::Wait;
use std::sync::ledger::Ledger;

impl<D: Disk, L: Ledger> Shared<D, L> {
    // Waits for the answer of this place, and leads a group if it is the session's turn.
    pub(super) fn answer<R: Wait>(
        &self,
        rt: &R,
        mailbox: &Mailbox<L>,
        place: usize,
        leads: bool,
    ) -> Answer<Recipient, L> {
        let mut leads = leads;
        for _ in rt.forever() {
            if leads {
                self.lead(rt);
            }
            let (is_to_lead, answer) = mailbox.wait_turn(rt, place);
            if let Some(answer) = answer {
                return answer;
            }
            leads = is_to_lead;
        }
        unreachable!()
    }

    // Serves a group, lets the server go to the next leader, and then gives out what the group came
    // to.
    fn lead<R: Wait>(&self, rt: &R) {
        let mut locked = self.locked.lock(rt);
        locked.batch.fill(&mut self.queue.lock(rt));
        locked.serve(self.alloc);
        let served = locked.batch.answers.len();
        let is_down = locked.held.is_down();
        let mut router = self.router.lock(rt);
        locked.batch.hand_over(rt, &mut router);
        locked.take_posted(rt, self.alloc, &mut router);
        locked.forget(self.alloc, served);
        drop(locked);
        self.queue.lock(rt).pass_on(rt);
        router.deliver(rt);
        if is_down {
            router.end_all(rt);
        }
    }
}
