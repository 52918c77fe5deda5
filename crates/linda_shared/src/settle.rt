//! Answers of a group, once it is settled whether all have their copies.

ghost use Rattle.std.specs.Prelude.{◌≡◌, true, false, not, map, vec_len, vec_capacity};
ghost use Rattle.linda_shared.specs.Batch.{has_copy, all_true};

use linda_disk::Disk;
use linda_shared_held::Held;
use linda_shared_queue::{Answer, ReplySlot};
use std::sync::ledger::Ledger;

/// Whether all answers have their copies, and so may go out. Else the server is given up, and
/// all are lost.
pub(crate) fn settle<D: Disk, L: Ledger>(
    answers: &mut Vec<Answer<ReplySlot<L>, L>>,
    held: &mut Held<D, L>,
) -> bool
    ensures is { result ≡ all_true (map has_copy answers.old.items) }
    ensures kept { result ≡ true → (answers.new.items ≡ answers.old.items)
        × (held.new ≡ held.old) }
    ensures down { result ≡ false → held.new.server.down ≡ true }
    ensures each { (vec_len answers.new ≡ vec_len answers.old)
        × (vec_capacity answers.new ≡ vec_capacity answers.old) }
{
    if !has_lost(answers) {
        return true;
    }
    held.give_up();
    lose_all(answers);
    false
}

// Whether one of these is lost.
fn has_lost<L: Ledger>(answers: &[Answer<ReplySlot<L>, L>]) -> bool
    ensures { result ≡ not (all_true (map has_copy answers.now)) }
{
    let mut rest = answers;
    while let [first, others @ ..] = rest {
        if first.is_lost() {
            return true;
        }
        rest = others;
    }
    false
}

// All of these are lost.
fn lose_all<L: Ledger>(answers: &mut Vec<Answer<ReplySlot<L>, L>>)
    ensures { (vec_len answers.new ≡ vec_len answers.old)
        × (vec_capacity answers.new ≡ vec_capacity answers.old) }
{
    for index in 0..answers.len() {
        answers[index].lose();
    }
}
