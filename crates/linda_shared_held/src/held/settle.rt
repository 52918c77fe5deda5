//! Reports to sessions: to each place what its message led to, with a part of the ledger.

ghost use Rattle.std.specs.Prelude.{◌≡◌, ◌+◌, ◌≤◌, ◌<◌, ◌^◌, ◌++◌, length, map, reverse, replicate};
ghost use Rattle.std.specs.Prelude.{vec_len, vec_capacity};
ghost use Rattle.linda_shared_accounts.specs.Telling.{receipts_in};
ghost use Rattle.linda_shared_accounts.specs.Accounts.{accounts_of};
ghost use Rattle.linda_shared_accounts.specs.Effect.{weight, told_of};

use linda_shared_accounts::{Accounts, Ack, Effect, PendingAck, SharedFault, SharedReceipt};
use std::sync::ledger::Ledger;

// Reports what one message led to, and counts its deed.
fn settle<A: Drop, L: Ledger>(
    accounts: &mut Accounts<L>,
    count: &mut u64,
    asked: PendingAck<A, L>,
    receipt: Option<SharedReceipt>,
) -> Ack<A, L>
    requires { (count.old + weight (told_of receipt) < 2 ^ 64) × (accounts.old.total ≡ count.old) }
    ensures accounts { accounts.new ≡ accounts_of (accounts.old.total + weight (told_of receipt))
        accounts.old.places }
    ensures count { count.new ≡ count.old + weight (told_of receipt) }
    ensures told { (result.told ≡ told_of receipt) × (result.address ≡ asked.address) }
{
    let told = Effect::of(receipt);
    *count += told.weight();
    asked.answered(accounts, told)
}

/// Reports what each message led to, and counts the deeds.
#[tactic(auto, using(crate::proofs::ToldLaws::receipts_snoc, crate::proofs::ToldLaws::map_back, crate::proofs::ToldLaws::behind))]
pub(super) fn settle_all<A: Drop, L: Ledger>(
    accounts: &mut Accounts<L>,
    count: &mut u64,
    asked: &mut Vec<PendingAck<A, L>>,
    answered: &mut Vec<Ack<A, L>>,
    told: &mut Vec<Option<SharedReceipt>>,
)
    requires room { vec_len answered.old + vec_len asked.old ≤ vec_capacity answered.old }
    requires countable { count.old + length (receipts_in told.old.items) < 2 ^ 64 }
    requires one_each { vec_len told.old ≡ vec_len asked.old }
    requires total { accounts.old.total ≡ count.old }
    ensures accounts { accounts.new ≡ accounts_of
        (accounts.old.total + length (receipts_in told.old.items)) accounts.old.places }
    ensures count { count.new ≡ count.old + length (receipts_in told.old.items) }
    ensures asked { (vec_len asked.new ≡ 0) × (vec_capacity asked.new ≡ vec_capacity asked.old) }
    ensures answered { (vec_len answered.new ≡ vec_len answered.old + vec_len asked.old)
        × (vec_capacity answered.new ≡ vec_capacity answered.old) }
    // What is reported of each message is what its answer says, that of the last one first.
    ensures told { map (λ a. a.told) answered.new.items
        ≡ map (λ a. a.told) answered.old.items ++ reverse (map told_of told.old.items) }
    ensures addresses { map (λ a. a.address) answered.new.items
        ≡ map (λ a. a.address) answered.old.items
        ++ reverse (map (λ a. a.address) asked.old.items) }
{
    while let Some(job) = asked.pop() {
        let Some(receipt) = told.pop() else {
            unreachable!()
        };
        answered.push_reserved(settle(accounts, count, job, receipt));
    }
}

/// Reports of each message that nothing was done.
#[tactic(auto, using(crate::proofs::ToldLaws::map_back, crate::proofs::ToldLaws::behind))]
pub(super) fn fail_all<A: Drop, L: Ledger>(
    accounts: &mut Accounts<L>,
    asked: &mut Vec<PendingAck<A, L>>,
    answered: &mut Vec<Ack<A, L>>,
    fault: SharedFault,
)
    requires { vec_len answered.old + vec_len asked.old ≤ vec_capacity answered.old }
    ensures accounts { accounts.new ≡ accounts.old }
    ensures asked { (vec_len asked.new ≡ 0) × (vec_capacity asked.new ≡ vec_capacity asked.old) }
    ensures answered { (vec_len answered.new ≡ vec_len answered.old + vec_len asked.old)
        × (vec_capacity answered.new ≡ vec_capacity answered.old) }
    ensures told { map (λ a. a.told) answered.new.items
        ≡ map (λ a. a.told) answered.old.items
        ++ replicate (vec_len asked.old) (Effect.Failed fault) }
    ensures addresses { map (λ a. a.address) answered.new.items
        ≡ map (λ a. a.address) answered.old.items
        ++ reverse (map (λ a. a.address) asked.old.items) }
{
    while let Some(job) = asked.pop() {
        let _ = accounts.total();
        answered.push_reserved(job.answered(accounts, Effect::Failed(fault)));
    }
}
