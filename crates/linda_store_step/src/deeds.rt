//! Questions about a server's deeds, answered by a list of them or by what it sent.

ghost use Rattle.std.specs.Prelude.{◌≡◌, ◌==◌, ℕ, Some, Contains, IfSome, IfNone};
ghost use Rattle.linda_store_state.specs.declared.deed.Deed.TheVariants.{Take};
ghost use Rattle.linda_store_state.specs.Once.{IsTakenOnce};
ghost use Rattle.linda_store_state.specs.State.{State, IsState};
ghost use Rattle.linda_store_step.specs.Soft.{Soft};
ghost use Rattle.linda_store_step.specs.Answer as answers;
ghost use Rattle.linda_store_step.specs.Answer.{Answer, IsStep};
ghost use Rattle.linda_store_step.specs.Deeds.{last_in};
ghost use Rattle.linda_store_step.specs.Reported as spec;
ghost use Rattle.linda_store_step.specs.Reported.{number_of_message};

use linda_store_state::Deed;
use linda_wire::{Message, Reply};

/// The number of the client's last deed among these, 0 if it did none. The search starts at the
/// end, so a recent deed is found soon.
pub fn last_number(deeds: &[Deed], client: u32) -> u64
    ensures { result ≡ last_in deeds.now client }
{
    let mut left = deeds.len();
    while left > 0 {
        left -= 1;
        let deed = &deeds[left];
        if deed.client() == client {
            return deed.number();
        }
    }
    0
}

/// The client that takes the tuple of this id by one of these deeds, and the number of that deed;
/// `None` only if no deed takes the tuple.
pub fn taker_of(deeds: &[Deed], id: u64) -> Option<(u32, u64)>
    ensures found { IfSome result (λ taker. Contains deeds.now (Take taker.0 taker.1 id)) }
    ensures none { IfNone result ((c n : ℕ) → Contains deeds.now (Take c n id) → ⊥) }
    ensures one { IsTakenOnce deeds.now
        → (c n : ℕ) → Contains deeds.now (Take c n id) → result ≡ Some (c, n) }
{
    for deed in deeds {
        if let Some(taker) = takes(deed, id) {
            return Some(taker);
        }
    }
    None
}

// The client of the deed and its number, if it takes the tuple of this id.
fn takes(deed: &Deed, id: u64) -> Option<(u32, u64)>
    ensures found { IfSome result (λ taker. deed.now ≡ Take taker.0 taker.1 id) }
    ensures none { IfNone result ((c n : ℕ) → deed.now ≡ Take c n id → ⊥) }
{
    match deed {
        Deed::Take {
            client,
            n,
            id: taken,
        } if *taken == id => Some((*client, *n)),
        _ => None,
    }
}

/// The deed that a server did for the client's message, if it did one: known from the client's last
/// number before the message, and from what the server sent.
pub fn reported_deed(
    client: u32,
    message: Message,
    last: u64,
    sends: &[(u32, Reply)],
) -> Option<Deed>
    ensures deed { result ≡ spec.reported_deed client message last sends.now }
    ensures done { (st new : State) (old : Soft) (answered : Answer)
        → IsState st → IsStep st old client message answered new
        → answers.last_number st client ≡ last → answered.sends ≡ sends.now
        → result ≡ answered.deed }
{
    if comes_next(&message, last) {
        deed_behind(client, message, sends)
    } else {
        None
    }
}

/// Whether the message bears a number, and it is the one after `last`.
pub fn comes_next(message: &Message, last: u64) -> bool
    ensures { result ≡ spec.comes_next (number_of_message message.now) last }
{
    match message {
        Message::Out { n, .. } => last.checked_add(1) == Some(*n),
        Message::Accept { n, .. } => last.checked_add(1) == Some(*n),
        Message::Leave { n } => last.checked_add(1) == Some(*n),
        _ => false,
    }
}

// The deed that the first reply to the client's message reports.
fn deed_behind(client: u32, message: Message, sends: &[(u32, Reply)]) -> Option<Deed>
    ensures { result ≡ spec.deed_behind client message sends.now }
{
    match (message, sends) {
        (Message::Out { n, tuple }, [(_, Reply::Stored { .. }), ..]) => {
            Some(Deed::Out { client, n, tuple })
        }
        (Message::Accept { n, id, .. }, [(_, Reply::Taken { .. }), ..]) => {
            Some(Deed::Take { client, n, id })
        }
        (Message::Accept { n, id, .. }, [(_, Reply::Gone { .. }), ..]) => {
            Some(Deed::Pass { client, n, id })
        }
        (Message::Leave { n }, [(_, Reply::Left { .. }), ..]) => Some(Deed::Leave { client, n }),
        _ => None,
    }
}
