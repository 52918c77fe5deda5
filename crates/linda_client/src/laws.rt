//! Laws of a client, of each call and of many: each stated in the contract of a function that does
//! nothing.
//!
//! `react` says case by case what a call comes to. These laws state what always holds, whatever is
//! called and whatever servers reply, in any order and however often.

ghost use Rattle.std.specs.Prelude.{◌≤◌, ℕ, All};
ghost use Rattle.linda_client.specs.declared.limits.TheConstants.{MAX_SERVERS};
ghost use Rattle.linda_client.specs.Client.{IsClient, pending_in};
ghost use Rattle.linda_client.specs.Ending.{TakenBy};
ghost use Rattle.linda_client.specs.History.{FromNew, NumbersAreOnce, TicketsAreOnce, all_sent};
ghost use Rattle.linda_client.specs.History.{end_count, sync_count};
ghost use Rattle.linda_client.specs.Leaving.{LeavesForGood, SendsNoMore};
ghost use Rattle.linda_client.specs.Numbers.{NumbersGoOn, Rises, number_of};
ghost use Rattle.linda_client.specs.Offers.{KeepsOffers, TreatsOffers};
ghost use Rattle.linda_client.specs.Progress.{GoesOn, IsSoundPacket};
ghost use Rattle.linda_client.specs.React.{AtEachCall, new_client};
ghost use Rattle.linda_client.specs.Uses.{AreUsedOnce, RepeatsAreOld, ticket_of};

/// A new client is as every client is, and so is a client after each call.
pub fn calls_keep_clients()
    ensures new { (number count : ℕ) → 1 ≤ count → count ≤ MAX_SERVERS
        → IsClient (new_client number count) }
    ensures kept { AtEachCall (λ c call r. IsClient r.client) }
{}

/// Next numbers and tickets never fall. A numbered message that is sent to a server is one that it
/// had not answered, as it was, or a new one, under the next number there, which then is one
/// greater; and what is unanswered stays so until its server answers its number.
pub fn numbers_go_on()
    ensures rises { AtEachCall (λ c call r. Rises c r.client) }
    ensures numbers { AtEachCall NumbersGoOn }
{}

/// Every packet goes to a server that is there, and each Ask is that of a ticket that is open.
pub fn packets_are_sound()
    ensures { AtEachCall (λ c call r. All (IsSoundPacket r.client) r.packets) }
{}

/// A client that has left stays so, and only Cancels come of it; and the outcome is Left exactly if
/// it leaves. From a new client, whatever is called and whatever comes: after the outcome Left only
/// Cancels are sent.
pub fn clients_leave_for_good()
    ensures leaves { AtEachCall (λ c call r. LeavesForGood c r) }
    ensures after { FromNew SendsNoMore }
{}

/// A pending synchronization goes on with its event and its tickets until it ends, with its
/// Cancels, and a new one begins only by a call of `sync`. Its Accept goes only by an answer; while
/// it stays, what is saved only grows, and when its offer is gone exactly the oldest that was saved
/// is saved no more.
pub fn synchronizations_go_on()
    ensures { AtEachCall (λ c call r. GoesOn c call (pending_in c.task) r) }
{}

/// What an outcome says was taken was taken by the Taken that answers the unanswered Accept, and by
/// nothing else.
pub fn only_a_taken_takes()
    ensures { AtEachCall (λ c call r. TakenBy c call r.outcome) }
{}

/// An offer that comes for a ticket that is not open is cancelled, and that is all. One that fits
/// an open ticket is saved if an Accept is unanswered, and accepted if none is.
pub fn offers_are_treated()
    ensures { AtEachCall TreatsOffers }
{}

/// An offer that is in hand, saved or accepted under a number beyond the last that its server has
/// answered, stays in hand until its ticket is cancelled at its server or its Accept is answered.
pub fn offers_in_hand_are_kept()
    ensures { AtEachCall KeepsOffers }
{}

/// From a new client, whatever is called and whatever comes: two numbered messages to one server
/// under one number are the same, and over all calls at most one is sent anew.
pub fn no_number_is_used_twice()
    ensures same { FromNew (λ acts. NumbersAreOnce (all_sent acts)) }
    ensures once { FromNew (AreUsedOnce number_of) }
{}

/// From a new client, whatever is called and whatever comes: two Asks under one ticket ask the
/// same, at whichever servers, and over all calls at most one to each server is sent anew.
pub fn no_ticket_is_used_twice()
    ensures same { FromNew (λ acts. TicketsAreOnce (all_sent acts)) }
    ensures once { FromNew (AreUsedOnce ticket_of) }
{}

/// From a new client, whatever is called and whatever comes: what `resend` and `reconnected` send
/// was sent anew before.
pub fn repeats_send_nothing_new()
    ensures { FromNew RepeatsAreOld }
{}

/// From a new client, whatever is called and whatever comes: there are never more ends of
/// synchronizations than calls of `sync` that were answered.
pub fn synchronizations_end_once()
    ensures { FromNew (λ acts. end_count acts ≤ sync_count acts) }
{}
