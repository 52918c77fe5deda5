//! Laws of every world that a run leads to, and of every step: each stated in the contract of a
//! function that only calls the laws of the layers below.

ghost use Rattle.std.specs.Prelude.{◌≡◌, ◌≤◌, ℕ, List, [], ◌∷◌, length, Ok, IfSome, option_to_list};
ghost use Rattle.linda_client.specs.declared.limits.TheConstants.{MAX_SERVERS};
ghost use Rattle.linda_wire.specs.declared.message.Message.{Message};
ghost use Rattle.linda_wire.specs.declared.reply.Reply.{Reply};
ghost use Rattle.linda_store_state.specs.declared.deed.Deed.{Deed};
ghost use Rattle.linda_store_step.specs.History.{says};
ghost use Rattle.linda_store_step.specs.Reported.{reported_deed};
ghost use Rattle.linda_store_step.specs.Deeds.{last_in as last_number};
ghost use Rattle.linda_store.specs.Node.{Node, Sent, Works};
ghost use Rattle.linda_store.specs.Sound.{IsSound};
ghost use Rattle.linda_world_laws.specs.declared.event.WorldEvent.{WorldEvent};
ghost use Rattle.linda_world_laws.specs.declared.seen.Seen.{Seen};
ghost use Rattle.linda_world_laws.specs.World.{World, handed_by};
ghost use Rattle.linda_world_laws.specs.Steps.{Told, Steps};
ghost use Rattle.linda_world_laws.specs.Reached.{IsReached};
ghost use Rattle.linda_world_laws.specs.Promises.{AreHeldRightly, DeedsStay, IsHanded, IsSafe};
ghost use Rattle.linda_world_laws.specs.Honest.{OfServers};
ghost use Rattle.linda_world_laws.specs.Below.{OfSound, OfDeeds, OfSteps, OfCalls};

use linda_client::{
    calls_keep_clients, numbers_go_on, offers_are_treated, offers_in_hand_are_kept,
    only_a_taken_takes, packets_are_sound, synchronizations_go_on,
};
use linda_store::{
    a_server_stays_sound, closings_offer_only_what_is_sought, no_tuple_is_taken_twice,
    replies_report_what_was_done, replies_tell_the_deed, steps_do_as_they_are_asked,
    steps_offer_only_what_is_sought, takes_hand_over_what_was_put, two_takes_of_a_tuple_are_one,
};

/// No tuple is taken twice. What clients were given, over all of them, are pairs that differ; each
/// was put once and taken once, by that client; each reply that reports a deed is the book's for
/// one of its server's; and a Gone reports an Accept that took nothing, and never will.
pub fn worlds_are_safe()
    ensures { (w : World) → IsReached w → IsSafe w }
{
    laws_below();
}

/// Each tuple that is held at a server that is up is held for a ticket that is open, or a Cancel of
/// that ticket was sent, or an Offer of the very tuple that was put under its id was sent and never
/// delivered.
pub fn holds_have_reasons()
    ensures { (w : World) → IsReached w → AreHeldRightly w }
{
    laws_below();
}

/// The tuple that a client is given by a step is the one that was put under its id, and that this
/// client took.
pub fn what_is_handed_over_was_put()
    ensures { (w new : World) (event : WorldEvent) (seen : Seen) → IsReached w
        → Steps w event (Ok seen) new
        → IfSome seen.client (λ c. IsHanded new c (handed_by seen.outcome)) }
{
    laws_below();
}

/// What servers did stays, at each step, and more comes after it.
pub fn deeds_stay()
    ensures { (w new : World) (event : WorldEvent) (told : Told) → Steps w event told new
        → DeedsStay w new }
{}

/// The deeds of each server are a proper list, and the state of its node is the one after them.
pub fn servers_stay_sound()
    ensures { (w : World) → IsReached w
        → OfServers w (λ s server. IsSound server.deeds server.node) }
{
    laws_below();
}

/// A world has 1 to 16 servers.
pub fn servers_are_few()
    ensures some { (w : World) → IsReached w → 1 ≤ length w.servers }
    ensures few { (w : World) → IsReached w → length w.servers ≤ MAX_SERVERS }
{
    laws_below();
}

/// Which deed a node did for a message follows from the deeds of before and from what it sends.
pub fn deeds_are_learned()
    ensures { (ds es : List Deed) (old new : Node) (c : ℕ) (m : Message) (sends : List (ℕ × Reply))
        → IsSound ds old → Works old (says c m ∷ []) (Sent sends) es new
        → es ≡ option_to_list (reported_deed c m (last_number ds c) sends) }
{
    replies_tell_the_deed();
}

// The laws of the layers below.
fn laws_below()
    ensures sound { OfSound }
    ensures deeds { OfDeeds }
    ensures steps { OfSteps }
    ensures calls { OfCalls }
{
    a_server_stays_sound();
    no_tuple_is_taken_twice();
    takes_hand_over_what_was_put();
    two_takes_of_a_tuple_are_one();
    replies_report_what_was_done();
    steps_offer_only_what_is_sought();
    closings_offer_only_what_is_sought();
    steps_do_as_they_are_asked();
    calls_keep_clients();
    numbers_go_on();
    packets_are_sound();
    synchronizations_go_on();
    only_a_taken_takes();
    offers_are_treated();
    offers_in_hand_are_kept();
}
