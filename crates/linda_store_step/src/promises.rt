//! Promises of states, deeds and steps, which follow from the definitions: each stated by the
//! contract of a function that does nothing.

ghost use Rattle.std.specs.Prelude.{◌≡◌, ℕ, List, ◌-◌, Some, Contains, All};
ghost use Rattle.std.specs.List.{slice_get};
ghost use Rattle.linda_tuple.specs.Tuple.{Tuple};
ghost use Rattle.linda_wire.specs.declared.message.Message.{Message};
ghost use Rattle.linda_wire.specs.declared.reply.Reply.{Reply};
ghost use Rattle.linda_wire.specs.declared.reply.Reply.TheVariants as replies;
ghost use Rattle.linda_store_state.specs.declared.deed.Deed.{Deed};
ghost use Rattle.linda_store_state.specs.declared.deed.Deed.TheVariants.{Take};
ghost use Rattle.linda_store_state.specs.Deed.{outs_of};
ghost use Rattle.linda_store_state.specs.Once.{IsTakenOnce};
ghost use Rattle.linda_store_state.specs.Proper.{IsProper};
ghost use Rattle.linda_store_state.specs.State.{State, IsState, empty_state};
ghost use Rattle.linda_store_step.specs.Soft.{Soft, Bagged};
ghost use Rattle.linda_store_step.specs.Dispatch.{on_close};
ghost use Rattle.linda_store_step.specs.Answer.{Answer, IsStep, last_number};
ghost use Rattle.linda_store_step.specs.History.{Coming, says, History, Happens};
ghost use Rattle.linda_store_step.specs.Covered.{IsCovered};
ghost use Rattle.linda_store_step.specs.Offers.{OffersWhatIsSought};
ghost use Rattle.linda_store_step.specs.Deeds.{HandsOver, NumbersEachOnce, PassesOn};
ghost use Rattle.linda_store_step.specs.Replies.{KeepsReports, ReportsOne};
ghost use Rattle.linda_store_step.specs.Reported.{DoesAsAsked, HoldsWhatIsThere, IsDeedOf};
ghost use Rattle.linda_store_step.specs.Reported.{reported_deed};

/// What a step sends of a deed is what the book has for that client once the step is over.
pub fn what_is_reported_is_kept()
    ensures { (st new : State) (soft : Soft) (c : ℕ) (m : Message) (answered : Answer)
        → IsState st → IsStep st soft c m answered new → KeepsReports new answered.sends }
{}

/// When a client is closed, what it held is offered only to requests that wait for such a tuple.
pub fn closings_offer_only_what_is_sought()
    ensures { (bag : Bagged) (x : Coming) (client : ℕ) (old : Soft)
        → OffersWhatIsSought bag x old (on_close bag client old).sends
        (on_close bag client old).soft }
{}

/// A step offers a tuple only to a request that seeks such a one: one that waits, or the Ask that
/// came.
pub fn steps_offer_only_what_is_sought()
    ensures { (st new : State) (old : Soft) (c : ℕ) (m : Message) (answered : Answer)
        → IsState st → IsStep st old c m answered new
        → OffersWhatIsSought new.bag (says c m) old answered.sends answered.soft }
{}

/// Of a proper list: the tuple that a Take names was put once and is taken once, by that deed's
/// client, and no later bag has it.
pub fn takes_hand_over_what_was_put()
    ensures { (ds : List Deed) (c n id : ℕ)
        → IsProper empty_state ds → Contains ds (Take c n id)
        → (tuple : Tuple) × HandsOver ds c id tuple }
{}

/// If no tuple is taken twice, two Takes of one tuple are one deed.
pub fn two_takes_of_a_tuple_are_one()
    ensures { (ds : List Deed) (c d n m id : ℕ)
        → IsTakenOnce ds → Contains ds (Take c n id) → Contains ds (Take d m id)
        → Take c n id ≡ Take d m id }
{}

/// Each number of a client belongs to only one deed. A client that gets the reply Taken did that
/// Take, and the reply has the tuple that was put under the id. A client that gets the reply Gone
/// passed on, and took nothing by that number.
pub fn replies_report_what_was_done()
    ensures once { (ds : List Deed) → IsProper empty_state ds → NumbersEachOnce ds }
    ensures taken { (ds : List Deed) (c n id : ℕ) (tuple : Tuple)
        → ReportsOne ds c (replies.Taken n id tuple) → Contains ds (Take c n id) }
    ensures tuple { (ds : List Deed) (c n id : ℕ) (tuple : Tuple)
        → ReportsOne ds c (replies.Taken n id tuple)
        → slice_get (outs_of ds) (id - 1) ≡ Some tuple }
    ensures gone { (ds : List Deed) (c n : ℕ)
        → IsProper empty_state ds → ReportsOne ds c (replies.Gone n) → PassesOn ds c n }
{}

/// A step does no deed but the one that its message asks for, and an offer that was accepted is
/// held no more.
pub fn steps_do_as_they_are_asked()
    ensures { (st new : State) (c : ℕ) (old : Soft) (m : Message) (answered : Answer) (d : Deed)
        → HoldsWhatIsThere st old → IsStep st old c m answered new → answered.deed ≡ Some d
        → DoesAsAsked c m answered.soft d }
{}

/// The deed of a step can be known from its message, the client's last number before it, and what
/// is sent.
pub fn replies_tell_the_deed()
    ensures { (st new : State) (c : ℕ) (old : Soft) (m : Message) (answered : Answer)
        → IsState st → IsStep st old c m answered new
        → answered.deed ≡ reported_deed c m (last_number st c) answered.sends }
{}

/// The deed of a step is one that its client's message asks for, no matter what the server held
/// before.
pub fn deeds_are_those_asked_for()
    ensures { (st new : State) (c : ℕ) (old : Soft) (m : Message) (answered : Answer) (d : Deed)
        → IsStep st old c m answered new → answered.deed ≡ Some d → IsDeedOf c m d }
{}

/// After all that comes to a server, what was covered before is still covered, and so is all that
/// was sent: the book has each reply that reports a deed until its client has done a later deed.
pub fn what_is_covered_stays_so()
    ensures stays { (st : State) (soft : Soft) (xs : List Coming) (all : History) (send : ℕ × Reply)
        → IsState st → Happens st soft xs all → IsCovered st send → IsCovered all.state send }
    ensures sent { (st : State) (soft : Soft) (xs : List Coming) (all : History)
        → IsState st → Happens st soft xs all → All (IsCovered all.state) all.sends }
{}
