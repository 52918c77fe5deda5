//! Laws of states, deeds and steps, which follow from the definitions: each stated in the contract
//! of a function that does nothing.

ghost use Rattle.std.specs.Prelude.{◌≡◌, ℕ, ◌++◌, true, List, Option, Some, IsSome, option_to_list};
ghost use Rattle.std.specs.FinMap as map;
ghost use Rattle.linda_hold.specs.declared.request.Request.{Request};
ghost use Rattle.linda_hold.specs.Holds.{IsHeldAt, IsOneEach};
ghost use Rattle.linda_wire.specs.declared.message.Message.{Message};
ghost use Rattle.linda_store_state.specs.declared.deed.Deed.{Deed};
ghost use Rattle.linda_store_state.specs.declared.deed.Deed.TheVariants.{Leave};
ghost use Rattle.linda_store_state.specs.State.{State, IsState};
ghost use Rattle.linda_store_step.specs.Soft.{Soft, Bagged, IsSoft};
ghost use Rattle.linda_store_step.specs.Dispatch.{on_cancel, on_close};
ghost use Rattle.linda_store_state.specs.Proper.{AreDone};
ghost use Rattle.linda_store_step.specs.Answer.{Answer, IsAnswer, IsStep, has_left};
ghost use Rattle.linda_store_step.specs.History.{Coming, History, Happens, Answers};
ghost use Rattle.linda_store_step.specs.Course.{Turn, Endures};
ghost use Rattle.linda_store_step.specs.Store.{IsOrderly};
ghost use Rattle.linda_store_step.specs.Promises.{IsAnsweredAsKept, IsAnsweredAgain, IsSafe};
ghost use Rattle.linda_store_step.specs.Promises.{IsOver, IsClosed, IsAway};

/// The deeds of steps, one after another, are a proper list, and the state is the one after them.
pub fn steps_do_proper_lists()
    ensures { (st mid new : State) (soft : Soft) (ds : List Deed) (c : ℕ) (m : Message)
        (answered : Answer)
        → IsState st → AreDone st ds mid → IsStep mid soft c m answered new
        → AreDone st (ds ++ option_to_list answered.deed) new }
{}

/// A step that does a deed is answered with the reply that the book then keeps.
pub fn deeds_are_answered_as_kept()
    ensures { (st new : State) (soft : Soft) (c : ℕ) (m : Message) (answered : Answer)
        → IsState st → IsStep st soft c m answered new → IsSome answered.deed
        → IsAnsweredAsKept c answered.sends new }
{}

/// A message has one answer, if no request holds two tuples.
pub fn one_answer()
    ensures { (st : State) (soft : Soft) (c : ℕ) (m : Message) (a b : Answer)
        → IsOneEach soft.holds → IsAnswer st soft c m a → IsAnswer st soft c m b → a ≡ b }
{}

/// All that comes to a server in order has an outcome: a message has an answer, and a list of
/// messages and closings has a history.
pub fn all_that_comes_has_an_outcome()
    ensures message { (st : State) (soft : Soft) (c : ℕ) (m : Message) → IsOrderly st soft
        → (answered : Answer) × ((new : State) × IsStep st soft c m answered new) }
    ensures comings { (st : State) (soft : Soft) (xs : List Coming) → IsOrderly st soft
        → (all : History) × Happens st soft xs all }
{}

/// Each step leaves a server as every store is: in its ranges, and with nobody who waits in vain.
pub fn steps_keep_order()
    ensures { (st new : State) (soft : Soft) (c : ℕ) (m : Message) (answered : Answer)
        → IsOrderly st soft → IsStep st soft c m answered new → IsOrderly new answered.soft }
{}

/// After any messages of any clients and any ends of their connections, in any order and any
/// number: the deeds are a proper list, so no tuple is taken twice, and the server is in order in
/// the state after them.
pub fn no_history_takes_a_tuple_twice()
    ensures { (st : State) (soft : Soft) (xs : List Coming) (all : History)
        → IsOrderly st soft → Happens st soft xs all → IsSafe st all }
{}

/// Several messages, one after another, have one outcome, and so has all else that comes: the deeds
/// and sends, and the server then.
pub fn a_list_has_one_outcome()
    ensures messages { (st : State) (soft : Soft) (ms : List (ℕ × Message)) (a b : History)
        → IsOrderly st soft → Answers st soft ms a → Answers st soft ms b → a ≡ b }
    ensures comings { (st : State) (soft : Soft) (xs : List Coming) (a b : History)
        → IsOrderly st soft → Happens st soft xs a → Happens st soft xs b → a ≡ b }
{}

/// No tuple is taken twice even if the server is stopped, at any point and any number of times: it
/// comes back with some first deeds of what was in hand.
pub fn no_history_with_stops_takes_a_tuple_twice()
    ensures { (st : State) (soft : Soft) (xs : List Turn) (all : History)
        → IsOrderly st soft → Endures st soft xs all → IsSafe st all }
{}

/// A message that did a deed, and comes again while the client's entry is as that left it, gets the
/// same reply again, whatever else has happened; and nothing else is done or sent.
pub fn a_repeated_message_gets_the_same_reply()
    ensures { (st new later : State) (soft asks : Soft) (c : ℕ) (m : Message) (first again : Answer)
        → IsState st → IsStep st soft c m first new → IsSome first.deed
        → map.get later.book c ≡ map.get new.book c → IsAnswer later asks c m again
        → IsAnsweredAgain c first again asks }
{}

/// A request that is given up neither waits nor holds.
pub fn a_cancelled_request_is_over()
    ensures { (bag : Bagged) (request : Request) (held : Option ℕ) (soft : Soft)
        → IsSoft bag soft → IsHeldAt soft.holds request held
        → IsOver request (on_cancel bag request held soft).soft }
{}

/// A client that is closed has no request that waits or holds, and nothing is sent to it.
pub fn a_closed_client_asks_nothing()
    ensures { (bag : Bagged) (client : ℕ) (soft : Soft)
        → IsSoft bag soft → IsClosed client (on_close bag client soft) }
{}

/// Once a client's Leave is done it has left for good: after all that comes to the server, and
/// after stops, what is kept for it is the same, no deed is its own, and it holds nothing and does
/// not wait. The only replies to it say that it left or that a number is older, or answer a Hello
/// as for any client.
pub fn a_client_that_left_stays_away()
    ensures leaves { (st new : State) (soft : Soft) (c d n : ℕ) (m : Message) (answered : Answer)
        → IsState st → IsStep st soft c m answered new → answered.deed ≡ Some (Leave d n)
        → has_left new d ≡ true }
    ensures stays { (st : State) (soft : Soft) (xs : List Turn) (all : History) (c : ℕ)
        → IsOrderly st soft → has_left st c ≡ true → Endures st soft xs all → IsAway st c all }
{}
