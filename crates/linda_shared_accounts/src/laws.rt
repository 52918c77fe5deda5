//! Laws of receipts, which follow from the definitions: each stated by the contract of a function
//! that does nothing.

ghost use Rattle.std.specs.Prelude.{◌≡◌, ◌+◌, ℕ, List, [], ◌∷◌, ◌++◌, Option, length, map};
ghost use Rattle.linda_wire.specs.declared.message.Message.{Message};
ghost use Rattle.linda_wire.specs.declared.reply.Reply.{Reply};
ghost use Rattle.linda_store_state.specs.declared.deed.Deed.{Deed};
ghost use Rattle.linda_store_state.specs.State.{State, IsState};
ghost use Rattle.linda_store_state.specs.Proper.{AreDone};
ghost use Rattle.linda_store_step.specs.Soft.{Soft};
ghost use Rattle.linda_store_step.specs.Answer.{Answer};
ghost use Rattle.linda_store_step.specs.Served.{AreAnswered};
ghost use Rattle.linda_shared_accounts.specs.declared.receipt.Receipt.{Receipt};
ghost use Rattle.circular_buffer.specs.Buffer.{last_item};
ghost use Rattle.linda_shared_accounts.specs.Receipts.{deeds_in, AreTrue};
ghost use Rattle.linda_shared_accounts.specs.Ring.{IsRing, IsCut};
ghost use Rattle.linda_shared_accounts.specs.Effect.{weight, weights, told_of};
ghost use Rattle.linda_shared_accounts.specs.Telling.{receipts_in, HasTold, IsTrueOf};

/// The receipts that are reported for messages are those of their deeds, in order, with the replies
/// to them.
pub fn receipts_tell_what_was_done()
    ensures { (base st new : State) (soft behind : Soft) (ms : List (ℕ × Message))
        (before : List Deed)
        (answers : List Answer) → IsState base → AreDone base before st
        → AreAnswered st soft ms answers new behind
        → IsTrueOf base before answers new }
{}

/// If receipts are true, and others are true once the deeds of those are done, then all of them are
/// true in that order.
pub fn true_receipts_go_on()
    ensures { (st : State) (before : List Deed) (rs qs : List Receipt) → AreTrue st before rs
        → AreTrue st (before ++ deeds_in rs) qs → AreTrue st before (rs ++ qs) }
{}

/// There is one report for each message.
pub fn each_message_is_told_once()
    ensures { (st new : State) (soft behind : Soft) (ms : List (ℕ × Message))
        (told : List (Option Receipt))
        (sends : List (ℕ × Reply)) → HasTold st soft ms told sends new behind
        → length told ≡ length ms }
{}

/// The weight of what is reported is the number of receipts.
pub fn receipts_weigh_one_each()
    ensures all { (told : List (Option Receipt))
        → weights (map told_of told) ≡ length (receipts_in told) }
    ensures one_more { (told : List (Option Receipt)) (one : Option Receipt)
        → length (receipts_in (told ++ one ∷ []))
        ≡ length (receipts_in told) + weight (told_of one) }
{}

/// A ring that is cut is a ring, and has the same last receipt; and what is cut twice is cut.
pub fn cut_rings_are_rings()
    ensures ring { (client : ℕ) (old new : List Receipt) → IsRing client old → IsCut old new
        → IsRing client new }
    ensures last { (old new : List Receipt) → IsCut old new → last_item new ≡ last_item old }
    ensures again { (old mid new : List Receipt) → IsCut old mid → IsCut mid new → IsCut old new }
{}
