//! Laws of two banks, which follow from the definitions: each stated by the contract of a function
//! that does nothing.

ghost use Rattle.std.specs.Prelude.{◌≡◌, ◌⊎◌, ℕ, List};
ghost use Rattle.linda_store_state.specs.declared.deed.Deed.{Deed};
ghost use Rattle.linda_store_state.specs.State.{State};
ghost use Rattle.linda_store_state.specs.Proper.{AreDone};
ghost use Rattle.linda_journal.specs.Bank.{IsOldOrMore};
ghost use Rattle.linda_snap.specs.Snapshot.{spell_state};
ghost use Rattle.linda_snap.specs.Stands.{IsInUse, Stands};

/// Two banks represent at most one state.
pub fn two_banks_stand_for_one_state()
    ensures { (left right : List ℕ) (a b : State)
        → Stands left right a → Stands left right b → a ≡ b }
{}

/// While deeds that may be done are appended to the bank in use, what a crash leaves of it always
/// represents the state before them or the state after them.
pub fn an_append_leaves_the_old_state_or_the_new()
    ensures { (file other : List ℕ) (st new : State) (ds : List Deed)
        → (used : IsInUse file other st) → AreDone st ds new → (image : List ℕ)
        → IsOldOrMore used.stands.form used.generation
        (spell_state used.stands.form used.stands.opening) used.stands.records ds image
        → IsInUse image other st ⊎ IsInUse image other new }
{}
