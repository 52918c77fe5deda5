//! Laws of states and deeds, which follow from the definitions: each stated by the contract of a
//! function that does nothing.

ghost use Rattle.std.specs.Prelude.{◌≡◌, ◌≢◌, ℕ, ◌+◌, ◌∷◌, ◌++◌, [], true, List, All, length, Some};
ghost use Rattle.std.specs.FinMap as map;
ghost use Rattle.linda_book.specs.Entries.{left_in};
ghost use Rattle.linda_store_state.specs.declared.deed.Deed.{Deed};
ghost use Rattle.linda_store_state.specs.declared.deed.Deed.TheVariants as deeds;
ghost use Rattle.linda_store_state.specs.Deed.{client_of, number_of};
ghost use Rattle.linda_store_state.specs.State.{State, IsState};
ghost use Rattle.linda_store_state.specs.After.{IsAfter, reply_of_deed};
ghost use Rattle.linda_store_state.specs.Numbers.{kept_sum};
ghost use Rattle.linda_store_state.specs.Proper.{IsAllowed, IsProper, AreDone};
ghost use Rattle.linda_store_state.specs.Once.{IsTakenOnce};

/// Over every proper list of deeds no tuple is taken by two of them.
pub fn no_tuple_is_taken_twice()
    ensures { (st : State) (ds : List Deed) → IsState st → IsProper st ds → IsTakenOnce ds }
{}

/// In a proper list of deeds none of a client comes after its Leave; and what is kept for a client
/// that left stays.
pub fn nothing_follows_a_leave()
    ensures others { (st : State) (front later : List Deed) (c n : ℕ)
        → IsState st → IsProper st (front ++ deeds.Leave c n ∷ later)
        → All (λ (d : Deed). client_of d ≢ c) later }
    ensures stays { (st new : State) (ds : List Deed) (c : ℕ)
        → IsState st → AreDone st ds new → left_in (map.get st.book c) ≡ true
        → map.get new.book c ≡ map.get st.book c }
{}

/// The state after a proper list of deeds is in its ranges: so the ids of its bag are below its
/// next id.
pub fn proper_lists_keep_the_ranges()
    ensures { (st new : State) (ds : List Deed)
        → IsState st → IsProper st ds → IsAfter st ds new → IsState new }
{}

/// Deeds that are done one by one, each if it is allowed, are a proper list, and lead to the state
/// after them all; and no proper list goes on with a deed that is not allowed.
pub fn deeds_are_done_one_by_one()
    ensures none { (st : State) → IsState st → AreDone st [] st }
    ensures more { (st mid new : State) (ds : List Deed) (d : Deed)
        → IsState st → AreDone st ds mid → IsAllowed mid d → IsAfter mid (d ∷ []) new
        → AreDone st (ds ++ d ∷ []) new }
    ensures refused { (st mid : State) (ds later : List Deed) (d : Deed)
        → AreDone st ds mid → (IsAllowed mid d → ⊥) → IsProper st (ds ++ d ∷ later) → ⊥ }
{}

/// Two proper lists of deeds, the second from the state that the first leads to, are one proper
/// list, and lead to the state that the second leads to.
pub fn lists_are_done_one_after_another()
    ensures { (st mid new : State) (ds es : List Deed)
        → IsState st → AreDone st ds mid → AreDone mid es new → AreDone st (ds ++ es) new }
{}

/// A proper list of so many deeds raises the sum of all kept numbers by as many.
pub fn kept_numbers_count_deeds()
    ensures { (st new : State) (ds : List Deed)
        → IsState st → AreDone st ds new → kept_sum new ≡ kept_sum st + length ds }
{}

/// The reply to a deed after others: in the state that these led to it is the reply after them, and
/// the book has it once the deed is done.
pub fn replies_look_back()
    ensures behind { (st mid : State) (ds : List Deed) (d : Deed)
        → IsState mid → IsAfter st ds mid → reply_of_deed mid [] d ≡ reply_of_deed st ds d }
    ensures kept { (st new : State) (d : Deed)
        → IsAfter st (d ∷ []) new
        → map.get new.book (client_of d) ≡ Some (number_of d, reply_of_deed st [] d) }
{}
