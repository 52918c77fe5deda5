//! Laws of the grammar of events.

ghost use Rattle.std.specs.Prelude.{◌≡◌, List, ℕ};
ghost use Rattle.linda_event.specs.Trees.{Tree};
ghost use Rattle.linda_text.specs.Grammar.{IsAlone};
ghost use Rattle.linda_shell_text.specs.EventTexts.{IsEventText, IsEventAlone};
ghost use Rattle.linda_shell_text.specs.Written.{written_event};

/// What is written of an event is a text of it; so `read_event` reads an event within its limits
/// that was written, by its clause `only`.
pub fn what_is_written_is_read_again()
    ensures { (event : Tree) → IsAlone IsEventText event (written_event event) }
{}

/// A text represents one event, if any.
pub fn a_text_stands_for_one_event()
    ensures { (one other : Tree) (text : List ℕ)
        → IsEventAlone text one → IsEventAlone text other → one ≡ other }
{}
