//! Laws of the grammar, which hold of every text and value.

ghost use Rattle.std.specs.Prelude.{◌≡◌, ℕ, List};
ghost use Rattle.linda_tuple.specs.declared.atom.Atom as atoms;
ghost use Rattle.linda_tuple.specs.Tuple.{Tuple};
ghost use Rattle.linda_tuple.specs.Template.{Template};
ghost use Rattle.linda_text.specs.Grammar.{IsAtomText, IsTupleText, IsTemplateText, IsAlone};
ghost use Rattle.linda_text.specs.Grammar.{IsTupleAlone, IsTemplateAlone};
ghost use Rattle.linda_text.specs.Written.{written_atom, written_tuple, written_template};

/// What is written of a value is a text of it; so `read_tuple` reads a tuple that was written, by
/// its clause `only`.
pub fn what_is_written_stands_for_its_value()
    ensures atoms { (atom : atoms.Atom) → IsAlone IsAtomText atom (written_atom atom) }
    ensures tuples { (tuple : Tuple) → IsAlone IsTupleText tuple (written_tuple tuple) }
    ensures templates { (template : Template)
        → IsAlone IsTemplateText template (written_template template) }
{}

/// A text represents one tuple and one template, if any.
pub fn a_text_stands_for_one_value()
    ensures tuples { (one other : Tuple) (text : List ℕ)
        → IsTupleAlone text one → IsTupleAlone text other → one ≡ other }
    ensures templates { (one other : Template) (text : List ℕ)
        → IsTemplateAlone text one → IsTemplateAlone text other → one ≡ other }
{}
