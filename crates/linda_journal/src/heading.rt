//! Headings, the first bytes of a bank.

ghost use Rattle.std.specs.Prelude.{◌≡◌, ◌++◌, ℕ, List, IfSome, IfNone};
ghost use Rattle.linda_tuple.specs.declared.form.Form as forms;
ghost use Rattle.linda_journal.specs.Bank.{magic};
ghost use Rattle.linda_journal.specs.Heading.{IsHeading};

use crate::journal::behind_open;
use crate::limits::MIN_BYTES;
use linda_codec::read_u64;
use linda_tuple::Form;

/// What the bytes of a disk begin with.
#[derive(Clone, Copy, Debug, PartialEq, Eq)]
pub enum Heading {
    /// No bank: fewer bytes than every bank has, or a first gate that is closed.
    NoBank,
    /// The first gate is open, and other letters follow it, or generation 0.
    Foreign,
    /// The first gate is open, and the letters of this form and this generation follow it.
    Bank {
        /// How all values of the bank are spelled.
        form: Form,
        generation: u64,
    },
}

/// What the bytes begin with.
pub fn read_heading(bytes: &[u8]) -> Heading
    ensures { IsHeading bytes.now result }
{
    match behind_open(bytes) {
        None => Heading::NoBank,
        Some(rest) => {
            if bytes.len() < MIN_BYTES {
                return Heading::NoBank;
            }
            match behind_magic(rest) {
                None => Heading::Foreign,
                Some((form, rest)) => match read_u64(rest) {
                    Err(_) => Heading::Foreign,
                    Ok((generation, _)) => {
                        if generation == 0 {
                            return Heading::Foreign;
                        }
                        Heading::Bank { form, generation }
                    }
                },
            }
        }
    }
}

// The form that the letters give, and what comes after them; `None` if other letters are there.
fn behind_magic(bytes: &[u8]) -> Option<(Form, &[u8])>
    ensures found { IfSome result (λ o. bytes.now ≡ magic o.0 ++ o.1.now) }
    ensures none { IfNone result ((form : forms.Form) (rest : List ℕ)
        → bytes.now ≡ magic form ++ rest → ⊥) }
{
    match bytes {
        [b'L', b'N', b'D', b'1', rest @ ..] => Some((Form::One, rest)),
        [b'L', b'N', b'D', b'2', rest @ ..] => Some((Form::Two, rest)),
        _ => None,
    }
}
