//! Drawing of what clients say: tuples, templates, and frames that spell nothing.

use crate::servers::words::{Bad, Field, Form, Value, WORDS};
use linda_test_runs::Dice;

/// Some tuple.
pub fn value_of(dice: &mut Dice) -> Value {
    Value {
        word: word_of(dice),
        number: i64::from(dice.below(3)),
    }
}

fn word_of(dice: &mut Dice) -> u8 {
    u8::try_from(dice.below(WORDS)).unwrap_or(0)
}

/// Some template.
pub fn form_of(dice: &mut Dice) -> Form {
    let field = match dice.below(8) {
        0 => Field::Any,
        1 => Field::AnyText,
        2 => Field::AnyInt,
        _ => Field::Is(i64::from(dice.below(3))),
    };
    Form {
        word: word_of(dice),
        field,
    }
}

/// Some frame that spells nothing.
pub fn bad_of(dice: &mut Dice) -> Bad {
    match dice.below(6) {
        0 => Bad::Empty,
        1 => Bad::Long,
        2 => Bad::Kind(0x17),
        3 => Bad::Short(u8::try_from(dice.below(8)).unwrap_or(0)),
        4 => Bad::More,
        _ => Bad::Flag,
    }
}
