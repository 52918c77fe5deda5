//! Drawing of what clients put and wait for, and of what goes wrong with disks.

use crate::clients::wish::{Leaf, What};
use crate::clients::words::{Field, Form, WORDS};
use linda_disk::Torn;
use linda_test_runs::Dice;

/// What goes wrong with a disk: it stops inside a call after so many, or a call fails once.
#[derive(Clone, Copy)]
pub struct Trouble {
    pub fuse: Option<u64>,
    pub failing: Option<u64>,
}

impl Trouble {
    /// Nothing goes wrong.
    pub fn none() -> Trouble {
        Trouble {
            fuse: None,
            failing: None,
        }
    }
}

/// Some word, or some kind.
pub fn word_of(dice: &mut Dice) -> u8 {
    u8::try_from(dice.below(WORDS)).unwrap_or(0)
}

// Some template.
fn form_of(dice: &mut Dice) -> Form {
    let field = match dice.below(8) {
        0 => Field::Any,
        1 => Field::AnyText,
        2 | 3 => Field::AnyInt,
        _ => Field::Is(word_of(dice)),
    };
    Form {
        word: word_of(dice),
        is_bound: dice.one_in(2),
        field,
    }
}

/// Some member of a choice, whose alarm is after this time or then.
pub fn leaf_of(dice: &mut Dice, clock: u64, place: u64) -> Leaf {
    let what = match dice.below(16) {
        0 => What::Never,
        1 => What::Alarm(clock.saturating_add(u64::from(dice.below(4)))),
        2 | 3 => What::Alarm(clock.saturating_add(u64::from(dice.below(40)))),
        4 | 5 | 6 => What::Read(form_of(dice)),
        7 => {
            if dice.one_in(4) {
                What::Always
            } else {
                What::Never
            }
        }
        _ => What::Input(form_of(dice)),
    };
    let label = if dice.one_in(2) { place } else { 0 };
    let nack = if dice.one_in(2) { place } else { 0 };
    Leaf { what, label, nack }
}

/// What a stop leaves of a disk.
pub fn torn_of(dice: &mut Dice) -> Torn {
    match dice.below(4) {
        0 => Torn::Kept,
        1 => Torn::Lost,
        2 => Torn::Filled(0),
        _ => Torn::Filled(u8::try_from(dice.below(256)).unwrap_or(1)),
    }
}

/// What goes wrong with a disk in the next life of its server.
pub fn trouble_of(dice: &mut Dice) -> Trouble {
    let mut trouble = Trouble::none();
    if dice.one_in(2) {
        let most = if dice.one_in(2) { 60 } else { 600 };
        trouble.fuse = Some(u64::from(dice.below(most)));
    }
    if dice.one_in(8) {
        trouble.failing = Some(u64::from(dice.below(600)));
    }
    trouble
}
