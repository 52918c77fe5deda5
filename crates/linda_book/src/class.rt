//! Classes of a message's number: beside the last number that is kept for its client, and its
//! Leave.

ghost use Rattle.std.specs.Prelude.{◌≡◌};
ghost use Rattle.linda_book.specs.Classes as spec;

/// The class of a numbered message, by its number and the last number that is kept for its client.
#[derive(Clone, Copy, Debug, PartialEq, Eq)]
pub enum Class {
    /// The number is the next one: the message is new.
    Fresh,
    /// The number is the last one: the message is a repeat, and its reply is kept.
    Kept,
    /// The number is 0 or below the last one, which is given: nothing is kept for it any more.
    Old(u64),
    /// The client left by its last message, whose number is given, and the number is beyond it.
    Left(u64),
    /// The number is beyond the next one. The last one is given, 0 if there is none.
    Gap(u64),
}

/// The class of the number after the last one that is kept, 0 if there is none, and whether the
/// client left by that one (`left`). Any two numbers have a class.
pub fn class_of(last: u64, left: bool, n: u64) -> Class
    ensures { result ≡ spec.class_of last left n }
{
    if !left && last.checked_add(1) == Some(n) {
        Class::Fresh
    } else if n == last && last > 0 {
        Class::Kept
    } else if n == 0 || n < last {
        Class::Old(last)
    } else if left {
        Class::Left(last)
    } else {
        Class::Gap(last)
    }
}
