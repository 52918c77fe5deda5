//! The bytes of the kinds of kept replies.

ghost use Rattle.std.specs.Prelude.{◌↔◌, IsTrue};
ghost use Rattle.linda_book.specs.ReplyFormat.{HasLeaves};

use linda_tuple::Form;

/// Of a Stored.
pub const STORED: u8 = 0x01;

/// Of a Taken.
pub const TAKEN: u8 = 0x02;

/// Of a Gone.
pub const GONE: u8 = 0x03;

/// Of a Left, which only banks of the second form have.
pub const LEFT: u8 = 0x04;

/// Whether banks of the form have Leaves: deeds, and the replies to them.
pub fn has_leaves(form: Form) -> bool
    ensures { IsTrue result ↔ HasLeaves form }
{
    match form {
        Form::One => false,
        Form::Two => true,
    }
}
