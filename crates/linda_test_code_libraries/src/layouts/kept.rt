//! Kept replies, as a snapshot has them, in both forms.

ghost use Rattle.std.specs.Prelude.{◌≡◌, [], ◌∷◌};
ghost use Rattle.linda_tuple.specs.declared.form.Form.TheVariants.{One, Two};
ghost use Rattle.linda_book.specs.ReplyFormat.{spell_reply};
ghost use Rattle.linda_book.specs.declared.kept_reply.KeptReply.TheVariants as kept;
ghost use Rattle.linda_test_code_libraries.specs.Examples.{id, row};

/// Each kind of kept reply; in the first form one with a tuple.
pub fn kept_replies()
    ensures stored { spell_reply Two (kept.Stored id) ≡
        0x01 ∷ 0x21 ∷ 0x22 ∷ 0x23 ∷ 0x24 ∷ 0x25 ∷ 0x26 ∷ 0x27
        ∷ 0x28 ∷ [] }
    ensures taken { spell_reply Two (kept.Taken id row) ≡
        0x02 ∷ 0x21 ∷ 0x22 ∷ 0x23 ∷ 0x24 ∷ 0x25 ∷ 0x26 ∷ 0x27
        ∷ 0x28 ∷ 0x02 ∷ 0x00 ∷ 0x01 ∷ 0x61 ∷ 0x01 ∷ 0x01 ∷ 0x00
        ∷ 0x00 ∷ 0x00 ∷ 0x00 ∷ 0x00 ∷ 0x00 ∷ 0x00 ∷ 0x03 ∷ [] }
    ensures taken_before { spell_reply One (kept.Taken id row) ≡
        0x02 ∷ 0x21 ∷ 0x22 ∷ 0x23 ∷ 0x24 ∷ 0x25 ∷ 0x26 ∷ 0x27
        ∷ 0x28 ∷ 0x02 ∷ 0x01 ∷ 0x61 ∷ 0x01 ∷ 0x01 ∷ 0x00 ∷ 0x00
        ∷ 0x00 ∷ 0x00 ∷ 0x00 ∷ 0x00 ∷ 0x00 ∷ 0x03 ∷ [] }
    ensures gone { spell_reply Two kept.Gone ≡
        0x03 ∷ [] }
    ensures left { spell_reply Two kept.Left ≡
        0x04 ∷ [] }
{}
