//! Refusals: the code and the detail of each.

ghost use Rattle.std.specs.Prelude.{◌≡◌};
ghost use Rattle.linda_wire.specs.Refusal.{refused};
ghost use Rattle.linda_wire.specs.declared.refusal.Refusal.TheVariants as refusal;
ghost use Rattle.linda_wire.specs.declared.reply.Reply.TheVariants.{Refused};
ghost use Rattle.linda_test_code_libraries.specs.Examples.{number, ticket};

/// The code and the detail of each refusal.
pub fn refusals()
    ensures version { refused refusal.Version ≡ Refused 1 2 }
    ensures known { refused (refusal.Known number) ≡ Refused 2 number }
    ensures busy { refused refusal.Busy ≡ Refused 3 0 }
    ensures old { refused (refusal.Old number) ≡ Refused 4 number }
    ensures gap { refused (refusal.Gap number) ≡ Refused 5 number }
    ensures full { refused refusal.Full ≡ Refused 6 0 }
    ensures spent { refused refusal.Spent ≡ Refused 6 1 }
    ensures too_many_clients { refused refusal.TooManyClients ≡ Refused 7 65536 }
    ensures down { refused refusal.Down ≡ Refused 8 0 }
    ensures malformed { refused (refusal.Malformed number) ≡ Refused 9 number }
    ensures too_many_asks { refused (refusal.TooManyAsks ticket) ≡ Refused 10 ticket }
    ensures left { refused (refusal.Left number) ≡ Refused 11 number }
    ensures no_hello { refused refusal.NoHello ≡ Refused 12 0 }
{}
