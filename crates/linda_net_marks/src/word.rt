//! Words that a connection ends with.

ghost use Rattle.std.specs.Prelude.{◌≡◌};
ghost use Rattle.linda_net_marks.specs.Word.{word_of};

use linda_shared_accounts::SharedFault;
use linda_wire::Refusal;

/// The last word to a client if the server has this fault; `None` if memory ran out.
pub fn word_of(fault: SharedFault) -> Option<Refusal>
    ensures { result ≡ word_of fault }
{
    match fault {
        SharedFault::Memory => None,
        SharedFault::Down => Some(Refusal::Down),
        SharedFault::Full => Some(Refusal::Down),
        SharedFault::SeatMissing => Some(Refusal::Down),
        SharedFault::Receipt { .. } => Some(Refusal::Down),
        SharedFault::Stuck(_) => Some(Refusal::Down),
        SharedFault::NoThread => Some(Refusal::Down),
    }
}
