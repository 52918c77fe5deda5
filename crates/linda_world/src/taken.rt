//! Tuples that a client is given.

ghost use Rattle.std.specs.Prelude.{◌≡◌, option_to_list};
ghost use Rattle.linda_world_laws.specs.World as spec;

use linda_client::{Got, Outcome};

/// The server and the id of the tuple that an outcome gives, if it gives one: an input that took a
/// tuple does.
pub(crate) fn tuple_taken_by(outcome: &Option<Outcome>) -> Option<(u32, u64)>
    ensures { option_to_list result ≡ spec.tuple_taken_by outcome.now }
{
    match outcome {
        Some(
            Outcome::Synced {
                got: Got::Took { server, id, .. },
                ..
            },
        ) => Some((*server, *id)),
        _ => None,
    }
}
