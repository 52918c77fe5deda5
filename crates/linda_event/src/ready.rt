//! Readiness without a server.

ghost use Rattle.std.specs.Prelude.{◌≡◌};
ghost use Rattle.std.specs.List.{list_any};
ghost use Rattle.linda_event.specs.Trees.{tree_of};
ghost use Rattle.linda_event.specs.Paths.{bases_of};
ghost use Rattle.linda_event.specs.Bases.{is_ready};

use crate::event::Event;

/// Whether some base of the event is ready at this clock: an alarm whose time has come, or a value.
/// Takes no memory, and time linear in the event.
pub fn has_ready_base(event: &Event, clock: u64) -> bool
    ensures { result ≡ list_any (is_ready clock) (bases_of (tree_of event.now)) }
{
    match event {
        Event::Input(_) => false,
        Event::Read(_) => false,
        Event::Alarm(time) => *time <= clock,
        Event::Always(_) => true,
        Event::Never => false,
        Event::Choose(members) => {
            for member in members {
                if has_ready_base(member, clock) {
                    return true;
                }
            }
            false
        }
        Event::Wrap(_, below) => has_ready_base(below, clock),
        Event::Nack(_, below) => has_ready_base(below, clock),
    }
}
