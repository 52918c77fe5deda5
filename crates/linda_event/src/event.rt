//! The type of events.

use linda_tuple::{Atom, Template};

/// What a client waits for. The leaves are its bases: an input takes a tuple that its template
/// matches, a read copies one, an alarm is ready once the clock is there, a value is always ready,
/// and `Never` never is. Of a choice at most one base is chosen. A label and a nack number leave
/// the event under them as it is: labels say how to go on after a base below them, and a nack
/// number is raised if what is chosen is not below it.
#[derive(Debug, Drop)]
pub enum Event {
    Input(Template),
    Read(Template),
    Alarm(u64),
    Always(Atom),
    Never,
    Choose(Vec<Event>),
    Wrap(u64, Box<Event>),
    Nack(u64, Box<Event>),
}
