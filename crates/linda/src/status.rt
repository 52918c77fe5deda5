//! Exit statuses of a script.

ghost use Rattle.std.specs.Prelude.{◌≡◌};
ghost use Rattle.linda.specs.Statuses as spec;

use linda_pipe::{BAD_LINE, REFUSED};
use linda_shell::ScriptFault;

/// The exit status of a program whose script ends with this fault.
pub fn status_of_script(fault: ScriptFault) -> u8
    ensures { result ≡ spec.status_of_script fault }
{
    match fault {
        ScriptFault::Line(_, _) => BAD_LINE,
        ScriptFault::Read => REFUSED,
        ScriptFault::Write => REFUSED,
        ScriptFault::Turns => REFUSED,
        ScriptFault::Memory => REFUSED,
    }
}
