//! A script of standard input, from its first line to the exit status.

ghost use Rattle.std.specs.Prelude.{◌≡◌, ◌≤◌, ◌⊎◌};
ghost use Rattle.linda_client.specs.declared.limits.TheConstants.{MAX_SERVERS};
ghost use Rattle.std.specs.Process.{exit_status};
ghost use Rattle.linda.specs.Statuses.{status_after_script};

use crate::end;
use crate::explaining::{explain_line, is_wanted, tell_file};
use crate::status::status_of_script;
use linda_explain::{LineSource, RecentLinesReader};
use linda_pipe::REFUSED;
use linda_shell::{LineFault, ScriptFault, run_script, trace_script};
use std::fs::File;
use std::io::Read;
use std::process::ExitCode;

/// Runs the script on standard input, over so many servers.
pub(crate) fn run_servers(rt: &HostRuntime, servers: u32, explain: bool) -> ExitCode
    requires some { 1 ≤ servers }
    requires few { servers ≤ MAX_SERVERS }
    ensures { (exit_status result ≡ 0) ⊎ ((exit_status result ≡ 3) ⊎ (exit_status result ≡ 4)) }
{
    let mut stdin = rt.stdin();
    let mut lines = RecentLinesReader::new(rt.alloc(), &mut stdin);
    let ended = run_script(rt.alloc(), &mut lines, &mut rt.stdout(), servers);
    let code = report_script_end(rt, ended);
    explain_script(rt, ended, &lines, explain);
    code
}

/// Runs the script as `run_servers` does, and writes the trace of the run to a file.
pub(crate) fn run_traced(rt: &HostRuntime, servers: u32, file: &str, explain: bool) -> ExitCode
    requires some { 1 ≤ servers }
    requires few { servers ≤ MAX_SERVERS }
    ensures { (exit_status result ≡ 0) ⊎ ((exit_status result ≡ 3) ⊎ (exit_status result ≡ 4)) }
{
    let mut trace = match File::create(rt, file) {
        Ok(trace) => trace,
        Err(error) => {
            let code = end(rt, "io", REFUSED);
            if is_wanted(rt, explain) {
                tell_file(rt, file, error);
            }
            return code;
        }
    };
    let mut stdin = rt.stdin();
    let mut lines = RecentLinesReader::new(rt.alloc(), &mut stdin);
    let ended = trace_script(
        rt.alloc(),
        &mut lines,
        &mut rt.stdout(),
        &mut trace,
        servers,
    );
    let code = report_script_end(rt, ended);
    explain_script(rt, ended, &lines, explain);
    code
}

// Says where a line of a script is no command, if that ended it and a second line is wanted.
fn explain_script<R: Read>(
    rt: &HostRuntime,
    ended: Result<(), ScriptFault>,
    lines: &RecentLinesReader<'_, R>,
    explain: bool,
) {
    if let Err(ScriptFault::Line(number, LineFault::NotACommand)) = ended {
        if is_wanted(rt, explain) {
            explain_line(rt, lines, number, LineSource::OfScript);
        }
    }
}

// Ends as the script ended: well, or with its fault's line on standard error.
fn report_script_end(rt: &HostRuntime, ended: Result<(), ScriptFault>) -> ExitCode
    ensures status { exit_status result ≡ status_after_script ended }
    ensures range { (exit_status result ≡ 0)
        ⊎ ((exit_status result ≡ 3) ⊎ (exit_status result ≡ 4)) }
{
    match ended {
        Ok(()) => ExitCode::SUCCESS,
        Err(fault) => end(rt, fault, status_of_script(fault)),
    }
}
