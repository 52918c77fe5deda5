//! Places of the status, a port or a path, and the tags that are counted there.

ghost use Rattle.std.specs.Prelude.{◌≡◌, ℕ, List, Some, codes, length, IfOk, IfSome};
ghost use Rattle.std.specs.Option.{is_some};
ghost use Rattle.clap.specs.Matches.{first_value, one_text};
ghost use Rattle.clap.specs.Words.{found_of};
ghost use Rattle.linda_args.specs.Commands as spec;
ghost use Rattle.linda_args.specs.Commands.{IsStatusPlace};
ghost use Rattle.linda_args.specs.Options.{IsStatus};

use super::no_task::NoTask;
use super::options::short_number;
use clap::ArgMatches;
use linda_serve_plan::StatusPlace;
use std::alloc::Global;

/// The place of the status that the parser found, if there is one.
///
/// # Errors
///
/// `NoTask` if the text is no place, or if memory runs out.
pub(super) fn status_found(
    alloc: Global,
    matches: &ArgMatches,
) -> Result<Option<StatusPlace>, NoTask>
    ensures place { IfOk result (λ found. IfSome found IsStatusPlace) }
    ensures found { IfOk result (IsStatus (first_value (found_of matches.now) (codes "status"))
        (one_text (found_of matches.now) (codes "status"))) }
{
    let Some(text) = matches.get_str("status") else {
        return Ok(None);
    };
    if has_slash(text) {
        let path = String::from_str(alloc, text)?;
        return Ok(Some(StatusPlace::Path(path)));
    }
    let place = port_found(matches)?;
    Ok(Some(place))
}

// The port of the status.
fn port_found(matches: &ArgMatches) -> Result<StatusPlace, NoTask>
    ensures place { IfOk result IsStatusPlace }
    ensures found { (text : List ℕ) → IfOk result (λ place.
        IsStatus (Some text) (one_text (found_of matches.now) (codes "status")) (Some place)) }
{
    let Some(port) = short_number(matches, "status") else {
        return Err(BAD_STATUS);
    };
    if port == 0 {
        return Err(BAD_STATUS);
    }
    Ok(StatusPlace::Port(port))
}

/// Whether tags are counted although no status is served.
pub(super) fn is_uncounted(status: &Option<StatusPlace>, metrics: &Vec<String>) -> bool
    ensures { result ≡ spec.is_uncounted (is_some status.now) (length metrics.now.items) }
{
    status.is_none() && !metrics.is_empty()
}

// Whether the text has a slash: then it names a path.
fn has_slash(text: &str) -> bool {
    text.contains('/')
}

/// Why a status is refused.
const BAD_STATUS: NoTask = NoTask::Refused(
    "the value of '--status <Q>' is neither a port from 1 to 65535 nor a path with a slash",
);
