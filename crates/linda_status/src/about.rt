//! Members of a JSON object that stay the same while a server serves.

ghost use Rattle.std.specs.Prelude.{OnOk};
ghost use Rattle.linda_inspect.specs.Json.{IsPushed};
ghost use Rattle.linda_status.specs.About.{json_about, json_folder, json_place, json_places};
ghost use Rattle.linda_status.specs.About.{json_port, json_socket, json_uptime, json_version};

use linda_inspect::{push_json_member, push_json_string};
use std::alloc::AllocError;

/// What stays the same of a server while it serves.
#[derive(Clone, Copy)]
pub struct About<'a> {
    /// The version of the program.
    pub version: &'a str,
    /// The folder of the store.
    pub folder: &'a str,
    /// The port that it listens on, if it does.
    pub port: Option<u16>,
    /// The path of the unix socket that it listens on, if it does.
    pub socket: Option<&'a str>,
}

/// Appends all of it, and for how many seconds it serves, if that is known.
///
/// # Errors
///
/// `AllocError` if memory runs out; a part of it may then be there.
#[tactic(auto, unfolding(crate::specs::About::json_about))]
pub(crate) fn push_about(
    out: &mut Vec<u8>,
    about: &About<'_>,
    uptime: Option<u64>,
) -> Result<(), AllocError>
    ensures { OnOk result (IsPushed out.old out.new (json_about about.now uptime)) }
{
    push_version(out, about.version)?;
    push_folder(out, about.folder)?;
    push_places(out, about, uptime)
}

// The version.
#[tactic(auto, unfolding(crate::specs::About::json_version))]
fn push_version(out: &mut Vec<u8>, version: &str) -> Result<(), AllocError>
    ensures { OnOk result (IsPushed out.old out.new (json_version version.now)) }
{
    out.extend_from_slice(b",\"version\":")?;
    push_json_string(out, version.as_bytes())
}

// The folder.
#[tactic(auto, unfolding(crate::specs::About::json_folder))]
fn push_folder(out: &mut Vec<u8>, folder: &str) -> Result<(), AllocError>
    ensures { OnOk result (IsPushed out.old out.new (json_folder folder.now)) }
{
    out.extend_from_slice(b",\"folder\":")?;
    push_json_string(out, folder.as_bytes())
}

// Where it listens, and for how long it serves.
#[tactic(auto, unfolding(crate::specs::About::json_places))]
fn push_places(out: &mut Vec<u8>, about: &About<'_>, uptime: Option<u64>) -> Result<(), AllocError>
    ensures { OnOk result (IsPushed out.old out.new (json_places about.now uptime)) }
{
    push_port(out, about.port)?;
    push_socket(out, about.socket)?;
    push_uptime(out, uptime)
}

// The port.
#[tactic(auto, unfolding(crate::specs::About::json_port))]
fn push_port(out: &mut Vec<u8>, port: Option<u16>) -> Result<(), AllocError>
    ensures { OnOk result (IsPushed out.old out.new (json_port port)) }
{
    match port {
        Some(port) => push_json_member(out, b",\"port\":", u64::from(port)),
        None => out.extend_from_slice(b",\"port\":null"),
    }
}

// The path of the unix socket.
#[tactic(auto, unfolding(crate::specs::About::json_socket))]
fn push_socket(out: &mut Vec<u8>, socket: Option<&str>) -> Result<(), AllocError>
    ensures { OnOk result (IsPushed out.old out.new (json_socket socket.entry)) }
{
    match socket {
        Some(path) => push_place(out, path),
        None => out.extend_from_slice(b",\"socket\":null"),
    }
}

// The path of a unix socket.
#[tactic(auto, unfolding(crate::specs::About::json_place))]
fn push_place(out: &mut Vec<u8>, path: &str) -> Result<(), AllocError>
    ensures { OnOk result (IsPushed out.old out.new (json_place path.now)) }
{
    out.extend_from_slice(b",\"socket\":")?;
    push_json_string(out, path.as_bytes())
}

// For how many seconds it serves.
#[tactic(auto, unfolding(crate::specs::About::json_uptime))]
fn push_uptime(out: &mut Vec<u8>, uptime: Option<u64>) -> Result<(), AllocError>
    ensures { OnOk result (IsPushed out.old out.new (json_uptime uptime)) }
{
    match uptime {
        Some(seconds) => push_json_member(out, b",\"uptime_seconds\":", seconds),
        None => out.extend_from_slice(b",\"uptime_seconds\":null"),
    }
}
