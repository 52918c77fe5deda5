//! The path and the query that a target asks for, and under which host.

ghost use Rattle.std.specs.Prelude.{◌≡◌, ◌+◌, ◌≤◌, drop, length};
ghost use Rattle.std.specs.Option.{option_copied};
ghost use Rattle.linda_net_http.specs.Target as spec;

use crate::pages::PageQuery;

/// What a target in absolute form begins with.
const SCHEME: &[u8] = b"http://";

/// The path and the query that a target asks for.
pub(crate) fn asked_by(target: &[u8]) -> PageQuery<'_>
    ensures path { result.path.now ≡ spec.path_of target.now }
    ensures query { result.query.now ≡ spec.query_of target.now }
{
    let local = local_of(target);
    let len = path_len(local);
    let path = if len == 0 && is_absolute(target) {
        b"/"
    } else {
        &local[..len]
    };
    PageQuery {
        path,
        query: behind(local, len),
    }
}

// What is after a byte at this place.
fn behind(bytes: &[u8], at: usize) -> &[u8]
    requires { at ≤ length bytes.now }
    ensures { result.now ≡ drop (at + 1) bytes.now }
{
    if at == bytes.len() {
        return &[];
    }
    &bytes[at + 1..]
}

/// The host of a target in absolute form, with its port.
pub(crate) fn host_of(target: &[u8]) -> Option<&[u8]>
    ensures { option_copied result ≡ spec.host_of target.now }
{
    if !is_absolute(target) {
        return None;
    }
    let rest = behind_scheme(target);
    Some(&rest[..host_len(rest)])
}

// What of a target is its path and its query.
fn local_of(target: &[u8]) -> &[u8]
    ensures { result.now ≡ spec.local_of target.now }
{
    if !is_absolute(target) {
        return target;
    }
    let rest = behind_scheme(target);
    &rest[host_len(rest)..]
}

// What is after the scheme of a target in absolute form.
fn behind_scheme(target: &[u8]) -> &[u8]
    ensures { result.now ≡ drop 7 target.now }
{
    target.get(SCHEME.len()..).unwrap_or(&[])
}

// Whether a target is in absolute form.
fn is_absolute(target: &[u8]) -> bool
    ensures { result ≡ spec.is_absolute target.now }
{
    let front = &target[..target.len().min(SCHEME.len())];
    front.eq_ignore_ascii_case(SCHEME)
}

// How long the host is that these bytes begin with.
fn host_len(bytes: &[u8]) -> usize
    ensures len { result ≡ spec.host_len bytes.now }
    ensures within { result ≤ length bytes.now }
{
    bytes
        .iter()
        .take_while(|byte| !(**byte == b'/' || **byte == b'?'))
        .count()
}

// How many bytes are before the first question mark.
fn path_len(local: &[u8]) -> usize
    ensures len { result ≡ spec.path_len local.now }
    ensures within { result ≤ length local.now }
{
    local.iter().take_while(|byte| !(**byte == b'?')).count()
}
