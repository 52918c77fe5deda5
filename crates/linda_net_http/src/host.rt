//! Under which name of a machine a page is asked for.
//!
//! A browser asks for a page of any web site under the name of that site, and takes from it what it
//! says of if it is: so a site could have it ask a port of its own machine, and read what comes.
//! The field `Host` then has the name of the site.

ghost use Rattle.std.specs.Prelude.{◌↔◌, length, map, All, IsTrue};
ghost use Rattle.httparse.specs.Spans.{IsHeaderWithin, header_bytes};
ghost use Rattle.linda_net_http.specs.Host.{IsSame, IsPort, IsNamed, IsOwn};
ghost use Rattle.linda_net_http.specs.Head.{NamesUs};

use httparse::spans::HeaderSpan;

/// Whether each of these fields that names a host names this machine by itself.
pub(crate) fn name_us(head: &[u8], fields: &[HeaderSpan]) -> bool
    requires { All (IsHeaderWithin (length head.now)) fields.now }
    ensures { IsTrue result ↔ All NamesUs (map (header_bytes head.now) fields.now) }
{
    for field in fields {
        if !names_us(head, field) {
            return false;
        }
    }
    true
}

// Whether a field names no host, or this machine.
fn names_us(head: &[u8], field: &HeaderSpan) -> bool
    requires { IsHeaderWithin (length head.now) field.now }
    ensures { IsTrue result ↔ NamesUs (header_bytes head.now field.now) }
{
    !is_same(field.name.of(head), b"host") || is_own(field.value.of(head))
}

/// Whether a host is this machine, with a port or without one.
pub(crate) fn is_own(host: &[u8]) -> bool
    ensures { IsTrue result ↔ IsOwn host.now }
{
    is_named(host, b"127.0.0.1") || is_named(host, b"localhost") || is_named(host, b"[::1]")
}

// Whether a host has this name, with a port or without one.
fn is_named(host: &[u8], name: &[u8]) -> bool
    ensures { IsTrue result ↔ IsNamed name.now host.now }
{
    match host.split_at_checked(name.len()) {
        Some((front, rest)) => is_same(front, name) && is_port(rest),
        None => false,
    }
}

// Whether this is nothing, or digits after a colon.
fn is_port(rest: &[u8]) -> bool
    ensures { IsTrue result ↔ IsPort rest.now }
{
    match rest.split_first() {
        Some((first, digits)) => *first == b':' && digits.iter().all(|byte| byte.is_ascii_digit()),
        None => true,
    }
}

// Whether both are the same but for capital letters.
fn is_same(one: &[u8], other: &[u8]) -> bool
    ensures { IsTrue result ↔ IsSame one.now other.now }
{
    one.eq_ignore_ascii_case(other)
}
