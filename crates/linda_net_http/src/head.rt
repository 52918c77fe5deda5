//! Heads of requests: what a connection asks for.

ghost use Rattle.std.specs.Prelude.{◌≡◌, ◌↔◌, length, map, take, All, IsTrue};
ghost use Rattle.httparse.specs.Spans.{IsHeaderWithin, IsRequestWithin, header_bytes, span_bytes};
ghost use Rattle.linda_net_http.specs.Head.{front, Asks, IsForUs, IsHeadOf, IsReadAs};
ghost use Rattle.linda_net_http.specs.Target.{host_of};

use crate::host::{is_own, name_us};
use crate::pages::PageQuery;
use crate::target::{asked_by, host_of};
use httparse::Status;
use httparse::spans::{EMPTY_HEADER_SPAN, HeaderSpan, RequestSpans, parse_request};

/// How many bytes a head may have.
const MOST_HEAD: usize = 8_192;

/// How many fields a head may have.
const MOST_FIELDS: usize = 64;

/// What a head comes to.
#[derive(Clone, Copy)]
pub(crate) enum HeadResult<'a> {
    /// Its end is still to come.
    Partly,
    /// It asks for a page, or only for what goes before it.
    Page {
        asked: PageQuery<'a>,
        is_whole: bool,
    },
    /// It asks for something else than a page.
    Other,
    /// It asks under the name of another machine.
    Foreign,
    /// It is no head, or too long.
    Nothing,
}

/// What these bytes come to, which a connection sent so far.
pub(crate) fn parse_head(sent: &[u8]) -> HeadResult<'_>
    ensures { IsHeadOf sent.now result }
{
    let front = front(sent);
    let mut fields = [EMPTY_HEADER_SPAN; MOST_FIELDS];
    match parse_request(front, &mut fields) {
        Ok(Status::Complete(head)) => head_at(front, &fields, head),
        Ok(Status::Partial) => {
            if sent.len() < MOST_HEAD {
                HeadResult::Partly
            } else {
                HeadResult::Nothing
            }
        }
        Err(_) => HeadResult::Nothing,
    }
}

// As much of what was sent as may be a head.
fn front(sent: &[u8]) -> &[u8]
    ensures { result.now ≡ front sent.now }
{
    match sent.split_at_checked(MOST_HEAD) {
        Some((front, _)) => front,
        None => sent,
    }
}

// What the head with these parts asks for.
fn head_at<'a>(front: &'a [u8], fields: &[HeaderSpan], head: RequestSpans) -> HeadResult<'a>
    requires { IsRequestWithin front.now fields.now head }
    ensures { Asks (span_bytes front.now head.method) (span_bytes front.now head.path)
        (map (header_bytes front.now) (take head.headers fields.now)) result }
{
    let target = head.path.of(front);
    if is_for_us(front, &fields[..head.headers], target) {
        read_by(head.method.of(front), target)
    } else {
        HeadResult::Foreign
    }
}

// Whether a target is asked for under a name of this machine, or under none.
fn is_for_us(front: &[u8], fields: &[HeaderSpan], target: &[u8]) -> bool
    requires { All (IsHeaderWithin (length front.now)) fields.now }
    ensures { IsTrue result ↔ IsForUs (host_of target.now)
        (map (header_bytes front.now) fields.now) }
{
    match host_of(target) {
        Some(host) => is_own(host),
        None => name_us(front, fields),
    }
}

// What a method asks for at a target that is asked for under no other name.
fn read_by<'a>(method: &[u8], target: &'a [u8]) -> HeadResult<'a>
    ensures { IsReadAs method.now target.now result }
{
    if method == b"GET".as_slice() {
        return HeadResult::Page {
            asked: asked_by(target),
            is_whole: true,
        };
    }
    if method == b"HEAD".as_slice() {
        return HeadResult::Page {
            asked: asked_by(target),
            is_whole: false,
        };
    }
    HeadResult::Other
}
