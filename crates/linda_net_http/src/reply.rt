//! The answer to what was sent.

ghost use Rattle.std.specs.Prelude.{◌≡◌, IfOk};
ghost use Rattle.std.specs.String.{string_bytes};
ghost use Rattle.linda_net_http.specs.Response.{IsPage, IsReply, answer_text, refusal_text};

use crate::head::{HeadResult, parse_head};
use crate::pages::{PageQuery, PageSource};
use crate::response::{Code, Response};
use std::alloc::AllocError;
use std::sync::Wait;
use std::time::Clock;

/// Writes the answer to what was sent so far as `text`, and says whether there is one: there is
/// none as long as the head is not whole. A page is spelled as `page` first.
///
/// # Errors
///
/// Memory ran out: some of the answer may be there.
pub(crate) fn write_response<R: Wait + Clock, P: PageSource>(
    rt: &R,
    pages: &P,
    sent: &[u8],
    page: &mut String,
    text: &mut String,
) -> Result<bool, AllocError>
    ensures { IfOk result (λ is_answered.
        IsReply (P.tells pages.now) sent.now is_answered (string_bytes text.new)) }
{
    match parse_head(sent) {
        HeadResult::Partly => return Ok(false),
        HeadResult::Page { asked, is_whole } => spell_page(rt, pages, asked, is_whole, page, text)?,
        HeadResult::Other => spell_refusal(Code::MethodNotAllowed, text)?,
        HeadResult::Foreign => spell_refusal(Code::Forbidden, text)?,
        HeadResult::Nothing => spell_refusal(Code::Malformed, text)?,
    }
    Ok(true)
}

// Writes the page that is asked for, after what goes before it.
fn spell_page<R: Wait + Clock, P: PageSource>(
    rt: &R,
    pages: &P,
    asked: PageQuery<'_>,
    is_whole: bool,
    page: &mut String,
    text: &mut String,
) -> Result<(), AllocError>
    ensures { IfOk result (λ _.
        IsPage (P.tells pages.now) asked.entry is_whole (string_bytes text.new)) }
{
    page.clear();
    let told = pages.spell(rt, asked, page)?;
    let answer = Response::said(told, is_whole);
    let more = answer.text();
    write!(page, "{more}")?;
    spell(&answer, page, text)
}

// Writes a text in place of a page, after what goes before it.
fn spell_refusal(code: Code, text: &mut String) -> Result<(), AllocError>
    ensures { IfOk result (λ _. string_bytes text.new ≡ refusal_text code) }
{
    let answer = Response::refusal(code);
    spell(&answer, answer.text(), text)
}

// Writes an answer and its page.
fn spell(answer: &Response, page: &str, text: &mut String) -> Result<(), AllocError>
    ensures { IfOk result (λ _. string_bytes text.new
        ≡ answer_text answer.now.code answer.now.kind.now page.now answer.now.is_whole) }
{
    text.clear();
    answer.spell(text, page.len())?;
    if answer.is_whole {
        return write!(text, "{page}");
    }
    Ok(())
}
