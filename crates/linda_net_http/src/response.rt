//! Answers: the head that goes before a page.

ghost use Rattle.std.specs.Prelude.{◌≡◌, ◌++◌, IfOk, true};
ghost use Rattle.std.specs.String.{string_bytes};
ghost use Rattle.linda_net_http.specs.Response.{code_of, fields_text, head_text, kind_of};
ghost use Rattle.linda_net_http.specs.Response.{length_text, line_of, plain, text_of};

use crate::pages::PageStatus;
use std::alloc::AllocError;

/// What text is that is no page.
const PLAIN: &str = "text/plain";

/// How it is answered.
#[derive(Clone, Copy)]
pub(crate) enum Code {
    Found,
    BadQuery,
    Unavailable,
    Malformed,
    NotFound,
    MethodNotAllowed,
    Forbidden,
}

/// An answer, before its page.
#[derive(Clone, Copy)]
pub(crate) struct Response {
    code: Code,
    kind: &'static str,
    /// Whether the page follows.
    pub(crate) is_whole: bool,
}

impl Response {
    /// This was said to somebody who asked for a page, or only for what goes before it.
    pub(crate) fn said(told: PageStatus, is_whole: bool) -> Response
        ensures code { result.code ≡ code_of told }
        ensures kind { result.kind.now ≡ kind_of told }
        ensures whole { result.is_whole ≡ is_whole }
    {
        Response {
            code: code_of(told),
            kind: kind_of(told),
            is_whole,
        }
    }

    /// There is a text in place of a page.
    pub(crate) fn refusal(code: Code) -> Response
        ensures code { result.code ≡ code }
        ensures kind { result.kind.now ≡ plain }
        ensures whole { result.is_whole ≡ true }
    {
        Response {
            code,
            kind: PLAIN,
            is_whole: true,
        }
    }

    /// The text in place of a page, if there is none and none was spelled.
    pub(crate) fn text(&self) -> &'static str
        ensures { result.now ≡ text_of self.now.code }
    {
        match self.code {
            Code::Found => "",
            Code::BadQuery => "",
            Code::Unavailable => "",
            Code::Malformed => "no request of HTTP/1\n",
            Code::NotFound => "no such page\n",
            Code::MethodNotAllowed => "only GET and HEAD\n",
            Code::Forbidden => "only for the hosts 127.0.0.1, localhost and [::1]\n",
        }
    }

    /// Writes it after what is there, with a page of so many bytes.
    #[tactic(auto, unfolding(crate::specs::Response::head_text))]
    pub(crate) fn spell(&self, out: &mut String, length: usize) -> Result<(), AllocError>
        ensures { IfOk result (λ _. string_bytes out.new
            ≡ string_bytes out.old ++ head_text self.now.code self.now.kind.now length) }
    {
        let line = line_of(self.code);
        write!(out, "HTTP/1.1 {line}")?;
        push_fields(out, self.kind, length)
    }
}

// Writes of which kind a page is, and how long.
#[tactic(auto, unfolding(crate::specs::Response::fields_text))]
fn push_fields(out: &mut String, kind: &str, length: usize) -> Result<(), AllocError>
    ensures { IfOk result (λ _. string_bytes out.new
        ≡ string_bytes out.old ++ fields_text kind.now length) }
{
    write!(out, "\r\nContent-Type: {kind}")?;
    push_length(out, length)
}

// Writes how long a page is, and what all answers end with before their page.
#[tactic(auto, unfolding(crate::specs::Response::length_text))]
fn push_length(out: &mut String, length: usize) -> Result<(), AllocError>
    ensures { IfOk result (λ _. string_bytes out.new
        ≡ string_bytes out.old ++ length_text length) }
{
    write!(
        out,
        "\r\nContent-Length: {length}\r\nCache-Control: no-store\r\nConnection: close\r\n\r\n"
    )
}

// The number of a code, its words, and what has to be said with it.
fn line_of(code: Code) -> &'static str
    ensures { result.now ≡ line_of code }
{
    match code {
        Code::Found => "200 OK",
        Code::BadQuery => "400 Bad Request",
        Code::Unavailable => "503 Service Unavailable",
        Code::Malformed => "400 Bad Request",
        Code::NotFound => "404 Not Found",
        Code::MethodNotAllowed => "405 Method Not Allowed\r\nAllow: GET, HEAD",
        Code::Forbidden => "403 Forbidden",
    }
}

// The code of what was said to somebody who asked for a page.
fn code_of(told: PageStatus) -> Code
    ensures { result ≡ code_of told }
{
    match told {
        PageStatus::Page(_) => Code::Found,
        PageStatus::BadQuery => Code::BadQuery,
        PageStatus::Unavailable => Code::Unavailable,
        PageStatus::NotFound => Code::NotFound,
    }
}

// Of which kind is what was said.
fn kind_of(told: PageStatus) -> &'static str
    ensures { result.now ≡ kind_of told }
{
    match told {
        PageStatus::Page(kind) => kind,
        PageStatus::BadQuery => PLAIN,
        PageStatus::Unavailable => PLAIN,
        PageStatus::NotFound => PLAIN,
    }
}
