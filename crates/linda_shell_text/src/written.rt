//! Writing events: each event has one text that is written.

ghost use Rattle.std.specs.Prelude.{◌≡◌, [], ◌∷◌, ◌++◌, IfOk, OnOk};
ghost use Rattle.std.specs.Fmt.{decimal};
ghost use Rattle.std.specs.String.{string_bytes};
ghost use Rattle.linda_event.specs.Trees.{alarm, always, tree_of};
ghost use Rattle.linda_text.specs.Written.{IsWrittenBehind, written_template};
ghost use Rattle.linda_text.specs.declared.marks.TheConstants.{SPACE};
ghost use Rattle.linda_shell_text.specs.declared.marks.TheConstants.{OPENING_BRACKET};
ghost use Rattle.linda_shell_text.specs.declared.keyword.Keyword.TheVariants.{Choose};
ghost use Rattle.linda_shell_text.specs.Words.{keyword_text};
ghost use Rattle.linda_shell_text.specs.Written.{written_base, written_behind, written_event};
ghost use Rattle.linda_shell_text.specs.Written.{written_comma};

use crate::keyword::Keyword;
use linda_event::Event;
use linda_text::{push_atom, push_template};
use linda_tuple::{Atom, Template};
use std::alloc::{AllocError, Global};

/// The text of the event, as `choose [in ("a", ?i), alarm 3]`.
///
/// # Errors
///
/// `AllocError` if memory runs out.
pub fn write_event(alloc: Global, event: &Event) -> Result<String, AllocError>
    ensures { IfOk result (λ s. string_bytes s ≡ written_event (tree_of event.now)) }
{
    let mut out = String::new(alloc);
    push_event(&mut out, event)?;
    Ok(out)
}

fn push_event(out: &mut String, event: &Event) -> Result<(), AllocError>
    ensures { OnOk result (IsWrittenBehind out.old out.new (written_event (tree_of event.now))) }
{
    match event {
        Event::Input(template) => push_pattern(out, Keyword::In, template),
        Event::Read(template) => push_pattern(out, Keyword::Rd, template),
        Event::Alarm(time) => push_time(out, *time),
        Event::Always(value) => push_value(out, value),
        Event::Never => out.push_str(Keyword::Never.text()),
        Event::Choose(members) => {
            push_opening(out)?;
            for (number, member) in members.iter().enumerate() {
                push_comma(out, number == 0)?;
                push_event(out, member)?;
            }
            out.push_str("]")
        }
        Event::Wrap(label, below) => {
            push_label(out, Keyword::Wrap, *label)?;
            push_event(out, below)
        }
        Event::Nack(number, below) => {
            push_label(out, Keyword::Nack, *number)?;
            push_event(out, below)
        }
    }
}

// A keyword and a blank.
fn push_keyword(out: &mut String, keyword: Keyword) -> Result<(), AllocError>
    ensures { OnOk result (IsWrittenBehind out.old out.new (keyword_text keyword ++ SPACE ∷ [])) }
{
    out.push_str(keyword.text())?;
    out.push_str(" ")
}

// A template that is taken or read.
fn push_pattern(out: &mut String, keyword: Keyword, template: &Template) -> Result<(), AllocError>
    ensures { OnOk result (IsWrittenBehind out.old out.new
        (written_behind keyword (written_template template.now))) }
{
    push_keyword(out, keyword)?;
    push_template(out, template)
}

// A time.
fn push_time(out: &mut String, time: u64) -> Result<(), AllocError>
    ensures { OnOk result (IsWrittenBehind out.old out.new (written_base (alarm time))) }
{
    push_keyword(out, Keyword::Alarm)?;
    write!(out, "{time}")
}

// A value that is always there.
fn push_value(out: &mut String, value: &Atom) -> Result<(), AllocError>
    ensures { OnOk result (IsWrittenBehind out.old out.new (written_base (always value.now))) }
{
    push_keyword(out, Keyword::Always)?;
    push_atom(out, value)
}

// What comes before the members of a choice.
fn push_opening(out: &mut String) -> Result<(), AllocError>
    ensures { OnOk result (IsWrittenBehind out.old out.new
        (written_behind Choose (OPENING_BRACKET ∷ []))) }
{
    push_keyword(out, Keyword::Choose)?;
    out.push_str("[")
}

// A keyword, a number and a blank.
fn push_label(out: &mut String, keyword: Keyword, number: u64) -> Result<(), AllocError>
    ensures { OnOk result (IsWrittenBehind out.old out.new
        (written_behind keyword (decimal number ++ SPACE ∷ []))) }
{
    push_keyword(out, keyword)?;
    write!(out, "{number}")?;
    out.push_str(" ")
}

// What comes before a member of a choice.
fn push_comma(out: &mut String, first: bool) -> Result<(), AllocError>
    ensures { OnOk result (IsWrittenBehind out.old out.new (written_comma first)) }
{
    if first {
        return Ok(());
    }
    out.push_str(", ")
}
