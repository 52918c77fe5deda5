//! Passing over events: what reading leaves and which fault it returns, without taking memory.

ghost use Rattle.linda_event.specs.Trees.{nack, wrap};
ghost use Rattle.linda_text.specs.Reading.{after_blanks, natural_at, spaced_atom_at, template_at};
ghost use Rattle.linda_codec.specs.Steps.{left_by};
ghost use Rattle.linda_shell_text.specs.Reading.{event_at, members_at, under_at};
ghost use Rattle.linda_shell_text.specs.Steps.{GivesAlways, lifted};

use crate::fault::EventTextFault;
use crate::keyword::{Keyword, read_keyword};
use crate::token::{open_list, read_label, read_mark};
use linda_text::{TextFault, skip_blanks, skip_spaced_atom, skip_template, split_number};

/// The bytes after the event at the front, of at most so many nested nodes.
#[cycle(skipping)]
#[tactic(auto, unfolding(crate::specs::Reading::event_at))]
pub(crate) fn skip_event(bytes: &[u8], room: usize) -> Result<&[u8], EventTextFault>
    ensures { GivesAlways (λ rest. rest.now) result (left_by (event_at room bytes.now)) }
{
    if room == 0 {
        return Err(EventTextFault::TooManyNested);
    }
    let (keyword, rest) = read_keyword(bytes)?;
    match keyword {
        Keyword::In => skip_pattern(rest),
        Keyword::Rd => skip_pattern(rest),
        Keyword::Alarm => skip_time(rest),
        Keyword::Always => skip_value(rest),
        Keyword::Never => Ok(rest),
        Keyword::Choose => skip_members(rest, room - 1),
        Keyword::Wrap => skip_under(rest, room - 1),
        Keyword::Nack => skip_under(rest, room - 1),
    }
}

// The bytes after a template.
fn skip_pattern(bytes: &[u8]) -> Result<&[u8], EventTextFault>
    ensures { GivesAlways (λ rest. rest.now) result (left_by (lifted (template_at bytes.now))) }
{
    Ok(skip_template(bytes)?)
}

// The bytes after a time.
fn skip_time(bytes: &[u8]) -> Result<&[u8], EventTextFault>
    ensures { GivesAlways (λ rest. rest.now) result
        (left_by (lifted (natural_at (after_blanks bytes.now)))) }
{
    let (_time, rest) = split_number(skip_blanks(bytes))?;
    Ok(rest)
}

// The bytes after a value.
fn skip_value(bytes: &[u8]) -> Result<&[u8], EventTextFault>
    ensures { GivesAlways (λ rest. rest.now) result (left_by (lifted (spaced_atom_at bytes.now))) }
{
    Ok(skip_spaced_atom(bytes)?)
}

// The bytes after a number and the event under it.
#[cycle(skipping)]
#[tactic(auto, unfolding(crate::specs::Reading::under_at))]
fn skip_under(bytes: &[u8], room: usize) -> Result<&[u8], EventTextFault>
    ensures wrap { GivesAlways (λ rest. rest.now) result
        (left_by (under_at (λ label event. wrap label event) (event_at room) bytes.now)) }
    ensures nack { GivesAlways (λ rest. rest.now) result
        (left_by (under_at (λ number event. nack number event) (event_at room) bytes.now)) }
{
    let (_number, rest) = read_label(bytes)?;
    skip_event(skip_blanks(rest), room)
}

// The bytes after the members of a choice and their brackets.
#[cycle(skipping)]
fn skip_members(bytes: &[u8], room: usize) -> Result<&[u8], EventTextFault>
    ensures { GivesAlways (λ rest. rest.now) result
        (left_by (members_at (event_at room) bytes.now)) }
{
    let (some, mut rest) = open_list(bytes)?;
    if !some {
        return Ok(rest);
    }
    for _ in 0..rest.len() {
        let after = skip_event(skip_blanks(rest), room)?;
        let (more, after) = read_mark(after)?;
        if !more {
            return Ok(after);
        }
        rest = after;
    }
    Err(EventTextFault::Text(TextFault::SyntaxAt(rest.len())))
}
