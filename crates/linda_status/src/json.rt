//! The numbers of a server as one object of JSON.

ghost use Rattle.std.specs.Prelude.{◌≡◌, ◌++◌, IfOk};
ghost use Rattle.std.specs.String.{string_bytes};
ghost use Rattle.linda_status.specs.Status.{member, time_member};

use crate::about::{About, push_about};
use crate::lists::spell_text;
use crate::metric_row::ROWS;
use crate::seconds::push_seconds;
use linda_net_marks::CounterValues;
use linda_shared::Gauge;
use std::alloc::{AllocError, Global};

/// Writes all numbers after what is there, and what the server is; `absent` clients are away and
/// took a tuple by their last message.
pub(crate) fn spell_json(
    alloc: Global,
    page: &mut String,
    about: &About<'_>,
    uptime: Option<u64>,
    gauge: &Gauge,
    tally: &CounterValues,
    absent: u64,
) -> Result<(), AllocError> {
    let mut before = "{";
    for row in ROWS {
        let value = row.figure.value(gauge, tally, absent);
        if row.figure.is_time() {
            spell_time(page, before, row.key, value)?;
        } else {
            spell_member(page, before, row.key, value)?;
        }
        before = ",";
    }
    let mut out = Vec::new(alloc);
    push_about(&mut out, about, uptime)?;
    spell_text(&out, page)?;
    page.push_str("}\n")
}

// Writes a number with its name, after what is before it.
fn spell_member(page: &mut String, before: &str, key: &str, value: u64) -> Result<(), AllocError>
    ensures { IfOk result (λ _. string_bytes page.new
        ≡ string_bytes page.old ++ before.now ++ member key.now value) }
{
    write!(page, "{before}\"{key}\":{value}")
}

// Writes a time with its name, after what is before it.
fn spell_time(page: &mut String, before: &str, key: &str, micros: u64) -> Result<(), AllocError>
    ensures { IfOk result (λ _. string_bytes page.new
        ≡ string_bytes page.old ++ before.now ++ time_member key.now micros) }
{
    write!(page, "{before}\"{key}\":")?;
    push_seconds(page, micros)
}
