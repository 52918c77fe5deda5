//! The numbers of a server as text for Prometheus, in the form 0.0.4.

ghost use Rattle.std.specs.Prelude.{◌≡◌, ◌++◌, IfOk};
ghost use Rattle.std.specs.String.{string_bytes};
ghost use Rattle.linda_status.specs.Status.{sample, time_sample};

use crate::metric_row::{MetricRow, ROWS};
use crate::seconds::push_seconds;
use linda_net_marks::CounterValues;
use linda_shared::Gauge;
use std::alloc::AllocError;

/// Writes all numbers after what is there; `absent` clients are away and took a tuple by their last
/// message.
pub(crate) fn spell_metrics(
    page: &mut String,
    gauge: &Gauge,
    tally: &CounterValues,
    absent: u64,
) -> Result<(), AllocError> {
    for row in ROWS {
        if !row.help.is_empty() {
            spell_head(page, &row)?;
        }
        let value = row.figure.value(gauge, tally, absent);
        if row.figure.is_time() {
            spell_time(page, row.metric, row.label, value)?;
        } else {
            spell_sample(page, row.metric, row.label, value)?;
        }
    }
    Ok(())
}

// Writes what a metric means, and of which kind it is.
fn spell_head(page: &mut String, row: &MetricRow) -> Result<(), AllocError> {
    write!(page, "# HELP {} {}\n", row.metric, row.help)?;
    write!(page, "# TYPE {} {}\n", row.metric, row.kind)
}

// Writes a number of a metric, as a line.
fn spell_sample(page: &mut String, metric: &str, label: &str, value: u64) -> Result<(), AllocError>
    ensures { IfOk result (λ _. string_bytes page.new
        ≡ string_bytes page.old ++ sample metric.now label.now value) }
{
    write!(page, "{metric}{label} {value}\n")
}

// Writes a time, as a line.
fn spell_time(page: &mut String, metric: &str, label: &str, micros: u64) -> Result<(), AllocError>
    ensures { IfOk result (λ _. string_bytes page.new
        ≡ string_bytes page.old ++ time_sample metric.now label.now micros) }
{
    write!(page, "{metric}{label} ")?;
    push_seconds(page, micros)?;
    page.push_str("\n")
}
