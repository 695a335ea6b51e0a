//! What is written in a form: above rows, and of a switch of a network.

ghost use Rattle.std.specs.Prelude.{◌≡◌, ◌++◌, map, string_bytes, IfOk, OnOk};
ghost use Rattle.afdx_serve.specs.Checks.{heading_in};
ghost use Rattle.afdx_serve.specs.NetworkMeasures.{buffers_of, spells_of};
ghost use Rattle.afdx_serve.specs.NetworkRuns.{counts_of};

use afdx_count::Counts;
use afdx_csv::{Form, put_heading};
use afdx_measure::{Measures, Survey, peak_lines, policing_lines};
use afdx_network_report::push_report;
use afdx_rows::{put_buffers, put_counts, put_policing};
use std::alloc::{AllocError, Global};

/// Returns the heading of rows under these columns; nothing is above lines. O(columns).
pub(crate) fn heading_in(alloc: Global, form: Form, columns: &[&str]) -> Result<String, AllocError>
    ensures { IfOk result (λ text. string_bytes text ≡ heading_in form (map (λ column. column.now) columns.now)) }
{
    let mut text = String::new(alloc);
    match form {
        Form::Lines => Ok(text),
        Form::Csv => {
            put_heading(&mut text, columns)?;
            Ok(text)
        }
    }
}

/// Appends the counts of the switch of this name: its report, with its name before each line, or its rows under these columns. O(ports and links).
pub(crate) fn push_counts(
    alloc: Global,
    form: Form,
    columns: &[&str],
    text: &mut Vec<u8>,
    name: &str,
    counts: &Counts<Global>,
) -> Result<(), AllocError>
    ensures { OnOk result (text.new.items ≡ text.old.items ++ counts_of form (map (λ column. column.now) columns.now) name.now counts.now) }
{
    match form {
        Form::Lines => {
            let report = counts.report(alloc)?;
            push_report(text, name, &report)
        }
        Form::Csv => {
            let mut rows = String::new(alloc);
            put_counts(&mut rows, columns, name, counts)?;
            text.extend_from_slice(rows.as_bytes())
        }
    }
}

/// Appends how full the buffers of the switch of this name were: lines with its name before each, or rows under these columns. O(ports).
pub(crate) fn push_buffers(
    alloc: Global,
    form: Form,
    columns: &[&str],
    text: &mut Vec<u8>,
    name: &str,
    measures: &Measures<'_, Global>,
) -> Result<(), AllocError>
    ensures { OnOk result (text.new.items ≡ text.old.items ++ buffers_of form (map (λ column. column.now) columns.now) name.now measures.now) }
{
    match form {
        Form::Lines => {
            let lines = peak_lines(alloc, measures)?;
            push_report(text, name, &lines)
        }
        Form::Csv => {
            let mut rows = String::new(alloc);
            put_buffers(&mut rows, columns, name, measures)?;
            text.extend_from_slice(rows.as_bytes())
        }
    }
}

/// Appends when links of the switch of this name were policed, and when frames came: lines with its name before each, or rows under the
/// columns of `network survey`. O(spells and links).
pub(crate) fn push_policing(
    alloc: Global,
    form: Form,
    text: &mut Vec<u8>,
    name: &str,
    survey: &Survey<'_, Global>,
) -> Result<(), AllocError>
    ensures { OnOk result (text.new.items ≡ text.old.items ++ spells_of form name.now survey.now) }
{
    match form {
        Form::Lines => {
            let lines = policing_lines(alloc, survey)?;
            push_report(text, name, &lines)
        }
        Form::Csv => {
            let mut rows = String::new(alloc);
            put_policing(&mut rows, name, survey)?;
            text.extend_from_slice(rows.as_bytes())
        }
    }
}
