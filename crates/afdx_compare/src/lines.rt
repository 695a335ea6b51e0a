//! What is reported of a comparison, as text, in lines or as comma-separated values.

ghost use Rattle.std.specs.Prelude.{◌≡◌, ◌++◌, option_copied, slice_get, string_bytes, IfOk, OnOk};
ghost use Rattle.afdx_compare.specs.Report.{output_line, output_text, link_text, links_from, port_line, port_text, recorded_text, ports_from};
ghost use Rattle.afdx_compare.specs.Report.{span_line, span_text, verdict_line, verdict_text, report_of};

use crate::comparison::{Comparison, Port};
use crate::findings::Findings;
use crate::report_rows::{
    put_output_row, put_port_row, put_report_heading, put_span_row, put_verdict_row, verdict_word,
};
use afdx_csv::Form;
use afdx_following::{Following, Output};
use afdx_lines::put_line;
use afdx_recordings::Outputs;
use afdx_table::{PortRow, Table};
use afdx_units::Stamp;
use std::alloc::{AllocError, Allocator};

/// Appends the line of a link at a port.
fn put_output_line<A: Allocator + Copy>(
    text: &mut String<A>,
    link: u16,
    unsure: u64,
    output: &Output<'_, A>,
) -> Result<(), AllocError>
    ensures { OnOk result (string_bytes text.new ≡ string_bytes text.old ++ output_line link unsure output.now) }
{
    let tally = output.tally();
    let (least, greatest) = match tally.delays {
        Some(range) => (Some(range.least), Some(range.greatest)),
        None => (None, None),
    };
    put_line(
        text,
        &[
            ("link ", Some(u128::from(link))),
            (" out ", Some(u128::from(output.port()))),
            (" passed ", Some(tally.passed())),
            (" seen ", Some(tally.seen())),
            (" missing ", Some(u128::from(tally.missing))),
            (" extra ", Some(u128::from(tally.extra))),
            (" early ", Some(u128::from(tally.early))),
            (" late ", Some(u128::from(tally.late))),
            (" before ", Some(u128::from(tally.before))),
            (" after ", Some(u128::from(tally.after))),
            (" unsure ", Some(u128::from(unsure))),
            (" least ", least),
            (" greatest ", greatest),
            (" bound ", Some(u128::from(output.limits().bound))),
        ],
    )
}

/// Appends what is reported of a link at a port.
fn put_output<A: Allocator + Copy>(
    text: &mut String<A>,
    form: Form,
    link: u16,
    unsure: u64,
    output: &Output<'_, A>,
) -> Result<(), AllocError>
    ensures { OnOk result (string_bytes text.new ≡ string_bytes text.old ++ output_text form link unsure output.now) }
{
    match form {
        Form::Lines => put_output_line(text, link, unsure, output),
        Form::Csv => put_output_row(text, link, unsure, output),
    }
}

/// Appends what is reported of a link of a number, by its ports.
fn put_link<A: Allocator + Copy>(
    text: &mut String<A>,
    form: Form,
    link: u16,
    followed: &Following<'_, A>,
) -> Result<(), AllocError>
    ensures { OnOk result (string_bytes text.new ≡ string_bytes text.old ++ link_text form link followed.now) }
{
    for output in followed.outputs() {
        put_output(text, form, link, followed.unsure(), output)?;
    }
    Ok(())
}

/// Appends what is reported of all links, in the table's order.
fn put_links<A: Allocator + Copy>(
    text: &mut String<A>,
    form: Form,
    comparison: &Comparison<'_, A>,
) -> Result<(), AllocError>
    ensures { OnOk result (string_bytes text.new ≡ string_bytes text.old ++ links_from form comparison.now.table.links 0 comparison.now.links) }
{
    let table = comparison.table();
    for (place, link) in comparison.links().iter().enumerate() {
        if let Some(row) = table.link_at(place) {
            put_link(text, form, row.id, link)?;
        }
    }
    Ok(())
}

/// Appends the line of an output port that was recorded.
fn put_port_line<A: Allocator + Copy>(
    text: &mut String<A>,
    row: &PortRow,
    port: &Port<A>,
) -> Result<(), AllocError>
    ensures { OnOk result (string_bytes text.new ≡ string_bytes text.old ++ port_line row.now port.now) }
{
    put_line(
        text,
        &[
            ("out ", Some(u128::from(row.id))),
            (" seen ", Some(u128::from(port.seen))),
            (" foreign ", Some(u128::from(port.foreign))),
        ],
    )
}

/// Appends what is reported of an output port that was recorded.
fn put_recorded<A: Allocator + Copy>(
    text: &mut String<A>,
    form: Form,
    row: &PortRow,
    port: &Port<A>,
) -> Result<(), AllocError>
    ensures { OnOk result (string_bytes text.new ≡ string_bytes text.old ++ port_text form row.now port.now) }
{
    match form {
        Form::Lines => put_port_line(text, row, port),
        Form::Csv => put_port_row(text, row, port),
    }
}

/// Appends what is reported of an output port, if it was recorded.
fn put_port<A: Allocator + Copy>(
    text: &mut String<A>,
    form: Form,
    recorded: &Outputs,
    row: &PortRow,
    port: &Port<A>,
) -> Result<(), AllocError>
    ensures { OnOk result (string_bytes text.new ≡ string_bytes text.old ++ recorded_text form recorded.now row.now port.now) }
{
    if recorded.has(row.id) {
        put_recorded(text, form, row, port)
    } else {
        Ok(())
    }
}

/// Returns the row of the port at a place of a table, if there is one.
pub(crate) fn row_at(table: &Table, place: usize) -> Option<&PortRow>
    ensures { option_copied result ≡ slice_get table.now.ports place }
{
    table.ports().get(place)
}

/// Appends what is reported of the output ports that were recorded, by rising number.
fn put_ports<A: Allocator + Copy>(
    text: &mut String<A>,
    form: Form,
    recorded: &Outputs,
    comparison: &Comparison<'_, A>,
) -> Result<(), AllocError>
    ensures { OnOk result (string_bytes text.new ≡ string_bytes text.old ++ ports_from form recorded.now comparison.now.table.ports 0 comparison.now.ports) }
{
    let table = comparison.table();
    for (place, port) in comparison.ports().iter().enumerate() {
        if let Some(row) = row_at(table, place) {
            put_port(text, form, recorded, row, port)?;
        }
    }
    Ok(())
}

/// Appends the line of the span of instants that the recordings have.
fn put_span_line<A: Allocator + Copy>(
    text: &mut String<A>,
    from: Stamp,
    until: Stamp,
) -> Result<(), AllocError>
    ensures { OnOk result (string_bytes text.new ≡ string_bytes text.old ++ span_line from until) }
{
    put_line(
        text,
        &[
            ("span ", Some(u128::from(from.ns()))),
            (" to ", Some(u128::from(until.ns()))),
        ],
    )
}

/// Appends the span of instants that the recordings have, the first thing of all.
fn put_span<A: Allocator + Copy>(
    text: &mut String<A>,
    form: Form,
    from: Stamp,
    until: Stamp,
) -> Result<(), AllocError>
    ensures { OnOk result (string_bytes text.new ≡ string_bytes text.old ++ span_text form from until) }
{
    match form {
        Form::Lines => put_span_line(text, from, until),
        Form::Csv => {
            put_report_heading(text)?;
            put_span_row(text, from, until)
        }
    }
}

/// Appends the line of the verdict.
fn put_verdict_line<A: Allocator + Copy>(
    text: &mut String<A>,
    conforms: bool,
) -> Result<(), AllocError>
    ensures { OnOk result (string_bytes text.new ≡ string_bytes text.old ++ verdict_line conforms) }
{
    text.push_str(verdict_word(conforms))?;
    text.push_str("\n")
}

/// Appends the verdict.
fn put_verdict<A: Allocator + Copy>(
    text: &mut String<A>,
    form: Form,
    conforms: bool,
) -> Result<(), AllocError>
    ensures { OnOk result (string_bytes text.new ≡ string_bytes text.old ++ verdict_text form conforms) }
{
    match form {
        Form::Lines => put_verdict_line(text, conforms),
        Form::Csv => put_verdict_row(text, conforms),
    }
}

/// Returns what is reported of a comparison, in this form: its span, a line for each link and each of its output ports that were recorded, one for
/// each of these ports, and last `conforms` or `differs`; or as comma-separated values a heading, and a row for each of these lines.
///
/// An error is out of memory. O(lines).
pub fn report<A: Allocator + Copy>(
    alloc: A,
    findings: &Findings<'_, A>,
    form: Form,
) -> Result<String<A>, AllocError>
    ensures { IfOk result (λ text. string_bytes text ≡ report_of form findings.now.recordings findings.now.from findings.now.until findings.now.comparison) }
{
    let mut text = String::new(alloc);
    put_span(&mut text, form, findings.from, findings.until)?;
    put_links(&mut text, form, &findings.comparison)?;
    put_ports(
        &mut text,
        form,
        &findings.recordings.outputs,
        &findings.comparison,
    )?;
    put_verdict(&mut text, form, findings.conforms())?;
    Ok(text)
}
