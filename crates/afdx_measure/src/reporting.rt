//! All that is reported of a finished run, as text.

ghost use Rattle.std.specs.Prelude.{◌≡◌, ◌++◌, flat_map, slice_get, Some, string_bytes, IfOk, OnOk};
ghost use Rattle.afdx_table.specs.Content.{port_row};
ghost use Rattle.afdx_measure.specs.Report.{bound_at, link_lines, port_line, report_of};
ghost use Rattle.afdx_measure.specs.Policing.{policing_of, survey_of};

use crate::lines::{put_link_line, put_peak_line};
use crate::measuring::{Measures, Survey};
use crate::policing::put_span_line;
use afdx_load::{Loads, bounds, loads};
use afdx_table::laws::ports_are_found;
use afdx_table::{LinkRow, PortRow};
use afdx_units::Priority;
use std::alloc::{AllocError, Allocator};

/// Returns the bound of the port of a number for a priority, in nanoseconds from a frame's arrival to its end on the line, if bounds are
/// promised; none if there is no such port, or no bound for that priority there. O(ports).
pub fn bound_at(promised: bool, loads: &Loads<'_>, port: u8, priority: Priority) -> Option<u128>
    ensures { result ≡ bound_at promised loads.now port priority }
{
    if !promised {
        return None;
    }
    let load = loads.at(port)?;
    let bounds = bounds(&load);
    match priority {
        Priority::High => bounds.high,
        Priority::Low => bounds.low,
    }
}

/// Appends the lines of a link.
fn put_link<A: Allocator + Copy>(
    text: &mut String<A>,
    measures: &Measures<'_, A>,
    loads: &Loads<'_>,
    promised: bool,
    place: usize,
    link: &LinkRow,
) -> Result<(), AllocError>
    requires loads { loads.now ≡ measures.now.run.table }
    requires place { slice_get measures.now.run.table.links place ≡ Some link.now }
    ensures { OnOk result (string_bytes text.new ≡ string_bytes text.old ++ link_lines promised measures.now.run link.now) }
{
    for port in link.to.as_slice() {
        let delays = measures.delays_at(place, *port);
        let bound = bound_at(promised, loads, *port, link.priority);
        put_link_line(text, link.id, *port, &delays, bound)?;
    }
    Ok(())
}

/// Appends the lines of all links, in the table's order.
fn put_links<A: Allocator + Copy>(
    text: &mut String<A>,
    measures: &Measures<'_, A>,
    promised: bool,
) -> Result<(), AllocError>
    ensures { OnOk result (string_bytes text.new
        ≡ string_bytes text.old ++ flat_map (link_lines promised measures.now.run) measures.now.run.table.links) }
{
    let table = measures.table();
    let loads = loads(table);
    for place in 0..table.link_count() {
        put_link(
            text,
            measures,
            &loads,
            promised,
            place,
            table.link_at(place).unwrap(),
        )?;
    }
    Ok(())
}

/// Appends the line of a port.
fn put_port<A: Allocator + Copy>(
    text: &mut String<A>,
    measures: &Measures<'_, A>,
    row: &PortRow,
) -> Result<(), AllocError>
    requires { port_row measures.now.run.table row.now.id ≡ Some row.now }
    ensures { OnOk result (string_bytes text.new ≡ string_bytes text.old ++ port_line measures.now.run row.now) }
{
    put_peak_line(text, row.id, row.buffer, measures.peak_at(row.id))
}

/// Appends the lines of all ports, by rising number.
fn put_ports<A: Allocator + Copy>(
    text: &mut String<A>,
    measures: &Measures<'_, A>,
) -> Result<(), AllocError>
    ensures { OnOk result (string_bytes text.new ≡ string_bytes text.old ++ flat_map (port_line measures.now.run) measures.now.run.table.ports) }
{
    ports_are_found();
    for row in measures.table().ports() {
        put_port(text, measures, row)?;
    }
    Ok(())
}

/// Writes what is reported of a finished switch: a line for each link and each of its output ports, then a line for each port.
/// Bounds are reported if they are promised: if the table was checked and accepted.
///
/// An error says that memory ran out. O(ports) for each line.
pub fn report<A: Allocator + Copy>(
    alloc: A,
    measures: &Measures<'_, A>,
    promised: bool,
) -> Result<String<A>, AllocError>
    ensures { IfOk result (λ text. string_bytes text ≡ report_of promised measures.now.run) }
{
    let mut text = String::new(alloc);
    put_links(&mut text, measures, promised)?;
    put_ports(&mut text, measures)?;
    Ok(text)
}

/// Writes how full the buffers of a finished switch were: the lines of the ports of [`report`].
///
/// An error says that memory ran out. O(ports) for each line.
pub fn peak_lines<A: Allocator + Copy>(
    alloc: A,
    measures: &Measures<'_, A>,
) -> Result<String<A>, AllocError>
    ensures { IfOk result (λ text. string_bytes text ≡ flat_map (port_line measures.now.run) measures.now.run.table.ports) }
{
    let mut text = String::new(alloc);
    put_ports(&mut text, measures)?;
    Ok(text)
}

/// Appends a line for each spell in which a link was policed, and then when frames came.
fn put_policing<A: Allocator + Copy>(
    text: &mut String<A>,
    survey: &Survey<'_, A>,
) -> Result<(), AllocError>
    ensures { OnOk result (string_bytes text.new ≡ string_bytes text.old ++ policing_of survey.now.run) }
{
    survey.policing.put_lines(text, survey.measures.table())?;
    put_span_line(text, survey.policing.span())
}

/// Writes when the links of a finished switch were policed, and when frames came: what comes last in [`survey`].
///
/// An error says that memory ran out. O(1) for each line.
pub fn policing_lines<A: Allocator + Copy>(
    alloc: A,
    survey: &Survey<'_, A>,
) -> Result<String<A>, AllocError>
    ensures { IfOk result (λ text. string_bytes text ≡ policing_of survey.now.run) }
{
    let mut text = String::new(alloc);
    put_policing(&mut text, survey)?;
    Ok(text)
}

/// Writes what a survey says of a finished switch beside its counts: what [`report`] says, then a line for each spell in which a link was
/// policed, then when frames came.
///
/// An error says that memory ran out. O(ports) for each line.
pub fn survey<A: Allocator + Copy>(
    alloc: A,
    survey: &Survey<'_, A>,
    promised: bool,
) -> Result<String<A>, AllocError>
    ensures { IfOk result (λ text. string_bytes text ≡ survey_of promised survey.now.run) }
{
    let mut text = report(alloc, &survey.measures, promised)?;
    put_policing(&mut text, survey)?;
    Ok(text)
}
