//! The rows of a port, in order.

ghost use Rattle.std.specs.Prelude.{◌≡◌, ◌++◌, map, option_to_list, IfOk, OnOk};
ghost use Rattle.afdx_compare.specs.Rows.{row_of, foreign_row, event_rows, output_rows, link_rows, links_rows, in_order, rows_at};

use crate::comparison::{Comparison, Port};
use crate::row::Row;
use afdx_following::{Following, Output};
use afdx_pairing::{Event, Mark};
use std::alloc::{AllocError, Allocator};

/// Adds the row of what was found of a link, if it speaks against the switch.
fn add_event<A: Allocator + Copy>(
    rows: &mut Vec<Row, A>,
    link: u16,
    bound: u64,
    event: &Event,
) -> Result<(), AllocError>
    ensures { OnOk result (rows.new.items ≡ rows.old.items ++ option_to_list (row_of link bound event.now)) }
{
    if let Some(row) = Row::of_event(link, bound, event) {
        rows.push(row)?;
    }
    Ok(())
}

/// Adds the rows of all that was found of a link.
fn add_events<A: Allocator + Copy>(
    rows: &mut Vec<Row, A>,
    link: u16,
    bound: u64,
    events: &[Event],
) -> Result<(), AllocError>
    ensures { OnOk result (rows.new.items ≡ rows.old.items ++ event_rows link bound events.now) }
{
    for event in events {
        add_event(rows, link, bound, event)?;
    }
    Ok(())
}

/// Adds the rows of a link at an output port, if it is the one of this number.
fn add_output<A: Allocator + Copy>(
    rows: &mut Vec<Row, A>,
    port: u8,
    link: u16,
    output: &Output<'_, A>,
) -> Result<(), AllocError>
    ensures { OnOk result (rows.new.items ≡ rows.old.items ++ output_rows port link output.now) }
{
    if output.port() == port {
        add_events(rows, link, output.limits().bound, output.differences())
    } else {
        Ok(())
    }
}

/// Adds the rows of a link at the port of a number, if it was recorded and the link leads there.
fn add_link<A: Allocator + Copy>(
    rows: &mut Vec<Row, A>,
    port: u8,
    link: u16,
    followed: &Following<'_, A>,
) -> Result<(), AllocError>
    ensures { OnOk result (rows.new.items ≡ rows.old.items ++ link_rows port link followed.now) }
{
    for output in followed.outputs() {
        add_output(rows, port, link, output)?;
    }
    Ok(())
}

/// Adds the rows of all links at the port of a number, in the table's order.
fn add_links<A: Allocator + Copy>(
    rows: &mut Vec<Row, A>,
    port: u8,
    comparison: &Comparison<'_, A>,
) -> Result<(), AllocError>
    ensures { OnOk result (rows.new.items ≡ rows.old.items ++ links_rows port comparison.now.table.links 0 comparison.now.links) }
{
    let table = comparison.table();
    for (place, link) in comparison.links().iter().enumerate() {
        if let Some(row) = table.link_at(place) {
            add_link(rows, port, row.id, link)?;
        }
    }
    Ok(())
}

/// Adds the rows of records of no link.
fn add_foreign<A: Allocator + Copy>(
    rows: &mut Vec<Row, A>,
    marks: &[Mark],
) -> Result<(), AllocError>
    ensures { OnOk result (rows.new.items ≡ rows.old.items ++ map foreign_row marks.now) }
{
    for mark in marks {
        rows.push(Row::foreign(*mark))?;
    }
    Ok(())
}

/// Sorts rows by their instants; those of equal instants stay as they are.
fn sort<A: Allocator + Copy>(rows: &mut Vec<Row, A>) -> Result<(), AllocError>
    ensures { OnOk result (rows.new.items ≡ in_order rows.old.items) }
{
    rows.sort_by_key(|row| row.instant())
}

/// Returns all rows of the port of a number, in order: by their instants, and of equal ones those of links in the table's order and then those of no
/// link.
pub(crate) fn rows_at<A: Allocator + Copy>(
    alloc: A,
    port: u8,
    comparison: &Comparison<'_, A>,
    seen: &Port<A>,
) -> Result<Vec<Row, A>, AllocError>
    ensures { IfOk result (λ rows. rows.items ≡ rows_at port comparison.now seen.now) }
{
    let mut rows = Vec::new(alloc);
    add_links(&mut rows, port, comparison)?;
    add_foreign(&mut rows, &seen.rows)?;
    sort(&mut rows)?;
    Ok(rows)
}
