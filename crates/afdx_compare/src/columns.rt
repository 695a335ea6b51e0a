//! Each single difference, as comma-separated values.

ghost use Rattle.std.specs.Prelude.{◌≡◌, ◌++◌, option_map, flat_map, string_bytes, IfOk, OnOk};
ghost use Rattle.afdx_compare.specs.Differences.{kind_text, column, optional, mark_columns, clock_back, without, kind_columns, bound_columns, row_line, port_rows, all_rows, differences_of};

use crate::comparison::{Comparison, Port};
use crate::findings::Findings;
use crate::lines::row_at;
use crate::row::{Kind, Row};
use crate::rows::rows_at;
use afdx_merging::Clock;
use afdx_pairing::Mark;
use afdx_recordings::Offsets;
use afdx_table::PortRow;
use std::alloc::{AllocError, Allocator};

/// The names of the columns.
const HEADING: &str = "port,link,kind,record_in,stamp_in,record_out,stamp_out,delay,bound\n";

/// Returns the word of a kind.
fn kind_text(kind: Kind) -> &'static str
    ensures { result.now ≡ kind_text kind }
{
    match kind {
        Kind::Missing => "missing",
        Kind::Extra => "extra",
        Kind::Early => "early",
        Kind::Late => "late",
        Kind::Foreign => "foreign",
    }
}

/// Appends a column of a number, or an empty one.
fn put_number<A: Allocator + Copy>(
    text: &mut String<A>,
    number: Option<u128>,
) -> Result<(), AllocError>
    ensures { OnOk result (string_bytes text.new ≡ string_bytes text.old ++ column (optional number)) }
{
    text.push_str(",")?;
    match number {
        Some(number) => write!(text, "{number}"),
        None => Ok(()),
    }
}

/// Appends the columns of a frame or a record: its number in its capture and its stamp, or two empty ones.
fn put_mark<A: Allocator + Copy>(text: &mut String<A>, mark: Option<Mark>) -> Result<(), AllocError>
    ensures { OnOk result (string_bytes text.new ≡ string_bytes text.old ++ mark_columns mark) }
{
    match mark {
        Some(mark) => {
            put_number(text, Some(u128::from(mark.number)))?;
            put_number(text, Some(u128::from(mark.stamp.ns())))
        }
        None => text.push_str(",,"),
    }
}

/// Makes the clock that takes an offset off stamps again.
fn clock_back(offset: i64) -> Clock
    ensures { result ≡ clock_back offset }
{
    let by = offset.unsigned_abs();
    if offset < 0 {
        Clock {
            later: by,
            sooner: 0,
            delay: 0,
        }
    } else {
        Clock {
            later: 0,
            sooner: by,
            delay: 0,
        }
    }
}

/// Returns a record with its stamp as it was before an offset was added. If that had made it the first or the last stamp that there is, the offset
/// is taken off that one.
fn without(offset: i64, mark: Mark) -> Mark
    ensures { result ≡ without offset mark }
{
    Mark {
        number: mark.number,
        stamp: clock_back(offset).moved(mark.stamp),
    }
}

/// Returns a record, if there is one, with its stamp as it was before an offset was added.
fn left_without(offset: i64, left: Option<Mark>) -> Option<Mark>
    ensures { result ≡ option_map (without offset) left }
{
    match left {
        Some(mark) => Some(without(offset, mark)),
        None => None,
    }
}

/// Returns the number of a link, if there is one.
fn link_number(link: Option<u16>) -> Option<u128>
    ensures { result ≡ link }
{
    match link {
        Some(link) => Some(u128::from(link)),
        None => None,
    }
}

/// Appends the port, the link and the kind of a row.
fn put_kind<A: Allocator + Copy>(
    text: &mut String<A>,
    port: u8,
    row: &Row,
) -> Result<(), AllocError>
    ensures { OnOk result (string_bytes text.new ≡ string_bytes text.old ++ kind_columns port row.now) }
{
    write!(text, "{port}")?;
    put_number(text, link_number(row.link))?;
    text.push_str(",")?;
    text.push_str(kind_text(row.kind))
}

/// Appends the delay and the bound of a row, and its end.
fn put_bound<A: Allocator + Copy>(text: &mut String<A>, row: &Row) -> Result<(), AllocError>
    ensures { OnOk result (string_bytes text.new ≡ string_bytes text.old ++ bound_columns row.now) }
{
    put_number(text, row.delay)?;
    put_number(text, row.bound)?;
    text.push_str("\n")
}

/// Appends a row of the port of a number, whose recorder's stamps had an offset added.
fn put_row<A: Allocator + Copy>(
    text: &mut String<A>,
    offset: i64,
    port: u8,
    row: &Row,
) -> Result<(), AllocError>
    ensures { OnOk result (string_bytes text.new ≡ string_bytes text.old ++ row_line offset port row.now) }
{
    put_kind(text, port, row)?;
    put_mark(text, row.came)?;
    put_mark(text, left_without(offset, row.left))?;
    put_bound(text, row)
}

/// Appends rows of the port of a number.
fn put_rows<A: Allocator + Copy>(
    text: &mut String<A>,
    offset: i64,
    port: u8,
    rows: &[Row],
) -> Result<(), AllocError>
    ensures { OnOk result (string_bytes text.new ≡ string_bytes text.old ++ flat_map (row_line offset port) rows.now) }
{
    for row in rows {
        put_row(text, offset, port, row)?;
    }
    Ok(())
}

/// Appends the rows of a port, in order.
fn put_port<A: Allocator + Copy>(
    alloc: A,
    text: &mut String<A>,
    offsets: &Offsets,
    comparison: &Comparison<'_, A>,
    row: &PortRow,
    seen: &Port<A>,
) -> Result<(), AllocError>
    ensures { OnOk result (string_bytes text.new ≡ string_bytes text.old ++ port_rows offsets.now comparison.now row.now seen.now) }
{
    let rows = rows_at(alloc, row.id, comparison, seen)?;
    put_rows(text, offsets.at(row.id), row.id, &rows)
}

/// Appends the rows of all ports, by rising number.
fn put_ports<A: Allocator + Copy>(
    alloc: A,
    text: &mut String<A>,
    offsets: &Offsets,
    comparison: &Comparison<'_, A>,
) -> Result<(), AllocError>
    ensures { OnOk result (string_bytes text.new ≡ string_bytes text.old ++ all_rows offsets.now comparison.now 0 comparison.now.ports) }
{
    let table = comparison.table();
    for (place, seen) in comparison.ports().iter().enumerate() {
        if let Some(row) = row_at(table, place) {
            put_port(alloc, text, offsets, comparison, row, seen)?;
        }
    }
    Ok(())
}

/// Returns all differences of a comparison that keeps them, as comma-separated values with a heading: by rising port, and at each by the instants of
/// the records that left, and of missing frames. Numbers are decimal, of records in their captures from 1 on; times are nanoseconds, and stamps as
/// recorded; what there is not is empty. The row of an extra record names the policed frame whose bytes it has, if there is one.
///
/// An error is out of memory. O(p m + r log r) for p ports, links that together lead to m of them, and r rows.
pub fn differences<A: Allocator + Copy>(
    alloc: A,
    findings: &Findings<'_, A>,
) -> Result<String<A>, AllocError>
    ensures { IfOk result (λ text. string_bytes text ≡ differences_of findings.now.recordings findings.now.comparison) }
{
    let mut text = String::new(alloc);
    text.push_str(HEADING)?;
    put_ports(
        alloc,
        &mut text,
        &findings.recordings.offsets,
        &findings.comparison,
    )?;
    Ok(text)
}
