//! The delays of links, and how full buffers were.

ghost use Rattle.std.specs.Prelude.{◌≡◌, ◌++◌, map, flat_map, slice_get, Some, string_bytes, OnOk};
ghost use Rattle.afdx_table.specs.Content.{port_row};
ghost use Rattle.afdx_rows.specs.Delays.{delays_row, buffer_row, link_rows, port_row_of, buffers_rows, measures_rows};

use afdx_csv::{Field, put_row, slack, slack_per_mille};
use afdx_load::{Loads, loads};
use afdx_measure::{Delays, Filling, Measures, bound_at};
use afdx_table::laws::ports_are_found;
use afdx_table::{LinkRow, PortRow};
use std::alloc::{AllocError, Allocator};

/// The columns of `measure`.
pub const MEASURE: &[&str] = &[
    "kind",
    "link",
    "port",
    "sent",
    "least",
    "greatest",
    "bound",
    "slack",
    "slack_per_mille",
    "occupied",
    "buffer",
    "at",
];

/// The columns of `network measure`.
pub const NETWORK_MEASURE: &[&str] = &[
    "switch",
    "kind",
    "port",
    "link",
    "from",
    "to",
    "sent",
    "least",
    "greatest",
    "least_bound",
    "bound",
    "slack",
    "slack_per_mille",
    "occupied",
    "buffer",
    "at",
];

/// Appends the row of a link at a port, whose bound for the link's priority is this, if one is promised.
fn put_delays<A: Allocator + Copy>(
    text: &mut String<A>,
    columns: &[&str],
    link: u16,
    port: u8,
    delays: &Delays,
    bound: Option<u128>,
) -> Result<(), AllocError>
    ensures { OnOk result (string_bytes text.new
        ≡ string_bytes text.old ++ delays_row (map (λ name. name.now) columns.now) link port delays.now bound) }
{
    let greatest = delays.greatest();
    put_row(
        text,
        columns,
        &[
            ("kind", Field::Word("delays")),
            ("link", Field::Number(Some(u128::from(link)))),
            ("port", Field::Number(Some(u128::from(port)))),
            ("sent", Field::Number(Some(delays.count as u128))),
            ("least", Field::of(delays.least())),
            ("greatest", Field::of(greatest)),
            ("bound", Field::Number(bound)),
            ("slack", slack(greatest, bound)),
            ("slack_per_mille", slack_per_mille(greatest, bound)),
        ],
    )
}

/// Appends the row of a port with a buffer of so many bytes, of the switch of this name.
fn put_buffer<A: Allocator + Copy>(
    text: &mut String<A>,
    columns: &[&str],
    switch: &str,
    port: u8,
    buffer: u32,
    peak: Option<Filling>,
) -> Result<(), AllocError>
    ensures { OnOk result (string_bytes text.new
        ≡ string_bytes text.old ++ buffer_row (map (λ name. name.now) columns.now) switch.now port buffer peak) }
{
    let (bytes, at) = match peak {
        Some(peak) => (peak.bytes, Some(peak.at.ns())),
        None => (0, None),
    };
    put_row(
        text,
        columns,
        &[
            ("switch", Field::Word(switch)),
            ("kind", Field::Word("buffer")),
            ("port", Field::Number(Some(u128::from(port)))),
            ("occupied", Field::Number(Some(u128::from(bytes)))),
            ("buffer", Field::Number(Some(u128::from(buffer)))),
            ("at", Field::of(at)),
        ],
    )
}

/// Appends the rows of a link, by its ports.
fn put_link<A: Allocator + Copy, B: Allocator + Copy>(
    text: &mut String<A>,
    columns: &[&str],
    measures: &Measures<'_, B>,
    loads: &Loads<'_>,
    promised: bool,
    place: usize,
    link: &LinkRow,
) -> Result<(), AllocError>
    requires loads { loads.now ≡ measures.now.run.table }
    requires place { slice_get measures.now.run.table.links place ≡ Some link.now }
    ensures { OnOk result (string_bytes text.new
        ≡ string_bytes text.old ++ link_rows (map (λ name. name.now) columns.now) promised measures.now.run link.now) }
{
    for port in link.to.as_slice() {
        let delays = measures.delays_at(place, *port);
        let bound = bound_at(promised, loads, *port, link.priority);
        put_delays(text, columns, link.id, *port, &delays, bound)?;
    }
    Ok(())
}

/// Appends the rows of all links, in the table's order.
fn put_links<A: Allocator + Copy, B: Allocator + Copy>(
    text: &mut String<A>,
    columns: &[&str],
    measures: &Measures<'_, B>,
    promised: bool,
) -> Result<(), AllocError>
    ensures { OnOk result (string_bytes text.new
        ≡ string_bytes text.old ++ flat_map (link_rows (map (λ name. name.now) columns.now) promised measures.now.run) measures.now.run.table.links) }
{
    let table = measures.table();
    let loads = loads(table);
    for place in 0..table.link_count() {
        let link = table.link_at(place).unwrap();
        put_link(text, columns, measures, &loads, promised, place, link)?;
    }
    Ok(())
}

/// Appends the row of a port.
fn put_port<A: Allocator + Copy, B: Allocator + Copy>(
    text: &mut String<A>,
    columns: &[&str],
    switch: &str,
    measures: &Measures<'_, B>,
    row: &PortRow,
) -> Result<(), AllocError>
    requires { port_row measures.now.run.table row.now.id ≡ Some row.now }
    ensures { OnOk result (string_bytes text.new
        ≡ string_bytes text.old ++ port_row_of (map (λ name. name.now) columns.now) switch.now measures.now.run row.now) }
{
    let peak = measures.peak_at(row.id);
    put_buffer(text, columns, switch, row.id, row.buffer, peak)
}

/// Appends, under these columns, a row for each port of a finished switch of this name, by rising number: how full its buffer was, in bytes.
///
/// An error says that memory ran out; the text is then of no use. O(ports) for each row, beside its columns.
pub fn put_buffers<A: Allocator + Copy, B: Allocator + Copy>(
    text: &mut String<A>,
    columns: &[&str],
    switch: &str,
    measures: &Measures<'_, B>,
) -> Result<(), AllocError>
    ensures { OnOk result (string_bytes text.new
        ≡ string_bytes text.old ++ buffers_rows (map (λ name. name.now) columns.now) switch.now measures.now.run) }
{
    ports_are_found();
    for row in measures.table().ports() {
        put_port(text, columns, switch, measures, row)?;
    }
    Ok(())
}

/// Appends, under these columns, a row for each link of a finished switch and each of its output ports, with how much of the bound the
/// greatest delay left, then one for each port. Bounds are reported if they are promised: if the table was checked, and accepted.
///
/// An error says that memory ran out; the text is then of no use. O(ports) for each row, beside its columns.
pub fn put_measures<A: Allocator + Copy, B: Allocator + Copy>(
    text: &mut String<A>,
    columns: &[&str],
    measures: &Measures<'_, B>,
    promised: bool,
) -> Result<(), AllocError>
    ensures { OnOk result (string_bytes text.new
        ≡ string_bytes text.old ++ measures_rows (map (λ name. name.now) columns.now) promised measures.now.run) }
{
    put_links(text, columns, measures, promised)?;
    put_buffers(text, columns, "", measures)
}
