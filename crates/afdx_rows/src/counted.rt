//! The counters of a run, and its verdict.

ghost use Rattle.std.specs.Prelude.{◌≡◌, ◌++◌, map, flat_map, string_bytes, OnOk};
ghost use Rattle.afdx_rows.specs.Counts.{in_row, link_row, class_row, out_rows, counts_rows, verdict_row};

use afdx_count::{Counts, LinkTally, OutCount, PortTally};
use afdx_csv::{Field, put_row};
use afdx_verdict::RunVerdict;
use std::alloc::{AllocError, Allocator};

/// The columns of `run`.
pub const RUN: &[&str] = &[
    "kind",
    "port",
    "link",
    "priority",
    "seen",
    "cut",
    "short",
    "long",
    "foreign",
    "no-link",
    "wrong-port",
    "too-big",
    "clean",
    "passed",
    "policed",
    "offered",
    "full",
    "aged",
    "sent",
    "links",
    "filtered",
    "lost",
];

/// The columns of `network run`.
pub const NETWORK_RUN: &[&str] = &[
    "switch",
    "kind",
    "port",
    "link",
    "priority",
    "seen",
    "cut",
    "short",
    "long",
    "foreign",
    "no-link",
    "wrong-port",
    "too-big",
    "clean",
    "passed",
    "policed",
    "offered",
    "full",
    "aged",
    "sent",
];

/// Returns a field with a counter.
fn count(number: u64) -> Field<'static>
    ensures { result ≡ Field.Number (Some number) }
{
    Field::Number(Some(u128::from(number)))
}

/// Appends the row of the arrivals at a port.
fn put_input<A: Allocator + Copy>(
    text: &mut String<A>,
    columns: &[&str],
    switch: &str,
    port: &PortTally,
) -> Result<(), AllocError>
    ensures { OnOk result (string_bytes text.new ≡ string_bytes text.old ++ in_row (map (λ name. name.now) columns.now) switch.now port.now) }
{
    let input = port.input;
    put_row(
        text,
        columns,
        &[
            ("switch", Field::Word(switch)),
            ("kind", Field::Word("in")),
            ("port", count(u64::from(port.id))),
            ("seen", count(input.seen)),
            ("cut", count(input.cut)),
            ("short", count(input.short)),
            ("long", count(input.long)),
            ("foreign", count(input.foreign)),
            ("no-link", count(input.no_link)),
            ("wrong-port", count(input.wrong_port)),
            ("too-big", count(input.too_big)),
            ("clean", count(input.clean)),
        ],
    )
}

/// Appends the row of the clean frames of a link.
fn put_link<A: Allocator + Copy>(
    text: &mut String<A>,
    columns: &[&str],
    switch: &str,
    link: &LinkTally,
) -> Result<(), AllocError>
    ensures { OnOk result (string_bytes text.new ≡ string_bytes text.old ++ link_row (map (λ name. name.now) columns.now) switch.now link.now) }
{
    put_row(
        text,
        columns,
        &[
            ("switch", Field::Word(switch)),
            ("kind", Field::Word("link")),
            ("link", count(u64::from(link.id))),
            ("passed", count(link.count.passed)),
            ("policed", count(link.count.policed)),
        ],
    )
}

/// Appends the row of the copies of a priority at a port.
fn put_class<'x, A: Allocator + Copy>(
    text: &mut String<A>,
    columns: &[&str],
    switch: &'x str,
    priority: &'x str,
    id: u8,
    copies: OutCount,
) -> Result<(), AllocError>
    ensures { OnOk result (string_bytes text.new
        ≡ string_bytes text.old ++ class_row (map (λ name. name.now) columns.now) switch.now priority.now id copies) }
{
    put_row(
        text,
        columns,
        &[
            ("switch", Field::Word(switch)),
            ("kind", Field::Word("out")),
            ("port", count(u64::from(id))),
            ("priority", Field::Word(priority)),
            ("offered", count(copies.offered)),
            ("full", count(copies.full)),
            ("aged", count(copies.aged)),
            ("sent", count(copies.sent)),
        ],
    )
}

/// Appends the rows of the copies at a port: of the high ones, then of the low ones.
fn put_output<A: Allocator + Copy>(
    text: &mut String<A>,
    columns: &[&str],
    switch: &str,
    port: &PortTally,
) -> Result<(), AllocError>
    ensures { OnOk result (string_bytes text.new ≡ string_bytes text.old ++ out_rows (map (λ name. name.now) columns.now) switch.now port.now) }
{
    put_class(text, columns, switch, "high", port.id, port.high)?;
    put_class(text, columns, switch, "low", port.id, port.low)
}

/// Appends the row of the arrivals at each port.
fn put_inputs<A: Allocator + Copy>(
    text: &mut String<A>,
    columns: &[&str],
    switch: &str,
    ports: &[PortTally],
) -> Result<(), AllocError>
    ensures { OnOk result (string_bytes text.new
        ≡ string_bytes text.old ++ flat_map (in_row (map (λ name. name.now) columns.now) switch.now) ports.now) }
{
    for port in ports {
        put_input(text, columns, switch, port)?;
    }
    Ok(())
}

/// Appends the row of the clean frames of each link.
fn put_links<A: Allocator + Copy>(
    text: &mut String<A>,
    columns: &[&str],
    switch: &str,
    links: &[LinkTally],
) -> Result<(), AllocError>
    ensures { OnOk result (string_bytes text.new
        ≡ string_bytes text.old ++ flat_map (link_row (map (λ name. name.now) columns.now) switch.now) links.now) }
{
    for link in links {
        put_link(text, columns, switch, link)?;
    }
    Ok(())
}

/// Appends the rows of the copies at each port.
fn put_outputs<A: Allocator + Copy>(
    text: &mut String<A>,
    columns: &[&str],
    switch: &str,
    ports: &[PortTally],
) -> Result<(), AllocError>
    ensures { OnOk result (string_bytes text.new
        ≡ string_bytes text.old ++ flat_map (out_rows (map (λ name. name.now) columns.now) switch.now) ports.now) }
{
    for port in ports {
        put_output(text, columns, switch, port)?;
    }
    Ok(())
}

/// Appends a row for each line of the report of the switch of this name, under these columns, in the report's order.
///
/// An error says that memory ran out; the text is then of no use. O(ports + links), and for each the columns.
pub fn put_counts<A: Allocator + Copy, B: Allocator + Copy>(
    text: &mut String<A>,
    columns: &[&str],
    switch: &str,
    counts: &Counts<B>,
) -> Result<(), AllocError>
    ensures { OnOk result (string_bytes text.new
        ≡ string_bytes text.old ++ counts_rows (map (λ name. name.now) columns.now) switch.now counts.now) }
{
    put_inputs(text, columns, switch, counts.ports())?;
    put_links(text, columns, switch, counts.links())?;
    put_outputs(text, columns, switch, counts.ports())
}

/// Appends the row of a run's verdict, under the columns of `run`.
///
/// An error says that memory ran out; the text is then of no use. O(columns).
pub fn put_verdict<A: Allocator + Copy>(
    text: &mut String<A>,
    verdict: &RunVerdict,
) -> Result<(), AllocError>
    ensures { OnOk result (string_bytes text.new ≡ string_bytes text.old ++ verdict_row verdict.now) }
{
    put_row(
        text,
        RUN,
        &[
            ("kind", Field::Word("verdict")),
            ("links", count(verdict.links)),
            ("policed", count(verdict.policed)),
            ("filtered", count(verdict.filtered)),
            ("lost", count(verdict.lost)),
        ],
    )
}
