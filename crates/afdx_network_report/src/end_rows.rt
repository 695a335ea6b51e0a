//! The delays of links from end to end, as comma-separated values.

ghost use Rattle.std.specs.Prelude.{◌≡◌, ◌++◌, map, string_bytes, IfOk, OnOk};
ghost use Rattle.afdx_network_report.specs.Rows.{least_bound, bound_of, come_in_field, end_fields, link_end_row};

use crate::link_ends::LinkEnd;
use crate::rows::end_field;
use afdx_csv::{Field, put_row, slack, slack_per_mille};
use afdx_measure::Delays;
use afdx_wiring::End;
use std::alloc::{AllocError, Global};

/// Returns the least that is promised, if something is.
fn least_bound(end: &LinkEnd) -> Option<u64>
    ensures { result ≡ least_bound end.now }
{
    match end.bounds {
        Some(bounds) => Some(bounds.least),
        None => None,
    }
}

/// Returns the most that is promised, if something is.
fn bound_of(end: &LinkEnd) -> Option<u128>
    ensures { result ≡ bound_of end.now }
{
    match end.bounds {
        Some(bounds) => Some(u128::from(bounds.most)),
        None => None,
    }
}

/// Writes the port at which a link comes in; nothing if there is none.
fn come_in_field(alloc: Global, names: &[String], from: Option<End>) -> Result<String, AllocError>
    ensures { IfOk result (λ text. string_bytes text ≡ come_in_field (map string_bytes names.now) from) }
{
    match from {
        Some(from) => end_field(alloc, names, from),
        None => Ok(String::new(alloc)),
    }
}

/// Appends the row of a link between these ports.
fn put_fields<'x>(
    text: &mut String,
    columns: &[&str],
    from: &'x str,
    to: &'x str,
    end: &LinkEnd,
    delays: &Delays,
) -> Result<(), AllocError>
    ensures { OnOk result (string_bytes text.new
        ≡ string_bytes text.old ++ end_fields (map (λ name. name.now) columns.now) from.now to.now end.now delays.now) }
{
    let greatest = delays.greatest();
    let bound = bound_of(end);
    put_row(
        text,
        columns,
        &[
            ("kind", Field::Word("way")),
            ("link", Field::Number(Some(u128::from(end.link)))),
            ("from", Field::Word(from)),
            ("to", Field::Word(to)),
            ("sent", Field::Number(Some(delays.count as u128))),
            ("least", Field::of(delays.least())),
            ("greatest", Field::of(greatest)),
            ("least_bound", Field::of(least_bound(end))),
            ("bound", Field::Number(bound)),
            ("slack", slack(greatest, bound)),
            ("slack_per_mille", slack_per_mille(greatest, bound)),
        ],
    )
}

/// Appends, under these columns, the row of a link at a port at which it leads out of the network: where its frames come in, how many left,
/// what they took in nanoseconds beside what they may take, and how much the greatest delay left of the most that they may take.
///
/// An error says that memory ran out; the text is then of no use. O(row).
pub fn put_link_end_row(
    alloc: Global,
    text: &mut String,
    columns: &[&str],
    names: &[String],
    end: &LinkEnd,
    delays: &Delays,
) -> Result<(), AllocError>
    ensures { OnOk result (string_bytes text.new
        ≡ string_bytes text.old ++ link_end_row (map (λ name. name.now) columns.now) (map string_bytes names.now) end.now delays.now) }
{
    let from = come_in_field(alloc, names, end.from)?;
    let to = end_field(alloc, names, end.to)?;
    put_fields(text, columns, &from, &to, end, delays)
}
