//! What is reported of a comparison, as rows.

ghost use Rattle.std.specs.Prelude.{◌≡◌, ◌++◌, option_map, string_bytes, OnOk};
ghost use Rattle.afdx_compare.specs.ReportRows.{report_heading, span_row, greatest_of, tally_row, output_row, port_row, verdict_word, verdict_row};

use crate::comparison::Port;
use afdx_csv::{Field, put_heading, put_row, slack, slack_per_mille};
use afdx_following::{Output, Tally};
use afdx_table::PortRow;
use afdx_units::Stamp;
use std::alloc::{AllocError, Allocator};

/// The columns of `compare`.
const COLUMNS: &[&str] = &[
    "kind",
    "link",
    "port",
    "passed",
    "seen",
    "missing",
    "extra",
    "early",
    "late",
    "before",
    "after",
    "unsure",
    "least",
    "greatest",
    "bound",
    "slack",
    "slack_per_mille",
    "foreign",
    "from",
    "until",
    "verdict",
];

/// Appends the heading.
pub(crate) fn put_report_heading<A: Allocator + Copy>(
    text: &mut String<A>,
) -> Result<(), AllocError>
    ensures { OnOk result (string_bytes text.new ≡ string_bytes text.old ++ report_heading) }
{
    put_heading(text, COLUMNS)
}

/// Appends the row of the span of instants that the recordings have.
pub(crate) fn put_span_row<A: Allocator + Copy>(
    text: &mut String<A>,
    from: Stamp,
    until: Stamp,
) -> Result<(), AllocError>
    ensures { OnOk result (string_bytes text.new ≡ string_bytes text.old ++ span_row from until) }
{
    put_row(
        text,
        COLUMNS,
        &[
            ("kind", Field::Word("span")),
            ("from", Field::Number(Some(u128::from(from.ns())))),
            ("until", Field::Number(Some(u128::from(until.ns())))),
        ],
    )
}

/// Returns the least delay of the pairs, if there is one.
fn least(tally: &Tally) -> Option<u128>
    ensures { result ≡ option_map (λ r. r.least) tally.now.delays }
{
    let range = tally.delays?;
    Some(range.least)
}

/// Returns the greatest delay of the pairs, if there is one.
fn greatest(tally: &Tally) -> Option<u128>
    ensures { result ≡ option_map (λ r. r.greatest) tally.now.delays }
{
    let range = tally.delays?;
    Some(range.greatest)
}

/// Returns the greatest delay of the pairs, if there is one, as 64 bits tell it.
fn greatest_of(tally: &Tally) -> Option<u64>
    ensures { result ≡ greatest_of tally.now }
{
    match tally.delays {
        Some(range) => Some(range.greatest.min(u128::from(u64::MAX)) as u64),
        None => None,
    }
}

/// Appends the row of a link at a port, of this tally and under this bound in nanoseconds.
fn put_tally_row<A: Allocator + Copy>(
    text: &mut String<A>,
    link: u16,
    port: u8,
    unsure: u64,
    bound: u64,
    tally: &Tally,
) -> Result<(), AllocError>
    ensures { OnOk result (string_bytes text.new ≡ string_bytes text.old ++ tally_row link port unsure bound tally.now) }
{
    let bound = u128::from(bound);
    put_row(
        text,
        COLUMNS,
        &[
            ("kind", Field::Word("link")),
            ("link", Field::Number(Some(u128::from(link)))),
            ("port", Field::Number(Some(u128::from(port)))),
            ("passed", Field::Number(Some(tally.passed()))),
            ("seen", Field::Number(Some(tally.seen()))),
            ("missing", Field::Number(Some(u128::from(tally.missing)))),
            ("extra", Field::Number(Some(u128::from(tally.extra)))),
            ("early", Field::Number(Some(u128::from(tally.early)))),
            ("late", Field::Number(Some(u128::from(tally.late)))),
            ("before", Field::Number(Some(u128::from(tally.before)))),
            ("after", Field::Number(Some(u128::from(tally.after)))),
            ("unsure", Field::Number(Some(u128::from(unsure)))),
            ("least", Field::Number(least(tally))),
            ("greatest", Field::Number(greatest(tally))),
            ("bound", Field::Number(Some(bound))),
            ("slack", slack(greatest_of(tally), Some(bound))),
            (
                "slack_per_mille",
                slack_per_mille(greatest_of(tally), Some(bound)),
            ),
        ],
    )
}

/// Appends the row of a link at a port.
pub(crate) fn put_output_row<A: Allocator + Copy>(
    text: &mut String<A>,
    link: u16,
    unsure: u64,
    output: &Output<'_, A>,
) -> Result<(), AllocError>
    ensures { OnOk result (string_bytes text.new ≡ string_bytes text.old ++ output_row link unsure output.now) }
{
    let bound = output.limits().bound;
    put_tally_row(text, link, output.port(), unsure, bound, output.tally())
}

/// Appends the row of an output port that was recorded.
pub(crate) fn put_port_row<A: Allocator + Copy>(
    text: &mut String<A>,
    row: &PortRow,
    port: &Port<A>,
) -> Result<(), AllocError>
    ensures { OnOk result (string_bytes text.new ≡ string_bytes text.old ++ port_row row.now port.now) }
{
    put_row(
        text,
        COLUMNS,
        &[
            ("kind", Field::Word("out")),
            ("port", Field::Number(Some(u128::from(row.id)))),
            ("seen", Field::Number(Some(u128::from(port.seen)))),
            ("foreign", Field::Number(Some(u128::from(port.foreign)))),
        ],
    )
}

/// Returns the word of the verdict.
pub(crate) fn verdict_word(conforms: bool) -> &'static str
    ensures { result.now ≡ verdict_word conforms }
{
    if conforms { "conforms" } else { "differs" }
}

/// Appends the row of the verdict.
pub(crate) fn put_verdict_row<A: Allocator + Copy>(
    text: &mut String<A>,
    conforms: bool,
) -> Result<(), AllocError>
    ensures { OnOk result (string_bytes text.new ≡ string_bytes text.old ++ verdict_row conforms) }
{
    put_row(
        text,
        COLUMNS,
        &[
            ("kind", Field::Word("verdict")),
            ("verdict", Field::Word(verdict_word(conforms))),
        ],
    )
}
