//! What ports need, and what they have.

ghost use Rattle.std.specs.Prelude.{◌≡◌, ◌++◌, map, string_bytes, IfOk, OnOk, if◌then◌else◌};
ghost use Rattle.afdx_load.specs.Fits.{is_broken, broken_rules};
ghost use Rattle.afdx_rows.specs.Loads.{letter_of, with_letter, breaks_text, limit_of, check_row, size_row};

use afdx_csv::{Field, put_row};
use afdx_load::{Load, PARTS, Rule, bounds, breaks};
use afdx_table::PortRow;
use std::alloc::{AllocError, Global};

/// The columns of `check`.
pub const CHECK: &[&str] = &["port", "rate", "buffer", "high", "low"];

/// The columns of `size`.
pub const SIZE: &[&str] = &[
    "port",
    "rate",
    "rate_limit",
    "buffer",
    "buffer_limit",
    "high",
    "high_limit",
    "low",
    "low_limit",
    "breaks",
];

/// The columns of `network size`.
pub const NETWORK_SIZE: &[&str] = &[
    "switch",
    "port",
    "rate",
    "rate_limit",
    "buffer",
    "buffer_limit",
    "high",
    "high_limit",
    "low",
    "low_limit",
    "breaks",
];

/// Appends the row of a port with links, under the columns of `check`: what they may ask of it, and what that leads to. `least` is the least
/// buffer that holds what may wait.
///
/// An error says that memory ran out; the text is then of no use. O(row).
pub fn put_check(
    text: &mut String,
    row: &PortRow,
    load: &Load,
    least: u128,
) -> Result<(), AllocError>
    ensures { OnOk result (string_bytes text.new ≡ string_bytes text.old ++ check_row row.now load.now least) }
{
    let bounds = bounds(load);
    put_row(
        text,
        CHECK,
        &[
            ("port", Field::Number(Some(u128::from(row.id)))),
            ("rate", Field::Number(Some(u128::from(load.rate())))),
            ("buffer", Field::Number(Some(least))),
            ("high", Field::Number(bounds.high)),
            ("low", Field::Number(bounds.low)),
        ],
    )
}

/// Returns the letter of a rule.
fn letter_of(rule: Rule) -> &'static str
    ensures { result.now ≡ letter_of rule }
{
    match rule {
        Rule::Rate => "L1",
        Rule::Buffer => "L2",
        Rule::HighDelay => "L3",
        Rule::LowDelay => "L4",
    }
}

/// Appends a letter, after a semicolon if it is not the first.
fn put_letter(letters: &mut String, rule: Rule) -> Result<(), AllocError>
    ensures { OnOk result (string_bytes letters.new ≡ with_letter (string_bytes letters.old) rule) }
{
    if !letters.is_empty() {
        letters.push_str(";")?;
    }
    letters.push_str(letter_of(rule))
}

/// Appends the letter of a rule that the load breaks.
fn put_broken(
    letters: &mut String,
    row: &PortRow,
    load: &Load,
    rule: Rule,
) -> Result<(), AllocError>
    ensures { OnOk result (string_bytes letters.new
        ≡ (if is_broken row.now load.now rule then with_letter (string_bytes letters.old) rule else string_bytes letters.old)) }
{
    if breaks(row, load, rule) {
        put_letter(letters, rule)?;
    }
    Ok(())
}

/// Gathers the letters of all rules that the load breaks.
fn letters(alloc: Global, row: &PortRow, load: &Load) -> Result<String, AllocError>
    ensures { IfOk result (λ text. string_bytes text ≡ breaks_text (broken_rules row.now load.now)) }
{
    let mut letters = String::new(alloc);
    put_broken(&mut letters, row, load, Rule::Rate)?;
    put_broken(&mut letters, row, load, Rule::Buffer)?;
    put_broken(&mut letters, row, load, Rule::HighDelay)?;
    put_broken(&mut letters, row, load, Rule::LowDelay)?;
    Ok(letters)
}

/// Returns the greatest delay, for a priority that has so many links; none if it has none.
fn limit_of(links: u32, row: &PortRow) -> Option<u128>
    ensures { result ≡ limit_of links row.now }
{
    if links == 0 {
        return None;
    }
    Some(u128::from(row.max_delay))
}

/// Appends the row of a port with links, whose load breaks the rules of these letters.
fn put_sizes<'x>(
    text: &mut String,
    columns: &[&str],
    switch: &'x str,
    letters: &'x str,
    row: &PortRow,
    load: &Load,
    least: u128,
) -> Result<(), AllocError>
    requires { letters.now ≡ breaks_text (broken_rules row.now load.now) }
    ensures { OnOk result (string_bytes text.new
        ≡ string_bytes text.old ++ size_row (map (λ name. name.now) columns.now) switch.now row.now load.now least) }
{
    let bounds = bounds(load);
    put_row(
        text,
        columns,
        &[
            ("switch", Field::Word(switch)),
            ("port", Field::Number(Some(u128::from(row.id)))),
            ("rate", Field::Number(Some(u128::from(load.rate())))),
            ("rate_limit", Field::Number(Some(u128::from(PARTS)))),
            ("buffer", Field::Number(Some(least))),
            ("buffer_limit", Field::Number(Some(u128::from(row.buffer)))),
            ("high", Field::Number(bounds.high)),
            ("high_limit", Field::Number(limit_of(load.highs(), row))),
            ("low", Field::Number(bounds.low)),
            ("low_limit", Field::Number(limit_of(load.lows(), row))),
            ("breaks", Field::Word(letters)),
        ],
    )
}

/// Appends the row of a port with links, under these columns: what they need and what the port of the switch of this name has, and the rules
/// that are broken.
///
/// An error says that memory ran out; the text is then of no use. O(row).
pub fn put_size(
    alloc: Global,
    text: &mut String,
    columns: &[&str],
    switch: &str,
    row: &PortRow,
    load: &Load,
    least: u128,
) -> Result<(), AllocError>
    ensures { OnOk result (string_bytes text.new
        ≡ string_bytes text.old ++ size_row (map (λ name. name.now) columns.now) switch.now row.now load.now least) }
{
    let letters = letters(alloc, row, load)?;
    put_sizes(text, columns, switch, &letters, row, load, least)
}
