//! The ways of a network's links and the jitters of its rows, as comma-separated values.

ghost use Rattle.std.specs.Prelude.{◌≡◌, ◌++◌, codes, decimal, map, flat_map, string_bytes, IfOk, OnOk};
ghost use Rattle.afdx_network_report.specs.Lines.{end_text};
ghost use Rattle.afdx_network_report.specs.Rows.{joined, fields_row, way_row, lost_row, ways_rows, need_row, needs_rows};

use crate::accepted::last_end;
use crate::ends::{name_of, put_end};
use afdx_csv::{Field, put_heading, put_row};
use afdx_network_check::{RowNeed, Way};
use afdx_wiring::End;
use std::alloc::{AllocError, Global};

/// The columns of `network check`.
const WAYS: &[&str] = &["link", "from", "to", "ways", "least", "most", "jitter"];

/// The columns of `network jitter`.
const JITTERS: &[&str] = &["switch", "link", "jitter_us"];

/// Writes a port: the name of its switch, a dot and its number.
pub(crate) fn end_field(alloc: Global, names: &[String], end: End) -> Result<String, AllocError>
    ensures { IfOk result (λ text. string_bytes text ≡ end_text (map string_bytes names.now) end) }
{
    let mut text = String::new(alloc);
    put_end(&mut text, names, end)?;
    Ok(text)
}

/// Writes ports, with semicolons between them.
fn ends_field(alloc: Global, names: &[String], ends: &[End]) -> Result<String, AllocError>
    ensures { IfOk result (λ text. string_bytes text ≡ joined (map (end_text (map string_bytes names.now)) ends.now)) }
{
    let mut text = String::new(alloc);
    let Some((first, others)) = ends.split_first() else {
        return Ok(text);
    };
    put_end(&mut text, names, *first)?;
    for end in others {
        text.push_str(";")?;
        put_end(&mut text, names, *end)?;
    }
    Ok(text)
}

/// Writes numbers, with semicolons between them.
fn numbers_field(alloc: Global, numbers: &[u64]) -> Result<String, AllocError>
    ensures { IfOk result (λ text. string_bytes text ≡ joined (map decimal numbers.now)) }
{
    let mut text = String::new(alloc);
    let Some((first, others)) = numbers.split_first() else {
        return Ok(text);
    };
    write!(text, "{first}")?;
    for number in others {
        text.push_str(";")?;
        write!(text, "{number}")?;
    }
    Ok(text)
}

/// Appends the row of a way between these ports, over these, with these jitters.
fn put_fields<'x>(
    text: &mut String,
    from: &'x str,
    to: &'x str,
    ways: &'x str,
    jitter: &'x str,
    way: &Way,
) -> Result<(), AllocError>
    ensures { OnOk result (string_bytes text.new ≡ string_bytes text.old ++ fields_row from.now to.now ways.now jitter.now way.now) }
{
    put_row(
        text,
        WAYS,
        &[
            ("link", Field::Number(Some(u128::from(way.link)))),
            ("from", Field::Word(from)),
            ("to", Field::Word(to)),
            ("ways", Field::Word(ways)),
            ("least", Field::Number(Some(u128::from(way.delays.least)))),
            ("most", Field::Number(Some(u128::from(way.delays.most)))),
            ("jitter", Field::Word(jitter)),
        ],
    )
}

/// Appends the row of a way.
fn put_way(alloc: Global, text: &mut String, names: &[String], way: &Way) -> Result<(), AllocError>
    ensures { OnOk result (string_bytes text.new ≡ string_bytes text.old ++ way_row (map string_bytes names.now) way.now) }
{
    let from = end_field(alloc, names, way.from)?;
    let to = end_field(alloc, names, last_end(way))?;
    let ways = ends_field(alloc, names, &way.ports)?;
    let jitter = numbers_field(alloc, &way.jitters)?;
    put_fields(text, &from, &to, &ways, &jitter, way)
}

/// Appends the rows of ways.
fn put_ways(
    alloc: Global,
    text: &mut String,
    names: &[String],
    ways: &[Way],
) -> Result<(), AllocError>
    ensures { OnOk result (string_bytes text.new ≡ string_bytes text.old ++ flat_map (way_row (map string_bytes names.now)) ways.now) }
{
    for way in ways {
        put_way(alloc, text, names, way)?;
    }
    Ok(())
}

/// Appends the row of a way over which nothing comes: its link, and where it would lead out.
fn put_lost(alloc: Global, text: &mut String, names: &[String], way: &Way) -> Result<(), AllocError>
    ensures { OnOk result (string_bytes text.new ≡ string_bytes text.old ++ lost_row (map string_bytes names.now) way.now) }
{
    let to = end_field(alloc, names, last_end(way))?;
    put_row(
        text,
        WAYS,
        &[
            ("link", Field::Number(Some(u128::from(way.link)))),
            ("to", Field::Word(&to)),
        ],
    )
}

/// Appends the rows of ways over which nothing comes.
fn put_all_lost(
    alloc: Global,
    text: &mut String,
    names: &[String],
    ways: &[Way],
) -> Result<(), AllocError>
    ensures { OnOk result (string_bytes text.new ≡ string_bytes text.old ++ flat_map (lost_row (map string_bytes names.now)) ways.now) }
{
    for way in ways {
        put_lost(alloc, text, names, way)?;
    }
    Ok(())
}

/// Writes what is reported of an accepted network, with switches of these names and with these ways, as comma-separated values: a row
/// for each way, and then one for each way over which nothing comes.
///
/// An error says that memory ran out. O(text).
pub fn ways_rows(
    alloc: Global,
    names: &[String],
    ways: &[Way],
    lost: &[Way],
) -> Result<String, AllocError>
    ensures { IfOk result (λ text. string_bytes text ≡ ways_rows (map string_bytes names.now) ways.now lost.now) }
{
    let mut text = String::new(alloc);
    put_heading(&mut text, WAYS)?;
    put_ways(alloc, &mut text, names, ways)?;
    put_all_lost(alloc, &mut text, names, lost)?;
    Ok(text)
}

/// Appends the row of what a row of a table needs.
fn put_need(text: &mut String, names: &[String], row: &RowNeed) -> Result<(), AllocError>
    ensures { OnOk result (string_bytes text.new ≡ string_bytes text.old ++ need_row (map string_bytes names.now) row.now) }
{
    put_row(
        text,
        JITTERS,
        &[
            ("switch", Field::Word(name_of(names, row.switch))),
            ("link", Field::Number(Some(u128::from(row.link)))),
            ("jitter_us", Field::Number(Some(u128::from(row.need)))),
        ],
    )
}

/// Appends the rows of what rows of tables need.
fn put_needs(text: &mut String, names: &[String], rows: &[RowNeed]) -> Result<(), AllocError>
    ensures { OnOk result (string_bytes text.new ≡ string_bytes text.old ++ flat_map (need_row (map string_bytes names.now)) rows.now) }
{
    for row in rows {
        put_need(text, names, row)?;
    }
    Ok(())
}

/// Writes the jitters in microseconds that the rows of tables need, as comma-separated values. The switches have these names.
///
/// An error says that memory ran out. O(text).
pub fn needs_rows(alloc: Global, names: &[String], rows: &[RowNeed]) -> Result<String, AllocError>
    ensures { IfOk result (λ text. string_bytes text ≡ needs_rows (map string_bytes names.now) rows.now) }
{
    let mut text = String::new(alloc);
    put_heading(&mut text, JITTERS)?;
    put_needs(&mut text, names, rows)?;
    Ok(text)
}
