//! When links were policed, and when frames came.

ghost use Rattle.std.specs.Prelude.{◌≡◌, ◌++◌, map, flat_map, slice_get, Some, string_bytes, OnOk};
ghost use Rattle.afdx_rows.specs.Spells.{spell_row, spell_rows, span_row, stamped_rows, policing_rows, survey_rows};

use crate::delayed::put_measures;
use afdx_csv::{Field, put_row};
use afdx_measure::Survey;
use afdx_spells::Spell;
use afdx_units::Stamp;
use std::alloc::{AllocError, Allocator};

/// The columns of `survey`.
pub const SURVEY: &[&str] = &[
    "kind",
    "port",
    "link",
    "priority",
    "seen",
    "cut",
    "short",
    "long",
    "foreign",
    "no-link",
    "wrong-port",
    "too-big",
    "clean",
    "passed",
    "policed",
    "offered",
    "full",
    "aged",
    "sent",
    "least",
    "greatest",
    "bound",
    "slack",
    "slack_per_mille",
    "occupied",
    "buffer",
    "at",
    "from",
    "to",
    "least_early",
    "greatest_early",
    "frames",
];

/// The columns of `network survey`, in which `from` and `to` are ports.
pub const NETWORK_SURVEY: &[&str] = &[
    "switch",
    "kind",
    "port",
    "link",
    "priority",
    "seen",
    "cut",
    "short",
    "long",
    "foreign",
    "no-link",
    "wrong-port",
    "too-big",
    "clean",
    "passed",
    "policed",
    "offered",
    "full",
    "aged",
    "sent",
    "from",
    "to",
    "least",
    "greatest",
    "least_bound",
    "bound",
    "slack",
    "slack_per_mille",
    "occupied",
    "buffer",
    "at",
    "first",
    "last",
    "least_early",
    "greatest_early",
    "frames",
];

/// Returns a field with a stamp in nanoseconds, if there is one.
fn stamp(at: Option<Stamp>) -> Field<'static>
    ensures { result ≡ Field.Number at }
{
    match at {
        Some(at) => Field::Number(Some(u128::from(at.ns()))),
        None => Field::Number(None),
    }
}

/// Appends the row of a spell of a link of the switch of this name; its stamps go into these two columns.
fn put_spell<'x, A: Allocator + Copy>(
    text: &mut String<A>,
    columns: &[&str],
    switch: &'x str,
    stamp_columns: (&'x str, &'x str),
    link: u16,
    spell: &Spell,
) -> Result<(), AllocError>
    ensures { OnOk result (string_bytes text.new
        ≡ string_bytes text.old ++ spell_row (map (λ name. name.now) columns.now) switch.now (stamp_columns.entry.0.now, stamp_columns.entry.1.now) link spell.now) }
{
    let (first, last) = stamp_columns;
    put_row(
        text,
        columns,
        &[
            ("switch", Field::Word(switch)),
            ("kind", Field::Word("spell")),
            ("link", Field::Number(Some(u128::from(link)))),
            ("policed", Field::of(Some(spell.count))),
            (first, stamp(Some(spell.first))),
            (last, stamp(Some(spell.last))),
            ("least_early", Field::of(Some(spell.least))),
            ("greatest_early", Field::of(Some(spell.greatest))),
        ],
    )
}

/// Appends the rows of all spells of a link.
fn put_spells<A: Allocator + Copy>(
    text: &mut String<A>,
    columns: &[&str],
    switch: &str,
    stamp_columns: (&str, &str),
    link: u16,
    spells: &[Spell],
) -> Result<(), AllocError>
    ensures { OnOk result (string_bytes text.new
        ≡ string_bytes text.old ++ flat_map (spell_row (map (λ name. name.now) columns.now) switch.now (stamp_columns.entry.0.now, stamp_columns.entry.1.now) link) spells.now) }
{
    for spell in spells {
        put_spell(text, columns, switch, stamp_columns, link, spell)?;
    }
    Ok(())
}

/// Appends the rows of the spells of all links, in the table's order.
fn put_all_spells<A: Allocator + Copy, B: Allocator + Copy>(
    text: &mut String<A>,
    columns: &[&str],
    switch: &str,
    stamp_columns: (&str, &str),
    survey: &Survey<'_, B>,
) -> Result<(), AllocError>
    ensures { OnOk result (string_bytes text.new
        ≡ string_bytes text.old
        ++ flat_map (spell_rows (map (λ name. name.now) columns.now) switch.now (stamp_columns.entry.0.now, stamp_columns.entry.1.now) survey.now.run) survey.now.run.table.links) }
{
    let table = survey.measures().table();
    for place in 0..table.link_count() {
        let link = table.link_at(place).unwrap();
        let spells = survey.spells_at(place);
        put_spells(text, columns, switch, stamp_columns, link.id, spells)?;
    }
    Ok(())
}

/// Appends the row of when frames came.
fn put_span<'x, A: Allocator + Copy, B: Allocator + Copy>(
    text: &mut String<A>,
    columns: &[&str],
    switch: &'x str,
    stamp_columns: (&'x str, &'x str),
    survey: &Survey<'_, B>,
) -> Result<(), AllocError>
    ensures { OnOk result (string_bytes text.new
        ≡ string_bytes text.old ++ span_row (map (λ name. name.now) columns.now) switch.now (stamp_columns.entry.0.now, stamp_columns.entry.1.now) survey.now.run.rows) }
{
    let (first, last) = stamp_columns;
    put_row(
        text,
        columns,
        &[
            ("switch", Field::Word(switch)),
            ("kind", Field::Word("span")),
            (first, stamp(survey.first())),
            (last, stamp(survey.last())),
            ("frames", Field::Number(Some(survey.frames() as u128))),
        ],
    )
}

/// Appends the rows of spells, and that of when frames came.
fn put_stamped<A: Allocator + Copy, B: Allocator + Copy>(
    text: &mut String<A>,
    columns: &[&str],
    switch: &str,
    stamp_columns: (&str, &str),
    survey: &Survey<'_, B>,
) -> Result<(), AllocError>
    ensures { OnOk result (string_bytes text.new
        ≡ string_bytes text.old ++ stamped_rows (map (λ name. name.now) columns.now) switch.now (stamp_columns.entry.0.now, stamp_columns.entry.1.now) survey.now.run) }
{
    put_all_spells(text, columns, switch, stamp_columns, survey)?;
    put_span(text, columns, switch, stamp_columns, survey)
}

/// Appends, under the columns of `network survey`, a row for each spell in which a link of the switch of this name was policed, and one that
/// says when frames came.
///
/// An error says that memory ran out; the text is then of no use. O(rows), and for each the columns.
pub fn put_policing<A: Allocator + Copy, B: Allocator + Copy>(
    text: &mut String<A>,
    switch: &str,
    survey: &Survey<'_, B>,
) -> Result<(), AllocError>
    ensures { OnOk result (string_bytes text.new ≡ string_bytes text.old ++ policing_rows switch.now survey.now.run) }
{
    put_stamped(text, NETWORK_SURVEY, switch, ("first", "last"), survey)
}

/// Appends, under these columns, the rows of [`put_measures`], then one for each spell in which a link was policed, and one that says when
/// frames came.
///
/// An error says that memory ran out; the text is then of no use. O(ports) for each row, beside its columns.
pub fn put_survey<A: Allocator + Copy, B: Allocator + Copy>(
    text: &mut String<A>,
    columns: &[&str],
    survey: &Survey<'_, B>,
    promised: bool,
) -> Result<(), AllocError>
    ensures { OnOk result (string_bytes text.new
        ≡ string_bytes text.old ++ survey_rows (map (λ name. name.now) columns.now) promised survey.now.run) }
{
    put_measures(text, columns, survey.measures(), promised)?;
    put_stamped(text, columns, "", ("from", "to"), survey)
}
