//! A heading and its rows.

ghost use Rattle.std.specs.Prelude.{◌≡◌, ◌++◌, codes, map, string_bytes, OnOk};
ghost use Rattle.afdx_csv.specs.Csv.{text_of, field_at, heading, row};

use crate::field::{Field, put_field};
use std::alloc::{AllocError, Allocator};

/// Appends the field of a column; a row that has none has an empty one there.
fn put_column<A: Allocator + Copy>(
    text: &mut String<A>,
    name: &str,
    fields: &[(&str, Field<'_>)],
) -> Result<(), AllocError>
    ensures { OnOk result (string_bytes text.new ≡ string_bytes text.old ++ field_at (map (λ f. (f.0.now, text_of f.1)) fields.now) name.now) }
{
    for (column, field) in fields {
        if *column == name {
            return put_field(text, *field);
        }
    }
    Ok(())
}

/// Appends a heading of columns of these names: the names, with commas between them, and a line feed.
///
/// An error says that memory ran out; the text is then of no use. O(names).
#[tactic(auto, unfolding(crate::specs::Csv::heading))]
pub fn put_heading<A: Allocator + Copy>(
    text: &mut String<A>,
    columns: &[&str],
) -> Result<(), AllocError>
    ensures { OnOk result (string_bytes text.new ≡ string_bytes text.old ++ heading (map (λ name. name.now) columns.now)) }
{
    let Some((first, others)) = columns.split_first() else {
        return text.push_str("\n");
    };
    text.push_str(first)?;
    for name in others {
        text.push_str(",")?;
        text.push_str(name)?;
    }
    text.push_str("\n")
}

/// Appends a row under a heading of columns of these names: the field of each, with commas between them, and a line feed.
///
/// Each field stands beside the name of its column; a column that the row has no field for is empty in it, and a field of no column is left
/// out.
///
/// An error says that memory ran out; the text is then of no use. O(columns, and for each the fields).
#[tactic(auto, unfolding(crate::specs::Csv::row))]
pub fn put_row<A: Allocator + Copy>(
    text: &mut String<A>,
    columns: &[&str],
    fields: &[(&str, Field<'_>)],
) -> Result<(), AllocError>
    ensures { OnOk result (string_bytes text.new
        ≡ string_bytes text.old ++ row (map (λ name. name.now) columns.now) (map (λ f. (f.0.now, text_of f.1)) fields.now)) }
{
    let Some((first, others)) = columns.split_first() else {
        return text.push_str("\n");
    };
    put_column(text, first, fields)?;
    for name in others {
        text.push_str(",")?;
        put_column(text, name, fields)?;
    }
    text.push_str("\n")
}
