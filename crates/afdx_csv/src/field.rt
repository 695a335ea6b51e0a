//! One field.

ghost use Rattle.std.specs.Prelude.{◌≡◌, ◌++◌, string_bytes, OnOk};
ghost use Rattle.afdx_csv.specs.Csv.{text_of};

use std::alloc::{AllocError, Allocator};

/// What a row has in a column.
#[derive(Clone, Copy, Debug, PartialEq, Eq)]
pub enum Field<'a> {
    /// A number; nothing if there is none.
    Number(Option<u128>),
    /// A number below 0 by so much.
    Below(u128),
    /// A word, without commas, quotes and line feeds.
    Word(&'a str),
}

impl Field<'static> {
    /// Returns a field with a number of 64 bits, if there is one. O(1).
    pub fn of(number: Option<u64>) -> Field<'static>
        ensures { result ≡ Field.Number number }
    {
        match number {
            Some(number) => Field::Number(Some(u128::from(number))),
            None => Field::Number(None),
        }
    }
}

/// Appends a number; nothing if there is none.
fn put_number<A: Allocator + Copy>(
    text: &mut String<A>,
    number: Option<u128>,
) -> Result<(), AllocError>
    ensures { OnOk result (string_bytes text.new ≡ string_bytes text.old ++ text_of (Field.Number number)) }
{
    match number {
        Some(number) => write!(text, "{number}"),
        None => Ok(()),
    }
}

/// Appends a field.
pub(crate) fn put_field<A: Allocator + Copy>(
    text: &mut String<A>,
    field: Field<'_>,
) -> Result<(), AllocError>
    ensures { OnOk result (string_bytes text.new ≡ string_bytes text.old ++ text_of field.entry) }
{
    match field {
        Field::Number(number) => put_number(text, number),
        Field::Below(number) => write!(text, "-{number}"),
        Field::Word(word) => text.push_str(word),
    }
}
