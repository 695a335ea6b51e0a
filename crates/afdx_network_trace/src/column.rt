//! The column of the numbers that frames had at their first switches, in the text of a switch's arrivals.

ghost use Rattle.std.specs.Prelude.{◌≡◌, ◌++◌, ◌∷◌, ◌+◌, [], codes, string_bytes, option_and_then, slice_get, if◌then◌else◌, IfOk, OnOk, ◌==◌};
ghost use Rattle.afdx_network_trace.specs.Column.{number_or_none, field_of, with_column};

use std::alloc::{AllocError, Global};

/// Writes the field of a number, with the comma before it.
fn number_field(alloc: Global, number: Option<usize>) -> Result<String, AllocError>
    ensures { IfOk result (λ field. string_bytes field ≡ codes "," ++ number_or_none number) }
{
    let mut field = String::new(alloc);
    field.push_str(",")?;
    if let Some(number) = number {
        write!(field, "{number}")?;
    }
    Ok(field)
}

/// Returns the number at a place; none if there is no such place.
fn number_at(firsts: &[Option<usize>], place: usize) -> Option<usize>
    ensures { result ≡ option_and_then (λ first. first) (slice_get firsts.now place) }
{
    match firsts.get(place) {
        Some(first) => *first,
        None => None,
    }
}

/// Appends the field of a line; the first line is the heading.
fn put_field(
    alloc: Global,
    text: &mut Vec<u8>,
    line: usize,
    firsts: &[Option<usize>],
) -> Result<(), AllocError>
    ensures { OnOk result (text.new.items ≡ text.old.items ++ field_of line firsts.now) }
{
    match line.checked_sub(1) {
        None => text.extend_from_slice(b",origin"),
        Some(place) => {
            let field = number_field(alloc, number_at(firsts, place))?;
            text.extend_from_slice(field.as_bytes())
        }
    }
}

/// Adds a column, `origin`, to the text of a switch's arrivals, which is a heading and a line for each: the number that the frame of the
/// arrival had at its first switch, empty if an end system fed it here.
///
/// An error says that memory ran out. O(text).
pub fn with_first_numbers(
    alloc: Global,
    arrivals: &str,
    firsts: &[Option<usize>],
) -> Result<Vec<u8>, AllocError>
    ensures { IfOk result (λ text. text.items ≡ with_column 0 firsts.now arrivals.now) }
{
    let mut text = Vec::new(alloc);
    let mut line = 0;
    for byte in arrivals.as_bytes() {
        if *byte == b'\n' {
            put_field(alloc, &mut text, line, firsts)?;
            line += 1;
        }
        text.push(*byte)?;
    }
    Ok(text)
}
