//! Words with their numbers.

ghost use Rattle.std.specs.Prelude.{◌≡◌, ◌++◌, map, string_bytes, OnOk};
ghost use Rattle.afdx_lines.specs.Lines.{number, part, line};

use std::alloc::{AllocError, Allocator};

/// Appends a number, or `-` if there is none.
fn put_number<A: Allocator + Copy>(
    text: &mut String<A>,
    reported: Option<u128>,
) -> Result<(), AllocError>
    ensures { OnOk result (string_bytes text.new ≡ string_bytes text.old ++ number reported) }
{
    match reported {
        Some(number) => write!(text, "{number}"),
        None => text.push_str("-"),
    }
}

/// Appends a word and its number.
fn put_part<A: Allocator + Copy>(
    text: &mut String<A>,
    word: &str,
    number: Option<u128>,
) -> Result<(), AllocError>
    ensures { OnOk result (string_bytes text.new ≡ string_bytes text.old ++ part (word.now, number)) }
{
    text.push_str(word)?;
    put_number(text, number)
}

/// Appends words with their numbers in decimal, `-` if there is none, and a line feed.
///
/// An error says that memory ran out; the text is then of no use. O(line).
pub fn put_line<A: Allocator + Copy>(
    text: &mut String<A>,
    parts: &[(&str, Option<u128>)],
) -> Result<(), AllocError>
    ensures { OnOk result (string_bytes text.new ≡ string_bytes text.old ++ line (map (λ p. (p.0.now, p.1)) parts.now)) }
{
    for (word, number) in parts {
        put_part(text, word, *number)?;
    }
    text.push_str("\n")
}
