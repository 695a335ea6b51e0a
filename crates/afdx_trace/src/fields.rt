//! Fields of a line, separated by commas.

ghost use Rattle.std.specs.Prelude.{◌≡◌, ◌++◌, codes, decimal, map, string_bytes, OnOk};
ghost use Rattle.afdx_trace.specs.Csv.{next_field, joined_by, optional};

use std::alloc::{AllocError, Allocator};

/// Appends a field that is a number.
pub(crate) fn put_number<A: Allocator + Copy>(
    text: &mut String<A>,
    number: u64,
) -> Result<(), AllocError>
    ensures { OnOk result (string_bytes text.new ≡ string_bytes text.old ++ next_field (decimal number)) }
{
    text.push_str(",")?;
    write!(text, "{number}")
}

/// Appends a field that is a number or empty.
pub(crate) fn put_optional<A: Allocator + Copy>(
    text: &mut String<A>,
    number: Option<u64>,
) -> Result<(), AllocError>
    ensures { OnOk result (string_bytes text.new ≡ string_bytes text.old ++ next_field (optional number)) }
{
    match number {
        Some(number) => put_number(text, number),
        None => text.push_str(","),
    }
}

/// Appends a field that is a word.
pub(crate) fn put_word<A: Allocator + Copy>(
    text: &mut String<A>,
    word: &str,
) -> Result<(), AllocError>
    ensures { OnOk result (string_bytes text.new ≡ string_bytes text.old ++ next_field word.now) }
{
    text.push_str(",")?;
    text.push_str(word)
}

/// Appends port numbers, with semicolons between them.
pub(crate) fn put_ports<A: Allocator + Copy>(
    text: &mut String<A>,
    ports: &[u8],
) -> Result<(), AllocError>
    ensures { OnOk result (string_bytes text.new ≡ string_bytes text.old ++ joined_by (codes ";") (map decimal ports.now)) }
{
    let Some((first, others)) = ports.split_first() else {
        return Ok(());
    };
    write!(text, "{first}")?;
    for port in others {
        text.push_str(";")?;
        write!(text, "{port}")?;
    }
    Ok(())
}
