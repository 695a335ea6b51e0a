//! The line that says how much was read.

ghost use Rattle.std.specs.Prelude.{◌≡◌, ◌++◌, ◌<◌, codes, string_bytes, IfOk, OnOk};
ghost use Rattle.afdx_progress.specs.Line.{tenth_of, unit_of, tenths, amount_of, line_of};

use std::alloc::{AllocError, Allocator};

/// From how many bytes on they are told in gigabytes, and not in megabytes (profile).
const GIGABYTE: u64 = 1_000_000_000;

/// Returns the tenth of the unit in which so many bytes are told.
fn tenth_of(bytes: u64) -> u64
    ensures tenth { result ≡ tenth_of bytes }
    ensures some { 0 < result }
{
    if bytes < GIGABYTE {
        100_000
    } else {
        100_000_000
    }
}

/// Returns the name of that unit.
fn unit_of(bytes: u64) -> &'static str
    ensures { result.now ≡ unit_of bytes }
{
    if bytes < GIGABYTE { "MB" } else { "GB" }
}

/// Appends so many bytes, down to a tenth of a unit.
fn put_tenths<A: Allocator + Clone>(
    text: &mut String<A>,
    tenth: u64,
    bytes: u64,
) -> Result<(), AllocError>
    requires { 0 < tenth }
    ensures { OnOk result (string_bytes text.new ≡ string_bytes text.old ++ tenths tenth bytes) }
{
    let count = bytes / tenth;
    write!(text, "{}", count / 10)?;
    text.push_str(".")?;
    write!(text, "{}", count % 10)
}

/// Appends a unit after a number of it.
fn put_unit<A: Allocator + Clone>(text: &mut String<A>, bytes: u64) -> Result<(), AllocError>
    ensures { OnOk result (string_bytes text.new ≡ string_bytes text.old ++ codes " " ++ unit_of bytes) }
{
    text.push_str(" ")?;
    text.push_str(unit_of(bytes))
}

/// Appends what was read, of the whole if it is known.
fn put_amount<A: Allocator + Clone>(
    text: &mut String<A>,
    read: u64,
    whole: Option<u64>,
) -> Result<(), AllocError>
    ensures { OnOk result (string_bytes text.new ≡ string_bytes text.old ++ amount_of read whole) }
{
    match whole {
        None => {
            put_tenths(text, tenth_of(read), read)?;
            put_unit(text, read)
        }
        Some(whole) => {
            put_tenths(text, tenth_of(whole), read)?;
            text.push_str(" of ")?;
            put_tenths(text, tenth_of(whole), whole)?;
            put_unit(text, whole)
        }
    }
}

/// Returns the line: so many bytes were read, of the whole if it is known, in so many seconds.
pub(crate) fn line<A: Allocator + Clone>(
    alloc: A,
    read: u64,
    whole: Option<u64>,
    seconds: u64,
) -> Result<String<A>, AllocError>
    ensures { IfOk result (λ text. string_bytes text ≡ line_of read whole seconds) }
{
    let mut text = String::from_str(alloc, "afdx: ")?;
    put_amount(&mut text, read, whole)?;
    text.push_str(", ")?;
    write!(text, "{seconds}")?;
    text.push_str(" s")?;
    Ok(text)
}
