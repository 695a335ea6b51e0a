//! Names of switches and of their ports.

ghost use Rattle.std.specs.Prelude.{◌≡◌, ◌++◌, map, string_bytes, OnOk};
ghost use Rattle.afdx_network_report.specs.Lines.{name_of, end_text, ends_text};

use afdx_wiring::End;
use std::alloc::AllocError;

/// Returns the name at a place, from 0; the empty name if there is none. O(1).
pub fn name_of(names: &[String], switch: usize) -> &str
    ensures { result.now ≡ name_of (map string_bytes names.now) switch }
{
    match names.get(switch) {
        Some(name) => name.as_str(),
        None => "",
    }
}

/// Appends a port: the name of its switch, a dot and its number.
pub(crate) fn put_end(text: &mut String, names: &[String], end: End) -> Result<(), AllocError>
    ensures { OnOk result (string_bytes text.new ≡ string_bytes text.old ++ end_text (map string_bytes names.now) end) }
{
    text.push_str(name_of(names, end.switch))?;
    write!(text, ".{}", end.port)
}

/// Appends ports, with a space before each.
pub(crate) fn put_ends(text: &mut String, names: &[String], ends: &[End]) -> Result<(), AllocError>
    ensures { OnOk result (string_bytes text.new ≡ string_bytes text.old ++ ends_text (map string_bytes names.now) ends.now) }
{
    for end in ends {
        text.push_str(" ")?;
        put_end(text, names, *end)?;
    }
    Ok(())
}
