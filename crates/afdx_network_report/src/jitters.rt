//! The jitters that the rows of a network need.

ghost use Rattle.std.specs.Prelude.{◌≡◌, ◌++◌, map, string_bytes, IfOk, OnOk};
ghost use Rattle.afdx_network_report.specs.Lines.{jitter_line, jitter_text};

use crate::ends::name_of;
use afdx_network_check::RowNeed;
use std::alloc::{AllocError, Global};

/// Appends the line of a row.
fn put_need(text: &mut String, names: &[String], row: &RowNeed) -> Result<(), AllocError>
    ensures { OnOk result (string_bytes text.new ≡ string_bytes text.old ++ jitter_line (map string_bytes names.now) row.now) }
{
    text.push_str("switch ")?;
    text.push_str(name_of(names, row.switch))?;
    write!(text, " link {}", row.link)?;
    write!(text, " jitter_us {}\n", row.need)
}

/// Writes a line for each row, with the jitter in microseconds that it needs. The switches have these names.
///
/// An error says that memory ran out. O(text).
pub fn jitter_text(alloc: Global, names: &[String], rows: &[RowNeed]) -> Result<String, AllocError>
    ensures { IfOk result (λ text. string_bytes text ≡ jitter_text (map string_bytes names.now) rows.now) }
{
    let mut text = String::new(alloc);
    for row in rows {
        put_need(&mut text, names, row)?;
    }
    Ok(text)
}
