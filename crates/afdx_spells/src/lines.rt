//! What is reported of a spell, as text.

ghost use Rattle.std.specs.Prelude.{◌≡◌, ◌++◌, string_bytes, OnOk};
ghost use Rattle.afdx_spells.specs.Lines.{spell_line};

use crate::spell::Spell;
use std::alloc::{AllocError, Allocator};

/// Appends the line of a spell of a link.
///
/// An error says that memory ran out; the text is then of no use. O(line).
pub fn put_spell_line<A: Allocator + Copy>(
    text: &mut String<A>,
    link: u16,
    spell: &Spell,
) -> Result<(), AllocError>
    ensures { OnOk result (string_bytes text.new ≡ string_bytes text.old ++ spell_line link spell.now) }
{
    write!(text, "link {link}")?;
    write!(text, " policed {}", spell.count)?;
    write!(text, " from {}", spell.first.ns())?;
    write!(text, " to {}", spell.last.ns())?;
    write!(text, " early {}", spell.least)?;
    writeln!(text, " to {}", spell.greatest)
}
