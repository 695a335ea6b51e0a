//! The line of a run's verdict.

ghost use Rattle.std.specs.Prelude.{◌≡◌, ◌++◌, string_bytes, OnOk};
ghost use Rattle.afdx_verdict.specs.Line.{many, verdict_line};

use crate::summed::RunVerdict;
use std::alloc::AllocError;

/// Appends a number of things that have this name in the singular.
#[tactic(auto, unfolding(crate::specs::Line::many))]
fn put_many(text: &mut String, number: u64, name: &str) -> Result<(), AllocError>
    ensures { OnOk result (string_bytes text.new ≡ string_bytes text.old ++ many number name.now) }
{
    write!(text, "{number} ")?;
    text.push_str(name)?;
    if number != 1 {
        text.push_str("s")?;
    }
    Ok(())
}

/// Appends the line of a run's verdict.
///
/// An error says that memory ran out; a part of the line may be there then. O(line).
pub fn push_verdict(text: &mut String, verdict: &RunVerdict) -> Result<(), AllocError>
    ensures { OnOk result (string_bytes text.new ≡ string_bytes text.old ++ verdict_line verdict.now) }
{
    text.push_str("policed ")?;
    put_many(text, verdict.links, "link")?;
    text.push_str(" ")?;
    put_many(text, verdict.policed, "frame")?;
    write!(text, ", filtered {}", verdict.filtered)?;
    write!(text, ", lost {}", verdict.lost)?;
    text.push_str("\n")?;
    Ok(())
}
