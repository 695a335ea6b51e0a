//! The reports of a network's switches.

ghost use Rattle.std.specs.Prelude.{◌≡◌, ◌++◌, OnOk};
ghost use Rattle.afdx_network_report.specs.Lines.{report_of};

use std::alloc::AllocError;

/// Appends the report of the switch of this name: its name and a space before each line.
///
/// An error says that memory ran out. O(report), the name with each line.
pub fn push_report(text: &mut Vec<u8>, name: &str, report: &str) -> Result<(), AllocError>
    ensures { OnOk result (text.new.items ≡ text.old.items ++ report_of name.now report.now) }
{
    let mut begins = true;
    for byte in report.as_bytes() {
        if begins {
            text.extend_from_slice(name.as_bytes())?;
            text.extend_from_slice(b" ")?;
        }
        text.push(*byte)?;
        begins = *byte == b'\n';
    }
    Ok(())
}
