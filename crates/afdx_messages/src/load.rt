//! What is reported of a load that is refused.

ghost use Rattle.std.specs.Prelude.{◌≡◌, IfOk, string_bytes};
ghost use Rattle.afdx_messages.specs.Lines.{rule_text, load_fault_text, load_line};

use afdx_load::{LoadFault, Rule};
use std::alloc::{AllocError, Global};

/// Returns what a rule is called.
fn rule_text(rule: Rule) -> &'static str
    ensures { result.now ≡ rule_text rule }
{
    match rule {
        Rule::Rate => "L1 Rate",
        Rule::Buffer => "L2 Buffer",
        Rule::HighDelay => "L3 HighDelay",
        Rule::LowDelay => "L4 LowDelay",
    }
}

/// Returns what is reported of a rule that is broken, without its line feed.
pub(crate) fn load_fault_text(alloc: Global, fault: LoadFault) -> Result<String, AllocError>
    ensures { IfOk result (λ text. string_bytes text ≡ load_fault_text fault) }
{
    let mut text = String::from_str(alloc, "afdx: load ")?;
    text.push_str(rule_text(fault.rule))?;
    write!(text, ", port {}", fault.port)?;
    write!(text, ", need {}", fault.need)?;
    write!(text, ", limit {}", fault.limit)?;
    Ok(text)
}

/// Returns the line of a rule that is broken.
///
/// An error says that memory ran out. O(line).
pub fn load_line(alloc: Global, fault: LoadFault) -> Result<String, AllocError>
    ensures { IfOk result (λ line. string_bytes line ≡ load_line fault) }
{
    let mut line = load_fault_text(alloc, fault)?;
    line.push_str("\n")?;
    Ok(line)
}
