//! What is reported of an option that does not fit the table.

ghost use Rattle.std.specs.Prelude.{◌≡◌, ◌++◌, codes, IfOk, string_bytes};
ghost use Rattle.std.specs.Fmt.{decimal};
ghost use Rattle.afdx_messages.specs.Lines.{argument_text, argument_line};

use std::alloc::{AllocError, Global};

/// An option of `compare` that does not fit the table.
#[derive(Clone, Copy, Debug, PartialEq, Eq)]
pub enum ArgumentFault {
    /// A1: the first, of `--least-latency`, is above the second, of the table; both in microseconds.
    Latency(u64, u64),
    /// A2: `--ports` names this port, which the table lacks.
    Ports(u8),
    /// A2: `--offset` names this port, which the table lacks.
    Offset(u8),
    /// A3: `--offset` names this port, which `--ports` leaves out.
    LeftOut(u8),
    /// A4: nothing is judged from the first, of `--from`, to the second, of `--until`; both in nanoseconds.
    Span(u64, u64),
}

/// Returns the text of a least latency that is above the table's latency.
fn latency_text(alloc: Global, least: u64, limit: u64) -> Result<String, AllocError>
    ensures { IfOk result (λ text. string_bytes text
        ≡ codes "afdx: argument A1 Latency, --least-latency " ++ decimal least ++ codes ", limit " ++ decimal limit) }
{
    let mut text = String::from_str(alloc, "afdx: argument A1 Latency, --least-latency ")?;
    write!(text, "{least}")?;
    write!(text, ", limit {limit}")?;
    Ok(text)
}

/// Returns the text of a port that an option names.
fn port_text(alloc: Global, refusal: &str, port: u8) -> Result<String, AllocError>
    ensures { IfOk result (λ text. string_bytes text ≡ codes "afdx: argument " ++ refusal.now ++ codes " " ++ decimal port) }
{
    let mut text = String::from_str(alloc, "afdx: argument ")?;
    text.push_str(refusal)?;
    write!(text, " {port}")?;
    Ok(text)
}

/// Returns the text of recordings that are to begin after they end.
fn span_text(alloc: Global, from: u64, until: u64) -> Result<String, AllocError>
    ensures { IfOk result (λ text. string_bytes text
        ≡ codes "afdx: argument A4 Span, --from " ++ decimal from ++ codes ", --until " ++ decimal until) }
{
    let mut text = String::from_str(alloc, "afdx: argument A4 Span, --from ")?;
    write!(text, "{from}")?;
    write!(text, ", --until {until}")?;
    Ok(text)
}

/// Returns what is reported of an option that does not fit, without its line feed.
fn argument_text(alloc: Global, fault: ArgumentFault) -> Result<String, AllocError>
    ensures { IfOk result (λ text. string_bytes text ≡ argument_text fault) }
{
    match fault {
        ArgumentFault::Latency(least, limit) => latency_text(alloc, least, limit),
        ArgumentFault::Ports(port) => port_text(alloc, "A2 NoSuchPort, --ports", port),
        ArgumentFault::Offset(port) => port_text(alloc, "A2 NoSuchPort, --offset", port),
        ArgumentFault::LeftOut(port) => port_text(alloc, "A3 LeftOut, --offset", port),
        ArgumentFault::Span(from, until) => span_text(alloc, from, until),
    }
}

/// Returns the line of an option that does not fit the table.
///
/// An error says that memory ran out. O(line).
pub fn argument_line(alloc: Global, fault: ArgumentFault) -> Result<String, AllocError>
    ensures { IfOk result (λ line. string_bytes line ≡ argument_line fault) }
{
    let mut line = argument_text(alloc, fault)?;
    line.push_str("\n")?;
    Ok(line)
}
