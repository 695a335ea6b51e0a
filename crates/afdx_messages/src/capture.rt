//! What is reported of a capture's fault.

ghost use Rattle.std.specs.Prelude.{◌≡◌, ◌++◌, IfOk, OnOk, string_bytes};
ghost use Rattle.afdx_messages.specs.Lines.{fault_text, part, text_of, capture_text, capture_line, output_line, record_of};

use afdx_pcap::PcapFault;
use std::alloc::{AllocError, Global};

/// Returns what a fault is called, with the link type if it names one.
fn fault_text(alloc: Global, fault: PcapFault) -> Result<String, AllocError>
    ensures { IfOk result (λ text. string_bytes text ≡ fault_text fault) }
{
    let name = match fault {
        PcapFault::LinkType(number) => return format!(in alloc; "P5 LinkType {number}"),
        PcapFault::Memory => "P1 Memory",
        PcapFault::NoHeader => "P2 NoHeader",
        PcapFault::Magic => "P3 Magic",
        PcapFault::Version => "P4 Version",
        PcapFault::CutHeader(_) => "P6 CutHeader",
        PcapFault::Huge(_) => "P7 Huge",
        PcapFault::Fraction(_) => "P8 Fraction",
        PcapFault::Late(_) => "P9 Late",
        PcapFault::Backwards(_) => "P10 Backwards",
        PcapFault::CutData(_) => "P11 CutData",
    };
    String::from_str(alloc, name)
}

/// Returns the record that a fault lies in, counted from 1, if it lies in one.
fn record_of(fault: PcapFault) -> Option<usize>
    ensures { result ≡ record_of fault }
{
    match fault {
        PcapFault::CutHeader(n)
        | PcapFault::Huge(n)
        | PcapFault::Fraction(n)
        | PcapFault::Late(n)
        | PcapFault::Backwards(n)
        | PcapFault::CutData(n) => Some(n),
        _ => None,
    }
}

/// Appends a further part, if there is one.
fn push_part(line: &mut String, name: &str, number: Option<usize>) -> Result<(), AllocError>
    ensures { OnOk result (string_bytes line.new ≡ string_bytes line.old ++ part name.now number) }
{
    if let Some(n) = number {
        line.push_str(name)?;
        write!(line, "{n}")?;
    }
    Ok(())
}

/// Returns what is reported of a fault of a capture, without its line feed. `name` stands before the number of the port, if it is one's.
fn text_of(
    alloc: Global,
    name: &str,
    port: Option<u8>,
    fault: PcapFault,
) -> Result<String, AllocError>
    ensures { IfOk result (λ text. string_bytes text ≡ text_of name.now port fault) }
{
    let fault_name = fault_text(alloc, fault)?;
    let mut text = String::from_str(alloc, "afdx: capture ")?;
    text.push_str(&fault_name)?;
    push_part(&mut text, name, port.map(usize::from))?;
    push_part(&mut text, ", record ", record_of(fault))?;
    Ok(text)
}

/// Returns what is reported of a fault of a capture, which is a port's or not, without its line feed.
pub(crate) fn capture_text(
    alloc: Global,
    port: Option<u8>,
    fault: PcapFault,
) -> Result<String, AllocError>
    ensures { IfOk result (λ text. string_bytes text ≡ capture_text port fault) }
{
    text_of(alloc, ", port ", port, fault)
}

/// Returns the line of a fault of a capture, which is a port's or not.
///
/// An error says that memory ran out. O(line).
pub fn capture_line(alloc: Global, port: Option<u8>, fault: PcapFault) -> Result<String, AllocError>
    ensures { IfOk result (λ line. string_bytes line ≡ capture_line port fault) }
{
    let mut line = capture_text(alloc, port, fault)?;
    line.push_str("\n")?;
    Ok(line)
}

/// Returns the line of a fault of the capture of what left at a port.
///
/// An error says that memory ran out. O(line).
pub fn output_line(alloc: Global, port: u8, fault: PcapFault) -> Result<String, AllocError>
    ensures { IfOk result (λ line. string_bytes line ≡ output_line port fault) }
{
    let mut line = text_of(alloc, ", output ", Some(port), fault)?;
    line.push_str("\n")?;
    Ok(line)
}
