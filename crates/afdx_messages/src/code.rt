//! The code of a failure: the word of its line under which MESSAGES has an entry.

ghost use Rattle.std.specs.Prelude.{◌≡◌, option_map};
ghost use Rattle.afdx_messages.specs.Codes.{argument_code, table_code, capture_code, rule_code, fault_code, network_code, code_of, more_of};

use crate::argument::ArgumentFault;
use crate::failure::Failure;
use crate::network_failure::{JitterRule, NetworkFailure};
use afdx_load::Rule;
use afdx_pcap::PcapFault;
use afdx_remedies::entry_of;
use afdx_table::TableFault;
use afdx_wiring::NetworkFault;

/// Returns the code of an option that does not fit the table.
fn argument_code(fault: ArgumentFault) -> &'static str
    ensures { result.now ≡ argument_code fault }
{
    match fault {
        ArgumentFault::Latency(_, _) => "A1",
        ArgumentFault::Ports(_) | ArgumentFault::Offset(_) => "A2",
        ArgumentFault::LeftOut(_) => "A3",
        ArgumentFault::Span(_, _) => "A4",
    }
}

/// Returns the code of a table's refusal.
fn table_code(refusal: TableFault) -> &'static str
    ensures { result.now ≡ table_code refusal }
{
    match refusal {
        TableFault::Memory => "memory",
        TableFault::Toml => "C2",
        TableFault::UnknownKey(_) => "C3",
        TableFault::MissingKey(_, _) => "C4",
        TableFault::Kind(_, _) => "C5",
        TableFault::Range(_, _) => "C6",
        TableFault::Constant => "C7",
        TableFault::TwicePort(_) => "C8",
        TableFault::TwiceLink(_) => "C9",
        TableFault::NoSuchPort(_) => "C10",
        TableFault::ToEmpty(_) => "C11",
        TableFault::ToTwice(_) => "C12",
        TableFault::ToOwnPort(_) => "C13",
        TableFault::TooMany(_) => "C14",
    }
}

/// Returns the code of a capture's fault.
fn capture_code(fault: PcapFault) -> &'static str
    ensures { result.now ≡ capture_code fault }
{
    match fault {
        PcapFault::Memory => "memory",
        PcapFault::NoHeader => "P2",
        PcapFault::Magic => "P3",
        PcapFault::Version => "P4",
        PcapFault::LinkType(_) => "P5",
        PcapFault::CutHeader(_) => "P6",
        PcapFault::Huge(_) => "P7",
        PcapFault::Fraction(_) => "P8",
        PcapFault::Late(_) => "P9",
        PcapFault::Backwards(_) => "P10",
        PcapFault::CutData(_) => "P11",
    }
}

/// Returns the code of a load's rule.
fn rule_code(rule: Rule) -> &'static str
    ensures { result.now ≡ rule_code rule }
{
    match rule {
        Rule::Rate => "L1",
        Rule::Buffer => "L2",
        Rule::HighDelay => "L3",
        Rule::LowDelay => "L4",
    }
}

/// Returns the code of a network's refusal.
fn fault_code(fault: NetworkFault) -> &'static str
    ensures { result.now ≡ fault_code fault }
{
    match fault {
        NetworkFault::Memory => "memory",
        NetworkFault::Toml => "G1",
        NetworkFault::UnknownKey(_)
        | NetworkFault::MissingKey(_, _)
        | NetworkFault::Kind(_, _)
        | NetworkFault::Range(_, _) => "G2",
        NetworkFault::TwiceSwitch(_)
        | NetworkFault::NoSuchSwitch(_)
        | NetworkFault::TwiceFrom(_)
        | NetworkFault::TwiceTo(_)
        | NetworkFault::OwnPort(_)
        | NetworkFault::NoSuchPort(_)
        | NetworkFault::Latency(_) => "G3",
        NetworkFault::Load(_, why) => rule_code(why.rule),
        NetworkFault::Constant(_) | NetworkFault::Speed(_) => "G4",
        NetworkFault::NoRow(_, _) => "G5",
        NetworkFault::From(_, _) => "G6",
        NetworkFault::Size(_, _) | NetworkFault::Bag(_, _) | NetworkFault::Police(_, _) => "G7",
        NetworkFault::NoSource(_, _) => "G8",
        NetworkFault::TwiceSource(_) => "G9",
        NetworkFault::Jitter(_) => "J1",
        NetworkFault::NoJitter(_) => "J2",
    }
}

/// Returns the code of what only commands of networks refuse.
fn network_code(failure: &NetworkFailure) -> &'static str
    ensures { result.now ≡ network_code failure.now }
{
    match failure {
        NetworkFailure::Refused(fault, _) => fault_code(*fault),
        NetworkFailure::Table(refusal, _) => table_code(*refusal),
        NetworkFailure::Capture(_, fault, _) => capture_code(*fault),
        NetworkFailure::Rows(JitterRule::Jitter, _, _) => "J1",
        NetworkFailure::Rows(JitterRule::NoJitter, _, _) => "J2",
        NetworkFailure::Line(_, _, _) => "R2",
    }
}

/// Returns the code of a failure, if it has a line.
fn code_of(failure: &Failure) -> Option<&'static str>
    ensures { option_map (λ code. code.now) result ≡ code_of failure.now }
{
    let code = match failure {
        Failure::Found => return None,
        Failure::Usage => "usage",
        Failure::Argument(fault) => argument_code(*fault),
        Failure::Table(refusal) => table_code(*refusal),
        Failure::Load(fault) => rule_code(fault.rule),
        Failure::Capture(fault)
        | Failure::PortCapture(_, fault)
        | Failure::OutputCapture(_, fault) => capture_code(*fault),
        Failure::Network(refusal) => network_code(refusal),
        Failure::Get(_) => "get",
        Failure::Put(_) => "put",
        Failure::Read => "read",
        Failure::Write => "write",
        Failure::Memory => "memory",
    };
    Some(code)
}

/// Returns what follows the line of a failure: the entry of its code, if failures are explained.
pub(crate) fn more_of(failure: &Failure, is_explained: bool) -> &'static str
    ensures { result.now ≡ more_of failure.now is_explained }
{
    if !is_explained {
        return "";
    }
    match code_of(failure) {
        Some(code) => entry_of(code).unwrap_or(""),
        None => "",
    }
}
