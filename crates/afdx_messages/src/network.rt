//! The line of a network that is refused.

ghost use Rattle.std.specs.Prelude.{◌≡◌, ◌++◌, codes, map, flat_map, slice_get, option_map, option_copied, string_bytes, IfOk, OnOk};
ghost use Rattle.std.specs.Fmt.{decimal};
ghost use Rattle.afdx_wiring.specs.Lines.{as_line};
ghost use Rattle.afdx_wiring.specs.Names.{key_text, place_text};
ghost use Rattle.afdx_messages.specs.Lines.{load_fault_text, network_rule, switch_part, link_part, short_text, network_text, row_fault, jitter_rule, row_line, rest_line, rows_lines};
ghost use Rattle.afdx_messages.specs.Lines.{line_line, network_failure_line, network_status};

use crate::capture::capture_text;
use crate::load::load_fault_text;
use crate::network_failure::{JitterRule, NetworkFailure};
use crate::table::table_text;
use afdx_load::LoadFault;
use afdx_wiring::{At, Key, NetworkFault, Short};
use std::alloc::{AllocError, Global};

/// The most rows that have a line each.
const MOST_ROW_LINES: usize = 100;

/// Appends the switch of this name, if there is one.
fn put_switch(text: &mut String, name: Option<&str>) -> Result<(), AllocError>
    ensures { OnOk result (string_bytes text.new ≡ string_bytes text.old ++ switch_part (option_map (λ n. n.now) name.entry)) }
{
    if let Some(name) = name {
        text.push_str(", switch ")?;
        text.push_str(name)?;
    }
    Ok(())
}

/// Returns what a rule is called, as the beginning of its line.
fn rule_text(alloc: Global, rule: &str) -> Result<String, AllocError>
    ensures { IfOk result (λ text. string_bytes text ≡ network_rule rule.now) }
{
    let mut text = String::from_str(alloc, "afdx: network ")?;
    text.push_str(rule)?;
    Ok(text)
}

/// Returns the text of a refusal at a place of the file.
fn at_place(alloc: Global, rule: &str, at: At) -> Result<String, AllocError>
    ensures { IfOk result (λ text. string_bytes text ≡ network_rule rule.now ++ codes ", " ++ place_text at) }
{
    let mut text = rule_text(alloc, rule)?;
    write!(text, ", {at}")?;
    Ok(text)
}

/// Returns the text of a refusal of the value of a key.
fn at_key(alloc: Global, rule: &str, at: At, key: Key) -> Result<String, AllocError>
    ensures { IfOk result (λ text. string_bytes text ≡ network_rule rule.now ++ codes ", " ++ place_text at ++ codes ", " ++ key_text key) }
{
    let mut text = rule_text(alloc, rule)?;
    write!(text, ", {at}")?;
    write!(text, ", {key}")?;
    Ok(text)
}

/// Returns the text of a refusal of a link at a wire.
fn at_link(alloc: Global, rule: &str, at: At, link: u16) -> Result<String, AllocError>
    ensures { IfOk result (λ text. string_bytes text ≡ network_rule rule.now ++ codes ", " ++ place_text at ++ link_part link) }
{
    let mut text = rule_text(alloc, rule)?;
    write!(text, ", {at}")?;
    write!(text, ", link {link}")?;
    Ok(text)
}

/// Returns the text of a refusal of a switch.
fn at_switch(alloc: Global, rule: &str, name: Option<&str>) -> Result<String, AllocError>
    ensures { IfOk result (λ text. string_bytes text ≡ network_rule rule.now ++ switch_part (option_map (λ n. n.now) name.entry)) }
{
    let mut text = rule_text(alloc, rule)?;
    put_switch(&mut text, name)?;
    Ok(text)
}

/// Returns the text of a refusal of a link's row in the table of a switch.
fn at_row(alloc: Global, rule: &str, name: Option<&str>, link: u16) -> Result<String, AllocError>
    ensures { IfOk result (λ text. string_bytes text ≡ network_rule rule.now ++ switch_part (option_map (λ n. n.now) name.entry) ++ link_part link) }
{
    let mut text = at_switch(alloc, rule, name)?;
    write!(text, ", link {link}")?;
    Ok(text)
}

/// Returns the text of a refusal of a row's jitter, with what it needs.
fn short_text(
    alloc: Global,
    rule: &str,
    name: Option<&str>,
    short: Short,
) -> Result<String, AllocError>
    ensures { IfOk result (λ text. string_bytes text ≡ short_text rule.now (option_map (λ n. n.now) name.entry) short) }
{
    let mut text = at_row(alloc, rule, name, short.link)?;
    write!(text, ", need {}", short.need)?;
    Ok(text)
}

/// Returns the text of a refusal of the load of a switch.
fn load_text(alloc: Global, fault: LoadFault, name: Option<&str>) -> Result<String, AllocError>
    ensures { IfOk result (λ text. string_bytes text ≡ load_fault_text fault ++ switch_part (option_map (λ n. n.now) name.entry)) }
{
    let mut text = load_fault_text(alloc, fault)?;
    put_switch(&mut text, name)?;
    Ok(text)
}

/// Returns the text of a refusal of a network, of the switch of this name if it is of one.
fn network_text(
    alloc: Global,
    fault: NetworkFault,
    name: Option<&str>,
) -> Result<String, AllocError>
    ensures { IfOk result (λ text. string_bytes text ≡ network_text (option_map (λ n. n.now) name.entry) fault) }
{
    match fault {
        NetworkFault::Memory => String::from_str(alloc, "afdx: memory"),
        NetworkFault::Toml => rule_text(alloc, "G1 Toml"),
        NetworkFault::UnknownKey(at) => at_place(alloc, "G2 UnknownKey", at),
        NetworkFault::MissingKey(at, key) => at_key(alloc, "G2 MissingKey", at, key),
        NetworkFault::Kind(at, key) => at_key(alloc, "G2 Kind", at, key),
        NetworkFault::Range(at, key) => at_key(alloc, "G2 Range", at, key),
        NetworkFault::TwiceSwitch(at) => at_place(alloc, "G3 TwiceSwitch", at),
        NetworkFault::NoSuchSwitch(at) => at_place(alloc, "G3 NoSuchSwitch", at),
        NetworkFault::TwiceFrom(at) => at_place(alloc, "G3 TwiceFrom", at),
        NetworkFault::TwiceTo(at) => at_place(alloc, "G3 TwiceTo", at),
        NetworkFault::OwnPort(at) => at_place(alloc, "G3 OwnPort", at),
        NetworkFault::NoSuchPort(at) => at_place(alloc, "G3 NoSuchPort", at),
        NetworkFault::Latency(_) => at_switch(alloc, "G3 Latency", name),
        NetworkFault::Load(_, fault) => load_text(alloc, fault, name),
        NetworkFault::Constant(at) => at_place(alloc, "G4 Constant", at),
        NetworkFault::Speed(at) => at_place(alloc, "G4 Speed", at),
        NetworkFault::NoRow(at, link) => at_link(alloc, "G5 NoRow", at, link),
        NetworkFault::From(at, link) => at_link(alloc, "G6 From", at, link),
        NetworkFault::Size(at, link) => at_link(alloc, "G7 Size", at, link),
        NetworkFault::Bag(at, link) => at_link(alloc, "G7 Bag", at, link),
        NetworkFault::Police(at, link) => at_link(alloc, "G7 Police", at, link),
        NetworkFault::NoSource(_, link) => at_row(alloc, "G8 NoSource", name, link),
        NetworkFault::TwiceSource(link) => at_row(alloc, "G9 TwiceSource", None, link),
        NetworkFault::Jitter(short) => {
            let mut text = short_text(alloc, "J1 Jitter", name, short)?;
            write!(text, ", has {}", short.has)?;
            Ok(text)
        }
        NetworkFault::NoJitter(short) => short_text(alloc, "J2 NoJitter", name, short),
    }
}

/// Returns the refusal of a row by a rule of jitters.
fn row_fault(rule: JitterRule, short: Short) -> NetworkFault
    ensures { result ≡ row_fault rule short }
{
    match rule {
        JitterRule::Jitter => NetworkFault::Jitter(short),
        JitterRule::NoJitter => NetworkFault::NoJitter(short),
    }
}

/// Returns what a rule of jitters is called, as the beginning of its line.
fn jitter_text(rule: JitterRule) -> &'static str
    ensures { result.now ≡ network_rule (jitter_rule rule) }
{
    match rule {
        JitterRule::Jitter => "afdx: network J1 Jitter",
        JitterRule::NoJitter => "afdx: network J2 NoJitter",
    }
}

/// Makes a line of a text: appends its line feed.
fn lined(text: String) -> Result<String, AllocError>
    ensures { IfOk result (λ line. string_bytes line ≡ as_line (string_bytes text)) }
{
    let mut line = text;
    line.push_str("\n")?;
    Ok(line)
}

/// Returns the name of a switch, if there is one at this place.
fn name_at(names: &[String], switch: usize) -> Option<&String>
    ensures { option_copied result ≡ slice_get names.now switch }
{
    names.get(switch)
}

/// Returns the line of a row that a rule refuses, in a network whose switches have these names.
fn row_line(
    alloc: Global,
    rule: JitterRule,
    names: &[String],
    short: Short,
) -> Result<String, AllocError>
    ensures { IfOk result (λ line. string_bytes line ≡ row_line rule (map string_bytes names.now) short) }
{
    let fault = row_fault(rule, short);
    match name_at(names, short.switch) {
        Some(name) => lined(network_text(alloc, fault, Some(name.as_str()))?),
        None => lined(network_text(alloc, fault, None)?),
    }
}

/// Appends the lines of rows.
fn push_rows(
    lines: &mut String,
    alloc: Global,
    rule: JitterRule,
    names: &[String],
    shorts: &[Short],
) -> Result<(), AllocError>
    ensures { OnOk result (string_bytes lines.new ≡ string_bytes lines.old ++ flat_map (row_line rule (map string_bytes names.now)) shorts.now) }
{
    for short in shorts {
        let line = row_line(alloc, rule, names, *short)?;
        lines.push_str(&line)?;
    }
    Ok(())
}

/// Appends that so many rows more are refused.
fn push_more(lines: &mut String, rule: JitterRule, rest: usize) -> Result<(), AllocError>
    ensures { OnOk result (string_bytes lines.new ≡ string_bytes lines.old ++ as_line (network_rule (jitter_rule rule) ++ codes ", and " ++ decimal rest ++ codes " more")) }
{
    lines.push_str(jitter_text(rule))?;
    write!(lines, ", and {rest} more")?;
    lines.push_str("\n")?;
    Ok(())
}

/// Appends how many rows more are refused, if any are.
fn push_rest(lines: &mut String, rule: JitterRule, rest: usize) -> Result<(), AllocError>
    ensures { OnOk result (string_bytes lines.new ≡ string_bytes lines.old ++ rest_line rule rest) }
{
    if rest > 0 {
        push_more(lines, rule, rest)?;
    }
    Ok(())
}

/// Returns the lines of the rows that a rule refuses.
fn rows_lines(
    alloc: Global,
    rule: JitterRule,
    names: &[String],
    shorts: &[Short],
) -> Result<String, AllocError>
    ensures { IfOk result (λ lines. string_bytes lines ≡ rows_lines rule (map string_bytes names.now) shorts.now) }
{
    let (first, _) = shorts.split_at(MOST_ROW_LINES.min(shorts.len()));
    let mut lines = String::new(alloc);
    push_rows(&mut lines, alloc, rule, names, first)?;
    push_rest(
        &mut lines,
        rule,
        shorts.len().saturating_sub(MOST_ROW_LINES),
    )?;
    Ok(lines)
}

/// Returns the message of a record that came too soon for the line of its port.
fn line_line(alloc: Global, port: u8, number: u64, name: &str) -> Result<String, AllocError>
    ensures { IfOk result (λ line. string_bytes line ≡ line_line port number name.now) }
{
    let mut text = String::from_str(alloc, "afdx: network R2 Line")?;
    put_switch(&mut text, Some(name))?;
    write!(text, ", port {port}, record {number}")?;
    lined(text)
}

/// Returns the line of a failure, with the name of its switch if it is of one. If it is of rows, each of the first 100 has a line, and
/// another line says how many more there are, if there are more.
///
/// An error says that memory ran out. O(line).
pub fn network_failure_line(alloc: Global, failure: &NetworkFailure) -> Result<String, AllocError>
    ensures { IfOk result (λ line. string_bytes line ≡ network_failure_line failure.now) }
{
    match failure {
        NetworkFailure::Refused(fault, None) => lined(network_text(alloc, *fault, None)?),
        NetworkFailure::Refused(fault, Some(name)) => {
            lined(network_text(alloc, *fault, Some(name.as_str()))?)
        }
        NetworkFailure::Table(refusal, name) => {
            let mut text = table_text(alloc, *refusal)?;
            put_switch(&mut text, Some(name.as_str()))?;
            lined(text)
        }
        NetworkFailure::Capture(port, fault, name) => {
            let mut text = capture_text(alloc, Some(*port), *fault)?;
            put_switch(&mut text, Some(name.as_str()))?;
            lined(text)
        }
        NetworkFailure::Rows(rule, shorts, names) => rows_lines(alloc, *rule, names, shorts),
        NetworkFailure::Line(port, number, name) => line_line(alloc, *port, *number, name.as_str()),
    }
}

/// Returns the status of a failure: 4 if what the network asks for cannot be given or a record came too soon for a line, 5 for memory,
/// and 3 for texts that are refused. O(1).
pub fn network_status(failure: &NetworkFailure) -> u8
    ensures { result ≡ network_status failure.now }
{
    match failure {
        NetworkFailure::Refused(fault, _) => match fault {
            NetworkFault::Memory => 5,
            NetworkFault::Load(_, _) | NetworkFault::Jitter(_) | NetworkFault::NoJitter(_) => 4,
            _ => 3,
        },
        NetworkFailure::Rows(_, _, _) | NetworkFailure::Line(_, _, _) => 4,
        NetworkFailure::Table(_, _) | NetworkFailure::Capture(_, _, _) => 3,
    }
}
