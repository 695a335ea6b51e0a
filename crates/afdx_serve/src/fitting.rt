//! Whether the options of `compare` fit the table.

ghost use Rattle.std.specs.Prelude.{◌≡◌, find, option_copied};
ghost use Rattle.afdx_serve.specs.Fits.{lacks, is_named, is_moved, is_missing, is_stray, port_numbers, ports_fault, offset_fault, offsets_fault, span_fault, first_argument_fault};

use afdx_messages::ArgumentFault;
use afdx_recordings::Recordings;
use afdx_table::Table;
use afdx_units::{MICROSECOND, Stamp};

/// The numbers that ports can have, rising.
const PORT_NUMBERS: [u8; 24] = [
    1, 2, 3, 4, 5, 6, 7, 8, 9, 10, 11, 12, 13, 14, 15, 16, 17, 18, 19, 20, 21, 22, 23, 24,
];

/// Returns the numbers that ports can have, rising.
#[tactic(auto, unfolding(crate::specs::Fits::port_numbers))]
fn port_numbers() -> &'static [u8]
    ensures { result.now ≡ port_numbers }
{
    &PORT_NUMBERS
}

/// Returns whether the table has no port of a number.
fn lacks(table: &Table, port: u8) -> bool
    ensures { result ≡ lacks table.now port }
{
    table.port(port).is_none()
}

/// Returns whether `--ports` names a port. If it is not given, all numbers are recorded, with 0, which it cannot name.
fn is_named(recordings: &Recordings, port: u8) -> bool
    ensures { result ≡ is_named recordings.now port }
{
    recordings.outputs.has(port) && !recordings.outputs.has(0)
}

/// Returns whether `--offset` adds something at a port.
fn is_moved(recordings: &Recordings, port: u8) -> bool
    ensures { result ≡ is_moved recordings.now port }
{
    recordings.offsets.at(port) != 0
}

/// Returns whether `--ports` names a port that the table lacks.
fn is_missing(table: &Table, recordings: &Recordings, port: u8) -> bool
    ensures { result ≡ is_missing table.now recordings.now port }
{
    is_named(recordings, port) && lacks(table, port)
}

/// Returns whether `--offset` adds something where nothing is recorded.
fn is_stray(table: &Table, recordings: &Recordings, port: u8) -> bool
    ensures { result ≡ is_stray table.now recordings.now port }
{
    is_moved(recordings, port) && (lacks(table, port) || !recordings.outputs.has(port))
}

/// Returns the first of these ports that `--ports` names and the table lacks, if there is one.
fn first_missing<'a>(ports: &'a [u8], table: &Table, recordings: &Recordings) -> Option<&'a u8>
    ensures { option_copied result ≡ find (is_missing table.now recordings.now) ports.now }
{
    ports
        .iter()
        .find(|port| is_missing(table, recordings, **port))
}

/// Returns the first of these ports at which `--offset` adds something where nothing is recorded, if there is one.
fn first_stray<'a>(ports: &'a [u8], table: &Table, recordings: &Recordings) -> Option<&'a u8>
    ensures { option_copied result ≡ find (is_stray table.now recordings.now) ports.now }
{
    ports
        .iter()
        .find(|port| is_stray(table, recordings, **port))
}

/// Returns the fault of an offset at a port where nothing is recorded.
fn offset_fault(table: &Table, port: u8) -> ArgumentFault
    ensures { result ≡ offset_fault table.now port }
{
    if lacks(table, port) {
        ArgumentFault::Offset(port)
    } else {
        ArgumentFault::LeftOut(port)
    }
}

/// Returns the fault of the lowest port that `--ports` names and the table lacks, if there is one.
fn ports_fault(table: &Table, recordings: &Recordings) -> Option<ArgumentFault>
    ensures { result ≡ ports_fault table.now recordings.now }
{
    match first_missing(port_numbers(), table, recordings) {
        Some(port) => Some(ArgumentFault::Ports(*port)),
        None => None,
    }
}

/// Returns the fault of the lowest port at which `--offset` adds something where nothing is recorded, if there is one.
fn offsets_fault(table: &Table, recordings: &Recordings) -> Option<ArgumentFault>
    ensures { result ≡ offsets_fault table.now recordings.now }
{
    match first_stray(port_numbers(), table, recordings) {
        Some(port) => Some(offset_fault(table, *port)),
        None => None,
    }
}

/// Returns the fault of recordings that are to begin after they end, if both instants are given and they are.
fn span_fault(from: Option<Stamp>, until: Option<Stamp>) -> Option<ArgumentFault>
    ensures { result ≡ span_fault from until }
{
    let from = from?;
    let until = until?;
    if until < from {
        return Some(ArgumentFault::Span(from.ns(), until.ns()));
    }
    None
}

/// Returns the first option that does not fit, if there is one: the least latency, then the lowest port of `--ports`, then that of `--offset`, and then
/// the span.
pub(crate) fn first_argument_fault(table: &Table, recordings: &Recordings) -> Option<ArgumentFault>
    ensures { result ≡ first_argument_fault table.now recordings.now }
{
    let limit = table.latency();
    if limit < recordings.least {
        let least = recordings.least / MICROSECOND;
        return Some(ArgumentFault::Latency(least, limit / MICROSECOND));
    }
    match ports_fault(table, recordings) {
        Some(fault) => Some(fault),
        None => match offsets_fault(table, recordings) {
            Some(fault) => Some(fault),
            None => span_fault(recordings.from, recordings.until),
        },
    }
}
