//! What is reported of a failure.

ghost use Rattle.std.specs.Prelude.{◌≡◌, ◌≤◌, ◌++◌, codes, string_bytes, IfOk, OnOk, MatchResult};
ghost use Rattle.std.specs.Io.KnownBytes.{Appends};
ghost use Rattle.afdx_folder.specs.Output.{AppendsPrefix};
ghost use Rattle.afdx_messages.specs.declared.failure.Failure.{Failure as Failing};
ghost use Rattle.afdx_messages.specs.Codes.{more_of};
ghost use Rattle.afdx_messages.specs.Reporting.{line_of, memory_line, status_of, ReportsAs, IsTold};
ghost use Rattle.afdx_wiring.specs.Lines.{as_line};

use crate::argument::argument_line;
use crate::capture::{capture_line, output_line};
use crate::code::more_of;
use crate::failure::Failure;
use crate::load::load_line;
use crate::network::{network_failure_line, network_status};
use crate::table::table_line;
use afdx_folder::{WriteFault, write_bytes};
use std::alloc::{AllocError, Global};
use std::io::Write;

/// How the program ends: its status, and whether the line of its failure, if it has one, and what follows it went out whole.
#[derive(Clone, Copy, Debug, PartialEq, Eq)]
pub struct Ending {
    pub status: u8,
    pub is_told: bool,
}

/// Writes a line and what follows it. If that fails, a prefix of them was written.
fn write_both<E: Write>(err: &mut E, line: &str, more: &str) -> Result<(), WriteFault>
    ensures all { OnOk result (Appends (E.contents err.old) (E.contents err.new) (line.now ++ more.now)) }
    ensures prefix { AppendsPrefix (E.contents err.old) (E.contents err.new) (line.now ++ more.now) }
{
    write_bytes(err, line.as_bytes())?;
    write_bytes(err, more.as_bytes())?;
    Ok(())
}

/// Writes a line and what follows it, as far as the writer takes them, and returns the ending with this status.
fn write_line<E: Write>(err: &mut E, line: &str, more: &str, status: u8) -> Ending
    ensures status { result.status ≡ status }
    ensures line { IsTold result.is_told (E.contents err.old) (E.contents err.new) (line.now ++ more.now) }
{
    let is_told = write_both(err, line, more).is_ok();
    Ending { status, is_told }
}

/// Writes a line that was made and what follows it, and returns the ending with this status; if memory ran out for it, those of memory.
fn write_made<E: Write>(
    err: &mut E,
    line: Result<String, AllocError>,
    more: &str,
    memory: &str,
    status: u8,
) -> Ending
    ensures { MatchResult line
        (λ text. (result.status ≡ status) × IsTold result.is_told (E.contents err.old) (E.contents err.new) (string_bytes text ++ more.now))
        (λ _. (result.status ≡ 5) × IsTold result.is_told (E.contents err.old) (E.contents err.new) (memory_line ++ memory.now)) }
{
    match line {
        Ok(text) => write_line(err, &text, more, status),
        Err(_) => write_line(err, "afdx: memory\n", memory, 5),
    }
}

/// Returns the line of a folder's failure.
fn device_line(alloc: Global, call: &str, name: &str) -> Result<String, AllocError>
    ensures { IfOk result (λ line. string_bytes line ≡ as_line (codes "afdx: device " ++ call.now ++ codes " " ++ name.now)) }
{
    let mut line = String::from_str(alloc, "afdx: device ")?;
    line.push_str(call)?;
    line.push_str(" ")?;
    line.push_str(name)?;
    line.push_str("\n")?;
    Ok(line)
}

/// Writes the line of a failure, or its lines, and if failures are explained what MESSAGES says of their code, as far as the writer
/// takes them, and returns the failure's status: 1, without a line, if there was one of what a run is to fail on, or something speaks
/// against a switch that was recorded, 2 for refused arguments or one that does not fit the table, 3 for a refused table, network or
/// capture, 4 for a refused load, refused jitters or a record that came too soon for a line, 5 for a device or memory. It also returns
/// whether the writer took all of it.
///
/// Only a line with a number or a name takes memory. If that is refused, memory is the failure. O(line).
pub fn report<E: Write>(alloc: Global, failure: &Failure, is_explained: bool, err: &mut E) -> Ending
    ensures reported { (reported : Failing) × ReportsAs failure.now reported × (result.status ≡ status_of reported)
        × IsTold result.is_told (E.contents err.old) (E.contents err.new) (line_of reported ++ more_of reported is_explained) }
    ensures failed { 1 ≤ result.status }
{
    let more = more_of(failure, is_explained);
    let memory = more_of(&Failure::Memory, is_explained);
    match failure {
        Failure::Found => Ending {
            status: 1,
            is_told: true,
        },
        Failure::Usage => write_line(err, "afdx: usage\n", more, 2),
        Failure::Argument(fault) => write_made(err, argument_line(alloc, *fault), more, memory, 2),
        Failure::Table(refusal) => write_made(err, table_line(alloc, *refusal), more, memory, 3),
        Failure::Capture(fault) => {
            write_made(err, capture_line(alloc, None, *fault), more, memory, 3)
        }
        Failure::PortCapture(port, fault) => {
            let line = capture_line(alloc, Some(*port), *fault);
            write_made(err, line, more, memory, 3)
        }
        Failure::OutputCapture(port, fault) => {
            let line = output_line(alloc, *port, *fault);
            write_made(err, line, more, memory, 3)
        }
        Failure::Load(fault) => write_made(err, load_line(alloc, *fault), more, memory, 4),
        Failure::Network(refusal) => write_made(
            err,
            network_failure_line(alloc, refusal),
            more,
            memory,
            network_status(refusal),
        ),
        Failure::Get(name) => write_made(err, device_line(alloc, "get", name), more, memory, 5),
        Failure::Put(name) => write_made(err, device_line(alloc, "put", name), more, memory, 5),
        Failure::Read => write_line(err, "afdx: device read\n", more, 5),
        Failure::Write => write_line(err, "afdx: device write\n", more, 5),
        Failure::Memory => write_line(err, "afdx: memory\n", memory, 5),
    }
}
