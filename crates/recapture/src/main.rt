//! Reads a capture on standard input, and writes its records as a capture on standard output.
//!
//! Status 0 if the capture was read and written; 3 for a capture with a fault: one line on standard error names it, and nothing
//! is written; 5 for input, output or memory.
#![tactic(auto)]

ghost use Rattle.std.specs.Prelude.{◌≡◌, ◌≢◌, List, IfOk, IfErr, IfSome, OnOk};
ghost use Rattle.std.specs.Io.KnownBytes.{Appends};
ghost use Rattle.afdx_pcap.specs.declared.fault.PcapFault.TheVariants.{Memory};
ghost use Rattle.afdx_pcap.specs.Record.{Record};
ghost use Rattle.afdx_pcap.specs.Capture.{IsCapture};
ghost use Rattle.afdx_pcap.specs.Fault.{IsFault};
ghost use Rattle.afdx_pcap.specs.Text.{capture_text};
ghost use Rattle.recapture.specs.Failure.{Explains};

use afdx_pcap::{PcapFault, read_all, write_all};
use std::alloc::{Allocator, Global};
use std::io::{Read, Write};
use std::process::ExitCode;

/// The status of a capture that is refused.
const REFUSED: u8 = 3;

/// The status if input, output or memory failed.
const FAILED: u8 = 5;

/// Why nothing, or not all, was written.
#[derive(Drop)]
enum Failure {
    Capture(PcapFault),
    Device,
}

/// Returns the text of the records of a capture.
///
/// # Errors
///
/// The capture's fault, or `Memory`. O(bytes).
fn recaptured<A: Allocator + Copy>(alloc: A, input: &[u8]) -> Result<Vec<u8, A>, PcapFault>
    ensures text { IfOk result (λ out. (rs : List Record) × IsCapture input.now rs
        × (out.items ≡ capture_text rs)) }
    ensures fault { IfErr result (λ fault. fault ≢ Memory → IsFault input.now fault) }
{
    let records = read_all(alloc, input)?;
    write_all(alloc, &records)
}

/// Reads a whole capture, and writes its text at once.
fn run<R: Read, W: Write>(alloc: Global, input: &mut R, out: &mut W) -> Result<(), Failure>
    ensures written { OnOk result (IfSome (R.remaining input.old) (λ xs. (rs : List Record)
        × IsCapture xs rs × Appends (W.contents out.old) (W.contents out.new) (capture_text rs))) }
    ensures refused { IfErr result (Explains (R.remaining input.old) (W.contents out.old) (W.contents out.new)) }
{
    let mut bytes = Vec::new(alloc);
    if input.read_to_end(&mut bytes).is_err() {
        return Err(Failure::Device);
    }
    let text = recaptured(alloc, &bytes).map_err(Failure::Capture)?;
    out.write_all(&text).map_err(|_| Failure::Device)
}

fn main(rt: HostRuntime) -> ExitCode {
    match run(rt.alloc(), &mut rt.stdin(), &mut rt.stdout()) {
        Ok(()) => ExitCode::SUCCESS,
        Err(Failure::Capture(fault)) => {
            let _ = eprintln!(rt; "recapture: {fault:?}");
            ExitCode::from(if fault == PcapFault::Memory {
                FAILED
            } else {
                REFUSED
            })
        }
        Err(Failure::Device) => {
            let _ = eprintln!(rt; "recapture: device");
            ExitCode::from(FAILED)
        }
    }
}
