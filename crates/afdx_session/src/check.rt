//! The first fault of captures.

ghost use Rattle.std.specs.Prelude.{List, IfErr, OnOk};
ghost use Rattle.afdx_pcap.specs.Record.{Record};
ghost use Rattle.afdx_pcap.specs.Capture.{IsCapture};
ghost use Rattle.afdx_pcap.specs.Fault.{IsFault};
ghost use Rattle.afdx_session.specs.Texts.{texts_of};
ghost use Rattle.afdx_session.specs.Reading.{IsReadFault};
ghost use Rattle.afdx_session.specs.Inner.Lent.{AreSound};

use crate::plan::RunFault;
use afdx_pcap::{PcapFault, Reader};
use std::alloc::Allocator;

/// Fails with the first fault of a text that is no capture. It takes no memory. O(records).
fn check_text<A: Allocator + Copy>(alloc: A, text: &[u8]) -> Result<(), PcapFault>
    ensures ok { OnOk result ((records : List Record) × IsCapture text.now records) }
    ensures err { IfErr result (IsFault text.now) }
{
    let mut reader = Reader::over(alloc, text);
    while reader.next()?.is_some() {}
    Ok(())
}

/// Fails with the fault of the first of these captures that has one. It takes no memory. O(records).
pub(crate) fn check_texts<A: Allocator + Copy>(
    alloc: A,
    captures: &[(u8, Vec<u8, A>)],
) -> Result<(), RunFault>
    ensures ok { OnOk result (AreSound (texts_of captures.now)) }
    ensures err { IfErr result (λ fault. IsReadFault (texts_of captures.now) fault) }
{
    for (port, text) in captures {
        if let Err(fault) = check_text(alloc, text) {
            return Err(RunFault::Capture(*port, fault));
        }
    }
    Ok(())
}
