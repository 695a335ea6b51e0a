//! The captures of a table's ports, side by side.

ghost use Rattle.std.specs.Prelude.{◌≡◌, [], length, IfOk, IfErr};
ghost use Rattle.afdx_table.specs.Content.{Content};
ghost use Rattle.afdx_merging.specs.Inner.Merging.{HasMerged};
ghost use Rattle.afdx_session.specs.Sources.{IsSourceFault};
ghost use Rattle.afdx_trace_run.specs.Inner.Running.{clocks_of, source_fault, IsAmong};

use afdx_merging::{MergeFault, Merging, same_clocks};
use afdx_session::SourceFault;
use afdx_table::PortRow;
use std::alloc::Allocator;
use std::io::Read;

/// Opens the captures that readers give, one of each of these ports, and reads their first records.
pub(crate) fn opened<A: Allocator + Copy, R: Read>(
    alloc: A,
    ports: &[PortRow],
    readers: &mut [R],
) -> Result<Merging<A>, SourceFault>
    requires { length readers.old ≡ length ports.now }
    ensures ok { IfOk result (λ m. HasMerged R.remaining (clocks_of ports.now) readers.old readers.new m []) }
    ensures err { IfErr result (λ fault. (t : Content) → t.ports ≡ ports.now → IsSourceFault R.remaining t readers.old fault) }
{
    let clocks = same_clocks(alloc, ports)?;
    match Merging::open(alloc, &clocks, readers) {
        Ok(merging) => Ok(merging),
        Err(fault) => Err(source_fault(ports, fault)),
    }
}

/// Says of a port the fault that a merge says of a place.
pub(crate) fn source_fault(ports: &[PortRow], fault: MergeFault) -> SourceFault
    requires { IsAmong (length ports.now) fault }
    ensures { result ≡ source_fault ports.now fault }
{
    match fault {
        MergeFault::Memory => SourceFault::Memory,
        MergeFault::Read(place) => SourceFault::Read(place),
        MergeFault::Capture(place, why) => SourceFault::Capture(ports[place].id, why),
    }
}
