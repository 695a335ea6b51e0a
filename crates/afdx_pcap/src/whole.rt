//! A whole capture.

ghost use Rattle.std.specs.Prelude.{◌≡◌, ◌≢◌, ◌<◌, List, length, IfOk, IfErr};
ghost use Rattle.afdx_pcap.specs.declared.fault.PcapFault.TheVariants.{Memory};
ghost use Rattle.afdx_pcap.specs.Record as pcap;
ghost use Rattle.afdx_pcap.specs.Capture.{IsCapture};
ghost use Rattle.afdx_pcap.specs.Fault.{IsFault};

use crate::fault::PcapFault;
use crate::reader::Reader;
use crate::record::Record;
use std::alloc::Allocator;

/// Counts the records of a capture, or finds its first fault. Takes no memory.
fn record_count<A: Allocator + Copy>(alloc: A, bytes: &[u8]) -> Result<usize, PcapFault>
    ensures count { IfOk result (λ n. (rs : List pcap.Record) × IsCapture bytes.now rs × (length rs ≡ n)) }
    ensures fault { IfErr result (IsFault bytes.now) }
    ensures no_memory { IfErr result (λ fault. fault ≢ Memory) }
{
    let mut count = 0;
    let mut reader = Reader::over(alloc, bytes);
    while reader.next()?.is_some() {
        count += 1;
    }
    Ok(count)
}

/// Reads the records of a capture, in file order; their bytes are lent from it.
///
/// The format is pcap 2.4; all four magics are read, and zone, accuracy and snaplen are ignored. An original
/// length below the captured one is taken as it is.
///
/// # Errors
///
/// The first fault of the file, in the order of [`PcapFault`]; `Memory` if the room for the list was refused, which is made once:
/// only for a file that has a record and no fault.
///
/// Two passes over the records' headers, and no copy of their bytes: O(records).
pub fn read_all<A: Allocator + Copy>(
    alloc: A,
    bytes: &[u8],
) -> Result<Vec<Record<'_, A>, A>, PcapFault>
    ensures capture { IfOk result (λ rs. IsCapture bytes.now rs.items) }
    ensures fault { IfErr result (λ fault. fault ≢ Memory → IsFault bytes.now fault) }
    ensures memory { IfErr result (λ fault. fault ≡ Memory
        → (rs : List pcap.Record) × IsCapture bytes.now rs × (0 < length rs)) }
{
    let mut all = Vec::with_capacity(alloc, record_count(alloc, bytes)?)?;
    let mut reader = Reader::over(alloc, bytes);
    while let Some(record) = reader.next()? {
        all.push_reserved(record);
    }
    Ok(all)
}
