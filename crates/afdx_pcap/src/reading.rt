//! The header of a file, and a record at the start of some bytes.

ghost use Rattle.std.specs.Prelude.{◌≡◌, ◌≢◌, ◌+◌, ◌<◌, ◌≤◌, length, Some, None, IfOk, IfErr, IfSome, IfNone};
ghost use Rattle.std.specs.Option.{option_or};
ghost use Rattle.afdx_pcap.specs.declared.fault.PcapFault.TheVariants.{Memory};
ghost use Rattle.afdx_pcap.specs.Capture.{header_of, parts_of_second, stamp_of, Begins, after};
ghost use Rattle.afdx_pcap.specs.Fault.{head_fault, data_fault, record_fault};
ghost use Rattle.afdx_pcap.specs.Inner.Place.{found_in};

use crate::fault::PcapFault;
use crate::format::{Endian, Format, HEAD_LENGTH, HEADER_LENGTH, Head, Resolution};
use crate::record::{MAX_CAPTURED, Record};
use afdx_units::Stamp;
use std::alloc::Allocator;

/// The greatest seconds of a stamp that is read (profile).
const GREATEST_SECONDS: u32 = 4_294_967_294;

/// Reads the format that the header at the start of a file names.
///
/// # Errors
///
/// The first that applies: `NoHeader` if there are fewer than 24 bytes, `Magic`, `Version`, `LinkType`.
///
/// O(1), no memory.
#[tactic(auto, unfolding(crate::specs::Capture::header_of))]
pub fn read_header(bytes: &[u8]) -> Result<Format, PcapFault>
    ensures header { result ≡ header_of bytes.now }
    ensures whole { IfOk result (λ _. 24 ≤ length bytes.now) }
    ensures no_memory { IfErr result (λ fault. fault ≢ Memory) }
{
    if bytes.len() < HEADER_LENGTH {
        return Err(PcapFault::NoHeader);
    }
    let Some(format) = Format::of_magic(Endian::Big.u32_at(bytes, 0)) else {
        return Err(PcapFault::Magic);
    };
    let major = format.endian.u16_at(bytes, 4);
    let minor = format.endian.u16_at(bytes, 6);
    if major != 2 || minor != 4 {
        return Err(PcapFault::Version);
    }
    let link_type = format.endian.u32_at(bytes, 20);
    if link_type != 1 {
        return Err(PcapFault::LinkType(link_type));
    }
    Ok(format)
}

/// Returns the stamp that a record's header gives.
fn stamp_in(resolution: Resolution, head: Head) -> Stamp
    requires { head.fraction < parts_of_second resolution }
    ensures { result ≡ stamp_of resolution head }
{
    let Some(stamp) = Stamp::new(head.seconds, head.fraction * resolution.nanos()) else {
        unreachable!()
    };
    stamp
}

/// Finds the first rule that this header of a record breaks; the record is the `number`th and follows one of the stamp `last`.
fn fault_of_head(
    resolution: Resolution,
    last: Stamp,
    number: usize,
    head: Head,
) -> Option<PcapFault>
    ensures fault { result ≡ head_fault resolution last number head }
    ensures no_memory { IfSome result (λ fault. fault ≢ Memory) }
{
    if head.captured > MAX_CAPTURED {
        return Some(PcapFault::Huge(number));
    }
    if head.fraction >= resolution.parts_of_second() {
        return Some(PcapFault::Fraction(number));
    }
    if head.seconds > GREATEST_SECONDS {
        return Some(PcapFault::Late(number));
    }
    let stamp = stamp_in(resolution, head);
    if stamp < last {
        return Some(PcapFault::Backwards(number));
    }
    None
}

/// Finds what is wrong with a record of this header, of which `left` bytes are left from its first on.
#[inline(always)]
fn fault_behind(
    format: Format,
    last: Stamp,
    number: usize,
    head: Head,
    left: usize,
) -> Option<PcapFault>
    ensures fault { result ≡ option_or (head_fault format.resolution last number head) (data_fault number head left) }
    ensures no_memory { IfSome result (λ fault. fault ≢ Memory) }
{
    if let Some(fault) = fault_of_head(format.resolution, last, number, head) {
        return Some(fault);
    }
    if left < HEAD_LENGTH + head.captured as usize {
        return Some(PcapFault::CutData(number));
    }
    None
}

/// Finds what is wrong with the record at the start of these bytes, if it is no whole one.
#[tactic(auto, unfolding(crate::specs::Fault::record_fault))]
pub(crate) fn fault_of_record(
    format: Format,
    last: Stamp,
    number: usize,
    bytes: &[u8],
) -> Option<PcapFault>
    ensures fault { result ≡ record_fault format last number bytes.now }
    ensures no_memory { IfSome result (λ fault. fault ≢ Memory) }
{
    if bytes.len() < HEAD_LENGTH {
        return Some(PcapFault::CutHeader(number));
    }
    let head = format.endian.head_at_start(bytes);
    fault_behind(format, last, number, head, bytes.len())
}

/// The numbers of a record at the start of some bytes: `length` bytes of data follow its header.
#[derive(Clone, Copy, Debug)]
pub struct Found {
    pub stamp: Stamp,
    pub original: u32,
    pub length: usize,
}

/// Finds the record at the start of these bytes, by its numbers; none if `fault_of_record` says what is wrong.
///
/// It is called for each record, so it makes no fault: in a result that may be a fault, the numbers would go through memory.
#[tactic(auto, unfolding(crate::specs::Fault::record_fault))]
#[inline(always)]
pub(crate) fn find_record(format: Format, last: Stamp, number: usize, bytes: &[u8]) -> Option<Found>
    ensures begins { IfSome result (λ x. Begins format last bytes.now (found_in bytes.now x)) }
    ensures whole { IfSome result (λ x. 16 + x.length ≤ length bytes.now) }
    ensures none { IfNone result (record_fault format last number bytes.now ≢ None) }
{
    if bytes.len() < HEAD_LENGTH {
        return None;
    }
    let head = format.endian.head_at_start(bytes);
    match fault_behind(format, last, number, head, bytes.len()) {
        Some(_) => None,
        None => Some(Found {
            stamp: stamp_in(format.resolution, head),
            original: head.original,
            length: head.captured as usize,
        }),
    }
}

/// Reads the record at the start of the bytes that are left of a file of this format, and returns it with the bytes after it. The
/// record is the file's `number`th, from 1, and follows one of the stamp `last`, 0 for the first.
///
/// Its bytes are lent, so no memory is taken.
///
/// # Errors
///
/// The first that applies: `CutHeader` if there are fewer than 16 bytes, `Huge`, `Fraction`, `Late`, `Backwards`, `CutData`. If
/// more bytes may come, `is_cut` says which of these they may mend.
///
/// O(1).
pub fn read_record<'b, A: Allocator>(
    format: Format,
    last: Stamp,
    number: usize,
    bytes: &'b [u8],
) -> Result<(Record<'b, A>, &'b [u8]), PcapFault>
    ensures record { IfOk result (λ x. Begins format last bytes.now x.0 × (x.1.now ≡ after x.0 bytes.now)) }
    ensures fault { IfErr result (λ fault. record_fault format last number bytes.now ≡ Some fault) }
    ensures no_memory { IfErr result (λ fault. fault ≢ Memory) }
{
    let Some(found) = find_record(format, last, number, bytes) else {
        return match fault_of_record(format, last, number, bytes) {
            Some(fault) => Err(fault),
            None => unreachable!(),
        };
    };
    let end = HEAD_LENGTH + found.length;
    let Some(record) = Record::lent(found.stamp, found.original, &bytes[HEAD_LENGTH..end]) else {
        unreachable!()
    };
    Ok((record, &bytes[end..]))
}
