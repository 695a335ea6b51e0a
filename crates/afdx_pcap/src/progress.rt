//! How far a capture was read, and the step to its next record.

ghost use Rattle.std.specs.Prelude.{◌≡◌, ◌≢◌, ◌+◌, ◌≤◌, length, drop, false, IfOk, IfErr, IfSome, IfNone};
ghost use Rattle.afdx_pcap.specs.declared.fault.PcapFault.TheVariants.{Memory};
ghost use Rattle.afdx_pcap.specs.Bytes.{plain_bytes, is_lent};
ghost use Rattle.afdx_pcap.specs.Capture.{header_of};
ghost use Rattle.afdx_pcap.specs.Fault.{record_fault};
ghost use Rattle.afdx_pcap.specs.Inner.Place.{BeginsAt, Comes, IsPart, IsPlaced, IsRestAnswer, NoneComes, first_place, lasting, next_in, place_of};

use crate::bytes::Bytes;
use crate::fault::PcapFault;
use crate::format::{Format, HEAD_LENGTH, HEADER_LENGTH};
use crate::reading::{fault_of_record, find_record, read_header};
use crate::record::Record;
use afdx_units::Stamp;
use std::alloc::{AllocError, Allocator};

/// After the header and some records: where the rest begins, and the last stamp so far.
#[derive(Clone, Copy, Debug)]
pub struct Progress {
    pub format: Format,
    pub place: usize,
    pub last: Stamp,
}

impl Progress {
    /// Reads the header of these bytes, and returns the place after it, before any record.
    fn after_header(bytes: &[u8]) -> Result<Progress, PcapFault>
        ensures place { result ≡ first_place (header_of bytes.now) }
        ensures within { IfOk result (λ p. p.place ≤ length bytes.now) }
        ensures no_memory { IfErr result (λ fault. fault ≢ Memory) }
    {
        let format = read_header(bytes)?;
        Ok(Progress {
            format,
            place: HEADER_LENGTH,
            last: Stamp::ZERO,
        })
    }

    /// Finds the record at the start of the rest, and how far it leads; none if something is wrong with it.
    fn read_on(self, bytes: &[u8], given: usize) -> Option<Next>
        requires { IsPlaced bytes.now given (Some self) }
        ensures begins { IfSome result (BeginsAt bytes.now self) }
        ensures none { IfNone result (record_fault self.format self.last (given + 1) (drop self.place bytes.now) ≢ None) }
    {
        let rest = &bytes[self.place..];
        let found = find_record(self.format, self.last, given + 1, rest)?;
        let start = self.place + HEAD_LENGTH;
        Some(Next {
            original: found.original,
            start,
            progress: Progress {
                format: self.format,
                place: start + found.length,
                last: found.stamp,
            },
        })
    }
}

/// A record by its numbers: its bytes go from `start` to the place to which it leads, and its stamp is the last there.
///
/// Of the steps to the next record this alone is handed on, in registers; the record is made once, where they end.
#[derive(Clone, Copy, Debug)]
pub struct Next {
    pub original: u32,
    pub start: usize,
    pub progress: Progress,
}

impl Next {
    /// Makes the record. Its bytes are lent if these are; it shares them if these are shared already, or if no more than `most` lie
    /// after them; else it has its own copy.
    pub fn record<'a, A: Allocator + Copy>(
        self,
        alloc: A,
        bytes: &mut Bytes<'a, A>,
        most: usize,
    ) -> Result<Record<'a, A>, AllocError>
        requires { IsPart (plain_bytes bytes.old) self }
        ensures bytes { plain_bytes bytes.new ≡ plain_bytes bytes.old }
        ensures same { is_lent bytes.new ≡ is_lent bytes.old }
        ensures ok { IfOk result (λ r. r ≡ next_in (plain_bytes bytes.old) self) }
        ensures err { IfErr result (λ _. is_lent bytes.old ≡ false) }
    {
        let data = bytes.part(alloc, self.start, self.progress.place, most)?;
        Ok(Record::of(self.progress.last, self.original, data))
    }
}

/// Returns how far the bytes were read; if they were not read so far, the place after their header.
fn place_in(bytes: &[u8], given: usize, progress: Option<Progress>) -> Result<Progress, PcapFault>
    requires { IsPlaced bytes.now given progress }
    ensures place { result ≡ place_of bytes.now progress }
    ensures placed { IfOk result (λ p. IsPlaced bytes.now given (Some p)) }
    ensures no_memory { IfErr result (λ fault. fault ≢ Memory) }
{
    match progress {
        Some(progress) => Ok(progress),
        None => Progress::after_header(bytes),
    }
}

/// Finds the next record after the `given` ones, if there is a whole one.
///
/// Only the 24 bytes of the header and the 16 of a record's header are looked at again by a later call.
pub fn next_record(bytes: &[u8], given: usize, progress: Option<Progress>) -> Option<Next>
    requires { IsPlaced bytes.now given progress }
    ensures comes { IfSome result (Comes bytes.now progress) }
    ensures none { IfNone result (NoneComes bytes.now given progress) }
{
    match place_in(bytes, given, progress) {
        Ok(progress) => progress.read_on(bytes, given),
        Err(_) => None,
    }
}

/// Returns a fault, unless bytes that may still come can mend it.
fn unless_it_waits(closed: bool, fault: PcapFault) -> Option<PcapFault>
    ensures { result ≡ lasting closed fault }
{
    if closed || !fault.is_cut() {
        Some(fault)
    } else {
        None
    }
}

/// Finds what is wrong after the `given` records, if no whole one comes; nothing, if the bytes end there or more may mend it.
pub fn fault_after(
    bytes: &[u8],
    given: usize,
    closed: bool,
    progress: Option<Progress>,
) -> Option<PcapFault>
    requires placed { IsPlaced bytes.now given progress }
    requires none { NoneComes bytes.now given progress }
    ensures answer { IsRestAnswer bytes.now given closed (place_of bytes.now progress) result }
    ensures no_memory { IfSome result (λ fault. fault ≢ Memory) }
{
    let progress = match place_in(bytes, given, progress) {
        Ok(progress) => progress,
        Err(fault) => return unless_it_waits(closed, fault),
    };
    if progress.place == bytes.len() {
        return None;
    }
    let rest = &bytes[progress.place..];
    match fault_of_record(progress.format, progress.last, given + 1, rest) {
        Some(fault) => unless_it_waits(closed, fault),
        None => unreachable!(),
    }
}
