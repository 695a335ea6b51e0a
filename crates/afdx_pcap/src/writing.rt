//! Captures that are written.

ghost use Rattle.std.specs.Prelude.{◌≡◌, ◌++◌, ◌+◌, ◌<◌, ◌≤◌, min, length, vec_len, IfOk, OnOk, OnErr, IsOkUnless};
ghost use Rattle.std.specs.Vec.{vec_capacity};
ghost use Rattle.afdx_pcap.specs.declared.fault.PcapFault.TheVariants.{Memory};
ghost use Rattle.afdx_pcap.specs.Record.{IsWithinLimit, captured_limit, whole};
ghost use Rattle.afdx_pcap.specs.Capture.{IsCapture};
ghost use Rattle.afdx_pcap.specs.Text.{header_text, head_text, record_text, capture_text, AreReadable};

use crate::fault::PcapFault;
use crate::format::{HEAD_LENGTH, HEADER_LENGTH};
use crate::record::Record;
use afdx_units::Stamp;
use byteorder::{ByteOrder, LittleEndian};
use std::alloc::{AllocError, Allocator};

/// Little-endian, nanoseconds, version 2.4, snaplen 262,144, Ethernet.
const HEADER: [u8; HEADER_LENGTH] = [
    0x4d, 0x3c, 0xb2, 0xa1, 2, 0, 4, 0, 0, 0, 0, 0, 0, 0, 0, 0, 0, 0, 4, 0, 1, 0, 0, 0,
];

/// Returns the header of the record of a frame that is whole.
#[tactic(auto, unfolding(crate::specs::Text::head_text))]
fn head_bytes(stamp: Stamp, bytes: &[u8]) -> [u8; HEAD_LENGTH]
    requires { length bytes.now ≤ captured_limit }
    ensures { result ≡ head_text (whole stamp bytes.now) }
{
    let length = bytes.len() as u32;
    let mut head = [0; HEAD_LENGTH];
    LittleEndian::write_u32(&mut head, stamp.sec());
    LittleEndian::write_u32(&mut head[4..], stamp.nanos());
    LittleEndian::write_u32(&mut head[8..], length);
    LittleEndian::write_u32(&mut head[12..], length);
    head
}

/// Returns the number of bytes of the whole text, or the greatest number if they are more.
fn text_length<A: Allocator>(records: &[Record<'_, A>]) -> usize
    ensures { result ≡ min (length (capture_text records.now)) usize.MAX }
{
    let mut total = HEADER_LENGTH;
    for record in records {
        total = total.saturating_add(HEAD_LENGTH + record.bytes().len());
    }
    total
}

/// Appends the header of a capture, which is the text of no records.
///
/// # Errors
///
/// Out of memory, with nothing appended. O(1) amortized.
pub fn write_header<A: Allocator>(out: &mut Vec<u8, A>) -> Result<(), AllocError>
    ensures ok { OnOk result (out.new.items ≡ out.old.items ++ header_text) }
    ensures err { OnErr result (out.new.items ≡ out.old.items) }
    ensures capacity { vec_capacity out.old ≤ vec_capacity out.new }
{
    out.extend_from_slice(&HEADER)
}

/// Appends the text of a record, which is 16 bytes and the record's own.
///
/// # Errors
///
/// Out of memory, with nothing appended; never if there is room for the text. The record's bytes are copied once: O(bytes)
/// amortized.
#[tactic(auto, unfolding(crate::specs::Text::head_text))]
pub fn write_record<A: Allocator, B: Allocator>(
    out: &mut Vec<u8, A>,
    source: &Record<'_, B>,
) -> Result<(), AllocError>
    ensures ok { OnOk result (out.new.items ≡ out.old.items ++ record_text source.now) }
    ensures limit { IsWithinLimit source.now }
    ensures err { OnErr result (out.new.items ≡ out.old.items) }
    ensures full { OnErr result (vec_capacity out.old < vec_len out.old + (16 + length source.now.bytes)) }
    ensures capacity { vec_capacity out.old ≤ vec_capacity out.new }
{
    write_frame(out, source.stamp(), source.bytes())
}

/// Appends the text of a record of these bytes, at most 262,144, of a frame that is whole.
///
/// # Errors
///
/// Out of memory, with nothing appended; never if there is room for the text. The bytes are copied once: O(bytes) amortized.
pub fn write_frame<A: Allocator>(
    out: &mut Vec<u8, A>,
    stamp: Stamp,
    bytes: &[u8],
) -> Result<(), AllocError>
    requires { length bytes.now ≤ captured_limit }
    ensures ok { OnOk result (out.new.items ≡ out.old.items ++ record_text (whole stamp bytes.now)) }
    ensures err { OnErr result (out.new.items ≡ out.old.items) }
    ensures full { OnErr result (vec_capacity out.old < vec_len out.old + (16 + length bytes.now)) }
    ensures capacity { vec_capacity out.old ≤ vec_capacity out.new }
{
    out.reserve(HEAD_LENGTH + bytes.len())?;
    out.extend_from_slice(&head_bytes(stamp, bytes))?;
    out.extend_from_slice(bytes)
}

/// Returns the one text of these records: pcap 2.4, little-endian, nanoseconds, link type 1.
///
/// An original length is written as the number of bytes. The text is a capture of these records again if their stamps do not
/// fall, none lies in the last second, and each original is the number of bytes.
///
/// # Errors
///
/// `Memory` alone.
///
/// Room is made once for the whole text, and each record's bytes are copied once: O(bytes).
pub fn write_all<A: Allocator, B: Allocator>(
    alloc: A,
    records: &[Record<'_, B>],
) -> Result<Vec<u8, A>, PcapFault>
    ensures text { IfOk result (λ v. v.items ≡ capture_text records.now) }
    ensures again { IfOk result (λ v. AreReadable 0 records.now → IsCapture v.items records.now) }
    ensures memory { IsOkUnless result Memory }
{
    let mut out = Vec::with_capacity(alloc, text_length(records))?;
    write_header(&mut out)?;
    for record in records {
        write_record(&mut out, record)?;
    }
    Ok(out)
}
