//! Captures that are read and written, whole and in pieces.

use crate::bytes::{
    AT_A_MILLION, AT_FIVE_MICROS, AT_ZERO, BEFORE_FAULT, FAULTS, FOR_GOOD, FRAME, HEADER,
    HUGE_LENGTH, IN_THE_LAST_SECOND, LARGEST, LENGTHS, MAGICS, MESSAGES, PATCHES,
};
use crate::readers::{
    Call, answers_all, are_written_as, gives_one_record, is_early_fault, is_written_as, read_piece,
    read_whole,
};
use afdx_pcap::{PcapFault, Record, read_all, write_all, write_frame, write_header, write_record};
use afdx_samples::joined;
use afdx_units::Stamp;
use rand::RngExt;
use rand::rngs::SmallRng;
use rand_core::SeedableRng;
use std::alloc::{AllocError, Global};
use std::test::Fail;

/// Returns the capture of one frame at 0.
fn one_frame(alloc: Global) -> Result<Vec<u8>, AllocError> {
    joined(alloc, &[HEADER, AT_ZERO, FRAME])
}

/// Returns the capture of two frames, at 0 and a million nanoseconds later.
fn two_frames(alloc: Global) -> Result<Vec<u8>, AllocError> {
    joined(alloc, &[HEADER, AT_ZERO, FRAME, AT_A_MILLION, FRAME])
}

/// Returns the capture of one frame with these bytes written over it from a place on.
fn patched(alloc: Global, place: usize, patch: &[u8]) -> Result<Vec<u8>, Fail> {
    let bytes = one_frame(alloc)?;
    let end = place.saturating_add(patch.len());
    match (bytes.get(..place), bytes.get(end..)) {
        (Some(head), Some(tail)) => Ok(joined(alloc, &[head, patch, tail])?),
        _ => Err("a place".into()),
    }
}

/// Returns whether this is the record of the frame at 0.
fn is_the_frame_at_zero(record: &Record<Global>) -> bool {
    record.stamp() == Stamp::ZERO && record.original() == 60 && record.bytes() == FRAME
}

/// Returns whether a capture is that of the frame at 0 alone.
fn is_of_the_frame_at_zero(alloc: Global, bytes: &[u8]) -> Result<bool, PcapFault> {
    let records = read_all(alloc, bytes)?;
    Ok(records.len() == 1 && records.iter().all(|record| is_the_frame_at_zero(record)))
}

#[test]
fn first_capture(rt: HostRuntime) -> Result<(), Fail> {
    let bytes = one_frame(rt.alloc())?;
    let is_read = is_of_the_frame_at_zero(rt.alloc(), &bytes)?;
    assert!(rt; is_read && is_written_as(rt.alloc(), &bytes, &bytes)?);
    Ok(())
}

/// Appends the records of a capture one by one.
fn append_records(alloc: Global, bytes: &[u8], written: &mut Vec<u8>) -> Result<(), PcapFault> {
    // example of afdx_pcap
    for record in &read_all(alloc, bytes)? {
        write_record(written, record)?;
    }
    // end of example
    Ok(())
}

/// Checks that a capture that is written record by record is the one that is written at once.
#[test]
fn written_record_by_record(rt: HostRuntime) -> Result<(), Fail> {
    let bytes = joined(rt.alloc(), &[HEADER, AT_ZERO, FRAME, AT_ZERO, FRAME])?;
    // example of afdx_pcap
    let mut written = Vec::new(rt.alloc());
    write_header(&mut written)?;
    append_records(rt.alloc(), &bytes, &mut written)?;
    // end of example
    let is_written = written.as_slice() == bytes.as_slice();
    written.truncate(100);
    write_frame(&mut written, Stamp::ZERO, FRAME)?;
    assert!(rt; is_written && written.as_slice() == bytes.as_slice());
    Ok(())
}

/// Returns whether the first record of a capture has this stamp.
fn begins_at(alloc: Global, bytes: &[u8], ns: u64) -> Result<bool, PcapFault> {
    let records = read_all(alloc, bytes)?;
    Ok(records.first().map(|record| record.stamp().ns()) == Some(ns))
}

#[test]
fn four_magics(rt: HostRuntime) -> Result<(), Fail> {
    let written = joined(rt.alloc(), &[HEADER, AT_FIVE_MICROS, FRAME])?;
    for (header, head) in MAGICS {
        let bytes = joined(rt.alloc(), &[header, head, FRAME])?;
        let is_read = begins_at(rt.alloc(), &bytes, 1_000_005_000)?;
        assert!(rt;
            is_read && is_written_as(rt.alloc(), &bytes, &written)?,
            "in {header:?}"
        );
    }
    Ok(())
}

/// Returns the number of records in so many bytes of the capture of two frames, or their fault.
fn answer_of(length: usize) -> Result<usize, PcapFault> {
    match length {
        0..=23 => Err(PcapFault::NoHeader),
        24 => Ok(0),
        25..=39 => Err(PcapFault::CutHeader(1)),
        40..=99 => Err(PcapFault::CutData(1)),
        100 => Ok(1),
        101..=115 => Err(PcapFault::CutHeader(2)),
        116..=175 => Err(PcapFault::CutData(2)),
        _ => Ok(2),
    }
}

/// Returns whether this is the answer for some bytes, read whole and by a reader.
fn is_answer(alloc: Global, bytes: &[u8], answer: &Result<usize, PcapFault>) -> bool {
    read_whole(alloc, bytes) == *answer && read_piece(alloc, bytes) == *answer
}

#[test]
fn every_cut(rt: HostRuntime) -> Result<(), Fail> {
    let bytes = two_frames(rt.alloc())?;
    for length in 0usize..=176 {
        let prefix = bytes.get(..length).unwrap_or(b"no such cut");
        assert!(rt;
            is_answer(rt.alloc(), prefix, &answer_of(length)),
            "{length} bytes"
        );
    }
    Ok(())
}

/// Returns whether a whole capture has this fault.
fn is_fault(alloc: Global, bytes: &[u8], fault: &PcapFault) -> bool {
    read_whole(alloc, bytes) == Err(*fault)
}

/// Returns whether a capture has this fault when it is whole, and also for an open reader, before the input has ended.
fn is_fault_at_once(alloc: Global, bytes: &[u8], fault: &PcapFault) -> bool {
    is_fault(alloc, bytes, fault) && is_early_fault(alloc, bytes, fault)
}

#[test]
fn capture_faults(rt: HostRuntime) -> Result<(), Fail> {
    for (place, patch, fault) in PATCHES {
        let bytes = patched(rt.alloc(), *place, patch)?;
        assert!(rt;
            is_fault_at_once(rt.alloc(), &bytes, fault),
            "{patch:?} at {place}"
        );
    }
    Ok(())
}

#[test]
fn faults_of_whole_captures(rt: HostRuntime) -> Result<(), Fail> {
    for (parts, fault) in FAULTS {
        let bytes = joined(rt.alloc(), parts)?;
        assert!(rt; is_fault(rt.alloc(), &bytes, fault), "{fault}");
    }
    Ok(())
}

/// Returns whether the first record of a capture has these bytes.
fn begins_with(alloc: Global, bytes: &[u8], data: &[u8]) -> Result<bool, PcapFault> {
    let records = read_all(alloc, bytes)?;
    Ok(records.first().is_some_and(|record| record.bytes() == data))
}

#[test]
fn largest_record(rt: HostRuntime) -> Result<(), Fail> {
    let data = vec![in rt.alloc(); 7u8; 262_144]?;
    let bytes = joined(rt.alloc(), &[HEADER, LARGEST, &data])?;
    assert!(rt; begins_with(rt.alloc(), &bytes, &data)?);
    Ok(())
}

/// Returns whether no record is made of these bytes and as many come back.
fn come_back(bytes: Vec<u8>) -> bool {
    let length = bytes.len();
    match Record::new(Stamp::ZERO, 60, bytes) {
        Ok(_) => false,
        Err(back) => back.len() == length,
    }
}

#[test]
fn one_byte_too_many(rt: HostRuntime) -> Result<(), Fail> {
    let data = vec![in rt.alloc(); 7u8; 262_145]?;
    let is_none = Record::<Global>::lent(Stamp::ZERO, 60, &data).is_none();
    assert!(rt; is_none && come_back(data));
    Ok(())
}

/// Returns the capture of the frame at this instant, with another original length.
fn written_at(alloc: Global, stamp: Stamp) -> Result<Vec<u8>, Fail> {
    let frame = Vec::from_slice(alloc, FRAME)?;
    let record = Record::new(stamp, 1518, frame).ok().ok_or("a record")?;
    Ok(write_all(alloc, &vec![in alloc; record]?)?)
}

#[test]
fn last_second(rt: HostRuntime) -> Result<(), Fail> {
    let stamp = Stamp::new(4_294_967_295, 6_719).unwrap();
    let written = written_at(rt.alloc(), stamp)?;
    let bytes = joined(rt.alloc(), &[HEADER, IN_THE_LAST_SECOND, FRAME])?;
    let is_refused = is_fault(rt.alloc(), &bytes, &PcapFault::Late(1));
    assert!(rt; is_refused && written.as_slice() == bytes.as_slice());
    Ok(())
}

#[test]
fn byte_by_byte(rt: HostRuntime) -> Result<(), Fail> {
    let bytes = one_frame(rt.alloc())?;
    assert!(rt; bytes.len() == 100 && gives_one_record(rt.alloc(), &bytes));
    Ok(())
}

/// Cuts pieces of these lengths off the bytes, from their start on.
fn cut<'a>(alloc: Global, bytes: &'a [u8], lengths: &[usize]) -> Result<Vec<&'a [u8]>, AllocError> {
    let mut pieces = Vec::new(alloc);
    let mut rest = bytes;
    for length in lengths {
        let (piece, after) = rest.split_at((*length).min(rest.len()));
        pieces.push(piece)?;
        rest = after;
    }
    Ok(pieces)
}

/// Returns so many random lengths of 0 to 49, which the seed determines.
fn random_lengths(alloc: Global, count: usize, seed: u64) -> Result<Vec<usize>, AllocError> {
    let mut random = SmallRng::seed_from_u64(seed);
    let mut lengths = Vec::new(alloc);
    for _ in 0..count {
        lengths.push(random.random_range(0usize..50))?;
    }
    Ok(lengths)
}

/// Returns whether a capture that is read in pieces of these lengths is written as it was.
fn is_read_in(alloc: Global, bytes: &[u8], lengths: &[usize]) -> Result<bool, PcapFault> {
    let pieces = cut(alloc, bytes, lengths)?;
    are_written_as(alloc, &pieces, bytes)
}

#[test]
fn any_pieces(rt: HostRuntime) -> Result<(), Fail> {
    let bytes = two_frames(rt.alloc())?;
    for length in LENGTHS {
        let lengths = vec![in rt.alloc(); *length; bytes.len()]?;
        assert!(rt;
            is_read_in(rt.alloc(), &bytes, &lengths)?,
            "pieces of {length}"
        );
    }
    Ok(())
}

#[test]
fn random_pieces(rt: HostRuntime) -> Result<(), Fail> {
    let bytes = two_frames(rt.alloc())?;
    for seed in 0..20u64 {
        let lengths = random_lengths(rt.alloc(), bytes.len(), seed)?;
        assert!(rt;
            is_read_in(rt.alloc(), &bytes, &lengths)?,
            "pieces of seed {seed}"
        );
    }
    Ok(())
}

/// Calls of a reader: a fault is for good, a record comes before the fault of the next one, and a length that is too long is
/// answered as soon as the record's header is whole.
const CALLS: &[(&str, &[Call])] = &[
    ("faults for good", FOR_GOOD),
    ("record before fault", BEFORE_FAULT),
    ("huge length", HUGE_LENGTH),
];

#[test]
fn reader_by_its_calls(rt: HostRuntime) {
    for (name, calls) in CALLS {
        assert!(rt; answers_all(rt.alloc(), calls), "{name}");
    }
}

/// Returns whether a fault is printed as this name.
fn is_printed(alloc: Global, fault: &PcapFault, name: &str) -> Result<bool, AllocError> {
    Ok(format!(in alloc; "{fault}")?.as_str() == name)
}

#[test]
fn messages(rt: HostRuntime) -> Result<(), Fail> {
    for (fault, name) in MESSAGES {
        assert!(rt; is_printed(rt.alloc(), fault, name)?, "{name}");
    }
    Ok(())
}
