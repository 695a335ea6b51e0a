//! Captures as bytes.

use crate::Sample;
use std::alloc::{AllocError, Global};

/// Little-endian, nanoseconds, version 2.4, Ethernet.
pub const HEADER: [u8; 24] = [
    0x4d, 0x3c, 0xb2, 0xa1, 2, 0, 4, 0, 0, 0, 0, 0, 0, 0, 0, 0, 0, 0, 4, 0, 1, 0, 0, 0,
];

/// A frame of 60 captured bytes of link 10.
pub const FRAME: [u8; 60] = [
    3, 0, 0, 0, 0, 10, 2, 0, 0, 0, 0, 1, 8, 0, 0, 0, 0, 0, 0, 0, 0, 0, 0, 0, 0, 0, 0, 0, 0, 0, 0,
    0, 0, 0, 0, 0, 0, 0, 0, 0, 0, 0, 0, 0, 0, 0, 0, 0, 0, 0, 0, 0, 0, 0, 0, 0, 0, 0, 0, 0,
];

/// Joins these parts, one after the other.
pub fn joined(alloc: Global, parts: &[&[u8]]) -> Result<Vec<u8>, AllocError> {
    let mut bytes = Vec::new(alloc);
    for part in parts {
        bytes.extend_from_slice(part)?;
    }
    Ok(bytes)
}

/// Appends the record of a frame.
fn put_record(alloc: Global, bytes: &mut Vec<u8>, sample: &Sample) -> Result<(), AllocError> {
    for number in [
        sample.seconds,
        sample.nanos,
        sample.captured,
        sample.original,
    ] {
        bytes.extend_from_slice(&number.to_le_bytes())?;
    }
    bytes.extend_from_slice(&sample.header())?;
    let rest = vec![in alloc; 0u8; sample.captured.saturating_sub(14) as usize]?;
    bytes.extend_from_slice(&rest)?;
    Ok(())
}

/// Makes the capture of these frames.
pub fn capture(alloc: Global, samples: &[Sample]) -> Result<Vec<u8>, AllocError> {
    let mut bytes = Vec::from_slice(alloc, &HEADER)?;
    for sample in samples {
        put_record(alloc, &mut bytes, sample)?;
    }
    Ok(bytes)
}
