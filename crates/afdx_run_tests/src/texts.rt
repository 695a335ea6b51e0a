//! Captures as rows of data.

use afdx_samples::{Sample, capture, joined, large, one_of_each, small};
use std::alloc::{AllocError, Global};

/// A frame.
#[derive(Clone, Copy)]
pub(crate) enum Frame {
    /// Of size 64: its link and its nanoseconds.
    Small(u8, u32),
    /// Of size 1518: its link and its nanoseconds.
    Large(u8, u32),
}

/// The bytes of a capture, or a part of them.
#[derive(Clone, Copy)]
pub(crate) enum Text {
    /// The capture of these frames.
    Frames(&'static [Frame]),
    /// The records of these frames, without the header before them.
    Records(&'static [Frame]),
    /// These parts, one after the other.
    Parts(&'static [&'static [u8]]),
    /// Frames of link 10 with each verdict at a port of the table `narrow`.
    OneOfEach,
}

/// No bytes.
pub(crate) const NOTHING: Text = Text::Parts(&[]);

/// A capture without frames.
pub(crate) const EMPTY: Text = Text::Frames(&[]);

fn sample(row: Frame) -> Sample {
    match row {
        Frame::Small(link, nanos) => small(link, nanos),
        Frame::Large(link, nanos) => large(link, nanos),
    }
}

fn samples(alloc: Global, frames: &[Frame]) -> Result<Vec<Sample>, AllocError> {
    let mut samples = Vec::new(alloc);
    for frame in frames {
        samples.push(sample(*frame))?;
    }
    Ok(samples)
}

fn of_frames(alloc: Global, frames: &[Frame]) -> Result<Vec<u8>, AllocError> {
    let samples = samples(alloc, frames)?;
    capture(alloc, &samples)
}

/// Returns the bytes from place 24 on, at which a capture's records begin.
fn records(alloc: Global, frames: &[Frame]) -> Result<Vec<u8>, AllocError> {
    let whole = of_frames(alloc, frames)?;
    Vec::from_slice(alloc, whole.get(24..).unwrap_or(&[]))
}

/// Returns the bytes of a text.
pub(crate) fn bytes(alloc: Global, text: Text) -> Result<Vec<u8>, AllocError> {
    match text {
        Text::Frames(frames) => of_frames(alloc, frames),
        Text::Records(frames) => records(alloc, frames),
        Text::Parts(parts) => joined(alloc, parts),
        Text::OneOfEach => capture(alloc, &one_of_each()),
    }
}

/// Returns these texts as captures of the ports from 1 on.
pub(crate) fn captures(alloc: Global, texts: &[Text]) -> Result<Vec<(u8, Vec<u8>)>, AllocError> {
    let mut captures = Vec::new(alloc);
    let mut port = 1u8;
    for text in texts {
        captures.push((port, bytes(alloc, *text)?))?;
        port = port.saturating_add(1);
    }
    Ok(captures)
}

/// Returns whether these are the same ports with the same bytes.
pub(crate) fn are_same(ours: &[(u8, Vec<u8>)], theirs: &[(u8, Vec<u8>)]) -> bool {
    if ours.len() != theirs.len() {
        return false;
    }
    for (our, their) in ours.iter().zip(theirs) {
        if our.0 != their.0 || our.1.as_slice() != their.1.as_slice() {
            return false;
        }
    }
    true
}
