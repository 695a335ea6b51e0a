//! The bytes of captures, by the format's description, and what is to be read from them.

use crate::readers::Call;
use afdx_pcap::PcapFault;

/// A header as it is written: little-endian, nanoseconds.
pub(crate) const HEADER: &[u8] = &[
    0x4d, 0x3c, 0xb2, 0xa1, 2, 0, 4, 0, 0, 0, 0, 0, 0, 0, 0, 0, 0, 0, 4, 0, 1, 0, 0, 0,
];

/// A header of big-endian microseconds.
const BIG_MICROS: &[u8] = &[
    0xa1, 0xb2, 0xc3, 0xd4, 0, 2, 0, 4, 0, 0, 0, 0, 0, 0, 0, 0, 0, 0, 0xff, 0xff, 0, 0, 0, 1,
];

/// A header of little-endian microseconds.
const LITTLE_MICROS: &[u8] = &[
    0xd4, 0xc3, 0xb2, 0xa1, 2, 0, 4, 0, 0, 0, 0, 0, 0, 0, 0, 0, 0, 0, 4, 0, 1, 0, 0, 0,
];

/// A header of big-endian nanoseconds.
const BIG_NANOS: &[u8] = &[
    0xa1, 0xb2, 0x3c, 0x4d, 0, 2, 0, 4, 0, 0, 0, 0, 0, 0, 0, 0, 0, 0, 0xff, 0xff, 0, 0, 0, 1,
];

/// The record header of a frame of 60 bytes at 0, little-endian.
pub(crate) const AT_ZERO: &[u8] = &[0, 0, 0, 0, 0, 0, 0, 0, 60, 0, 0, 0, 60, 0, 0, 0];

/// That of one a second later.
const AT_ONE: &[u8] = &[1, 0, 0, 0, 0, 0, 0, 0, 60, 0, 0, 0, 60, 0, 0, 0];

/// That of one whose fraction is a million.
pub(crate) const AT_A_MILLION: &[u8] = &[0, 0, 0, 0, 0x40, 0x42, 0x0f, 0, 60, 0, 0, 0, 60, 0, 0, 0];

/// That of one 1.000005 seconds after 0, in nanoseconds.
pub(crate) const AT_FIVE_MICROS: &[u8] = &[1, 0, 0, 0, 0x88, 0x13, 0, 0, 60, 0, 0, 0, 60, 0, 0, 0];

/// A frame of 60 captured bytes of link 10.
pub(crate) const FRAME: &[u8] = &[
    3, 0, 0, 0, 0, 10, 2, 0, 0, 0, 0, 1, 8, 0, 0, 0, 0, 0, 0, 0, 0, 0, 0, 0, 0, 0, 0, 0, 0, 0, 0,
    0, 0, 0, 0, 0, 0, 0, 0, 0, 0, 0, 0, 0, 0, 0, 0, 0, 0, 0, 0, 0, 0, 0, 0, 0, 0, 0, 0, 0,
];

/// The record header of a frame of 262,144 bytes at 0.
pub(crate) const LARGEST: &[u8] = &[0, 0, 0, 0, 0, 0, 0, 0, 0, 0, 4, 0, 0, 0, 4, 0];

/// That of a frame of 60 bytes in the last second.
pub(crate) const IN_THE_LAST_SECOND: &[u8] = &[
    0xff, 0xff, 0xff, 0xff, 0x3f, 0x1a, 0, 0, 60, 0, 0, 0, 60, 0, 0, 0,
];

/// Each header, with the record header of a frame 1.000005 seconds after 0.
pub(crate) const MAGICS: &[(&[u8], &[u8])] = &[
    (HEADER, AT_FIVE_MICROS),
    (
        BIG_MICROS,
        &[0, 0, 0, 1, 0, 0, 0, 5, 0, 0, 0, 60, 0, 0, 0, 60],
    ),
    (
        LITTLE_MICROS,
        &[1, 0, 0, 0, 5, 0, 0, 0, 60, 0, 0, 0, 60, 0, 0, 0],
    ),
    (
        BIG_NANOS,
        &[0, 0, 0, 1, 0, 0, 0x13, 0x88, 0, 0, 0, 60, 0, 0, 0, 60],
    ),
];

/// Bytes written over the capture of one frame from a place on, and its fault then.
pub(crate) const PATCHES: &[(usize, &[u8], PcapFault)] = &[
    (0, &[0; 24], PcapFault::Magic),
    (0, &[0x0a, 0x0d, 0x0d, 0x0a], PcapFault::Magic),
    (6, &[3], PcapFault::Version),
    (20, &[113], PcapFault::LinkType(113)),
    (20, &[1, 0, 1], PcapFault::LinkType(65_537)),
    (32, &[1, 0, 4, 0], PcapFault::Huge(1)),
    (28, &[0, 0xca, 0x9a, 0x3b], PcapFault::Fraction(1)),
    (28, &[0, 0xca, 0x9a, 0x3b, 1, 0, 4, 0], PcapFault::Huge(1)),
    (24, &[0xff; 4], PcapFault::Late(1)),
    (32, &[0xff; 4], PcapFault::Huge(1)),
];

/// Captures in parts, each with its fault.
pub(crate) const FAULTS: &[(&[&[u8]], PcapFault)] = &[
    (&[&[0; 23]], PcapFault::NoHeader),
    (
        &[LITTLE_MICROS, AT_A_MILLION, FRAME],
        PcapFault::Fraction(1),
    ),
    (
        &[HEADER, AT_ONE, FRAME, AT_ZERO, FRAME],
        PcapFault::Backwards(2),
    ),
];

/// Lengths of pieces.
pub(crate) const LENGTHS: &[usize] = &[
    1, 2, 3, 5, 7, 16, 23, 24, 25, 39, 40, 64, 99, 100, 101, 176,
];

/// A fault is answered for good.
pub(crate) const FOR_GOOD: &[Call] = &[
    Call::Feed(&[0; 24], None),
    Call::Next(Err(PcapFault::Magic)),
    Call::Feed(HEADER, Some(PcapFault::Magic)),
    Call::Next(Err(PcapFault::Magic)),
    Call::Feed(HEADER, Some(PcapFault::Magic)),
];

/// A record comes before the fault of the next one.
pub(crate) const BEFORE_FAULT: &[Call] = &[
    Call::Feed(HEADER, None),
    Call::Feed(AT_ZERO, None),
    Call::Feed(FRAME, None),
    Call::Feed(&[0, 0, 0, 0, 0, 0, 0, 0, 1, 0, 4, 0, 60, 0, 0, 0], None),
    Call::Next(Ok(true)),
    Call::Next(Err(PcapFault::Huge(2))),
];

/// A length of 4,294,967,295 is reported as soon as the record's header is whole.
pub(crate) const HUGE_LENGTH: &[Call] = &[
    Call::Feed(HEADER, None),
    Call::Feed(
        &[0, 0, 0, 0, 0, 0, 0, 0, 0xff, 0xff, 0xff, 0xff, 60, 0, 0],
        None,
    ),
    Call::Next(Ok(false)),
    Call::Feed(&[0], None),
    Call::Next(Err(PcapFault::Huge(1))),
];

/// Each fault, and how it is printed.
pub(crate) const MESSAGES: &[(PcapFault, &str)] = &[
    (PcapFault::Memory, "Memory"),
    (PcapFault::NoHeader, "NoHeader"),
    (PcapFault::Magic, "Magic"),
    (PcapFault::Version, "Version"),
    (PcapFault::LinkType(113), "LinkType"),
    (PcapFault::CutHeader(1), "CutHeader"),
    (PcapFault::Huge(1), "Huge"),
    (PcapFault::Fraction(1), "Fraction"),
    (PcapFault::Late(1), "Late"),
    (PcapFault::Backwards(1), "Backwards"),
    (PcapFault::CutData(1), "CutData"),
];
