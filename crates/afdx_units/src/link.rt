//! Limits of a virtual link.

/// The greatest number of a link: it is two bytes of an address (ARINC 664 Part 7).
pub const MAX_LINK_ID: u64 = 65_535;

/// The greatest jitter of a link, in microseconds (profile).
pub const MAX_JITTER: u64 = 10_000;
