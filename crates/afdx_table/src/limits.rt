//! The limits of a table (profile).

/// The versions of the table's format that are read are 1 to this.
pub(crate) const MAX_VERSION: u64 = 3;

/// The first version that has a latency and lines of 1000 Mbit/s.
pub(crate) const LATENCY_VERSION: u64 = 3;

/// The most ports of a table.
pub(crate) const MAX_PORTS: usize = 24;

/// Ports are numbered from 1 to this.
pub(crate) const MAX_PORT_ID: u8 = 24;

/// One more than the greatest number of a port, so that each number is a place.
pub const PORT_PLACES: usize = 25;

/// The most links of a table.
pub(crate) const MAX_LINKS: usize = 4096;

/// Links are numbered from 0 to below this: two bytes hold each number.
pub(crate) const LINK_NUMBERS: usize = 65_536;

/// In bytes.
pub(crate) const MAX_BUFFER: u64 = 16_777_216;

/// In microseconds.
pub(crate) const MAX_DELAY: u64 = 500_000;

/// In microseconds.
pub(crate) const MAX_LATENCY: u64 = 100;
