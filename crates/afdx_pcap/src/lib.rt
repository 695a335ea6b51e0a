//! Captures in the pcap file format, version 2.4, over Ethernet (link type 1).
//!
//! [`read_all`] reads a whole capture and [`write_all`] writes one. A [`Reader`] gives the records one by one,
//! of a whole capture or of one that comes in pieces; [`read_header`] and [`read_record`] read what stands at the
//! start of some bytes, for a caller that keeps no more than it has not read. [`write_header`], [`write_record`] and
//! [`write_frame`] write one piece by piece. Instants are [`afdx_units::Stamp`]s, lengths are numbers of bytes.
//!
//! # Example
//!
//! From `crates/afdx_pcap_tests/src/captures.rt`:
//!
//! ```
//! for record in &read_all(alloc, bytes)? {
//!     write_record(written, record)?;
//! }
//!
//! let mut written = Vec::new(rt.alloc());
//! write_header(&mut written)?;
//! append_records(rt.alloc(), &bytes, &mut written)?;
//! ```
#![tactic(auto)]

mod bytes;
mod fault;
mod format;
mod gone;
pub mod laws;
mod part;
mod progress;
mod reader;
mod reading;
mod record;
mod whole;
mod writing;

pub use fault::PcapFault;
pub use format::{Format, HEAD_LENGTH, HEADER_LENGTH};
pub use reader::Reader;
pub use reading::{read_header, read_record};
pub use record::{MAX_CAPTURED, Record};
pub use whole::read_all;
pub use writing::{write_all, write_frame, write_header, write_record};
