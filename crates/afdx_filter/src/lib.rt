//! The filter of the switch: the verdict on a frame that arrives at a port.
//!
//! # Example
//!
//! From `crates/afdx_rule_tests/src/frames.rt`:
//!
//! ```
//! let sample = Sample {
//!     seconds: 0,
//!     nanos: 0,
//!     captured,
//!     original,
//!     first,
//!     link,
//! };
//! let frame = record(alloc, sample)?;
//! Some(verdict(table, in_port, &frame))
//! ```
#![tactic(auto)]

mod judged;
pub mod laws;
mod outcome;

pub use judged::{Judged, judge, verdict, with_place};
pub use outcome::Verdict;
