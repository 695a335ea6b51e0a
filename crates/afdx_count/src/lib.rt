//! The counters of a run, and its report (profile).
//!
//! [`Counts`] are 0 for each port and link of a table. [`Counts::note`] counts what a switch did with an arrival, and
//! [`Counts::note_end`] what its ports sent and discarded. A counter stays at its greatest value.
//!
//! Contracts see the counters as two lists, and say of each call what it adds. The module `laws` has what they come to: after
//! the notes of all arrivals, each counter is the number of arrivals, of frames or of copies of the whole run that it is named
//! for.
//!
//! # Example
//!
//! From `crates/afdx_switch_tests/src/counts.rt`:
//!
//! ```
//! let mut counts = fresh(alloc, text)?;
//! let mut switch = switch_of(alloc, text)?;
//! for (in_port, sample) in arrivals {
//!     let arrived = record(alloc, *sample).ok_or("a record")?;
//!     if let Ok(step) = switch.arrive(*in_port, arrived) {
//!         counts.note(&step);
//!     }
//! }
//! counts.note_end(&switch.finish());
//! ```
#![tactic(auto)]

mod counters;
mod counts;
pub mod laws;
mod links;
mod ports;
mod report;

pub use counters::{InCount, LinkCount, OutCount};
pub use counts::Counts;
pub use links::LinkTally;
pub use ports::PortTally;
