//! A run of which it is told what became of each arrival and of each copy, while it goes on.
//!
//! [`trace_from`] reads captures side by side, as their records come, and appends the lines of the arrivals to one file and those of each port's
//! copies to another. Contracts say that these are the texts that `afdx_trace` defines of the finished run.
//!
//! # Example
//!
//! From `crates/afdx_run_tests/src/reports.rt`:
//!
//! ```
//! let mut readers = [captures[0].1.as_slice(), captures[1].1.as_slice()];
//! let mut arrivals = MemoryFile {
//!     bytes: Vec::new(rt.alloc()),
//! };
//! let all = Selection {
//!     links: &[],
//!     relative: false,
//! };
//! trace_from(
//!     rt.alloc(),
//!     plan,
//!     &all,
//!     &mut readers,
//!     &mut arrivals,
//!     &mut departures,
//! )?;
//! assert_eq!(rt; arrivals.bytes.as_slice(), ARRIVALS.as_bytes());
//! ```
#![tactic(auto)]

mod captures;
mod running;

pub use running::trace_from;
