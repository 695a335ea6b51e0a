//! What became of each arrival and of each copy of a run, as comma-separated values (profile).
//!
//! [`arrivals`] has a line for each arrival, and [`departures`] one for each copy that a port sent or discarded. Both are made
//! from the finished switch, after the run. [`Tracing`] tells the same while a run goes on, into files: it keeps no frame, and no
//! line that went to its file. Contracts say that the texts are those of the definitions.
//!
//! # Example
//!
//! From `crates/afdx_run_tests/src/reports.rt`:
//!
//! ```
//! let done = finished(rt.alloc(), plan, &captures)?;
//! let all = Selection {
//!     links: &[],
//!     relative: false,
//! };
//! let lines = arrivals(rt.alloc(), &done, &all)?;
//! assert_eq!(rt; lines.as_str(), ARRIVALS);
//! ```
#![tactic(auto)]

mod arrival_lines;
mod departure_lines;
mod fields;
mod flags;
pub mod laws;
mod lines;
mod shown;
mod traced_port;
mod tracer;
mod tracing;

pub use arrival_lines::arrivals;
pub use departure_lines::{departures, departures_heading};
pub use shown::Selection;
pub use tracing::Tracing;
