//! What the counters of a run come to, and the line that says so (profile).
//!
//! [`verdict`] sums the counters of the report: what was policed, what the filter dropped, and what was lost. [`push_verdict`]
//! appends its line to a text.
//!
//! # Example
//!
//! From `crates/afdx_run_tests/src/reports.rt`:
//!
//! ```
//! let mut line = String::new(rt.alloc());
//! push_verdict(&mut line, &verdict(&outcome.counts))?;
//! assert_eq!(rt;
//!     line.as_str(),
//!     "policed 0 links 0 frames, filtered 0, lost 0\n"
//! );
//! ```
#![tactic(auto)]

mod line;
mod summed;

pub use line::push_verdict;
pub use summed::{RunVerdict, verdict};
