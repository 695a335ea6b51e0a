//! What is reported of tables and of runs, as comma-separated values.
//!
//! Each row has a field for each thing that the line of a report names, beside the name of its column. A heading names the columns; those
//! that a row has no field for are empty in it.
//!
//! # Example
//!
//! From `crates/afdx_run_tests/src/reports.rt`:
//!
//! ```
//! let mut row = String::new(rt.alloc());
//! put_verdict(&mut row, &verdict(&outcome.counts))?;
//! assert!(rt; row.as_str().starts_with("verdict,"));
//! ```
#![tactic(auto)]

mod counted;
mod delayed;
mod loaded;
mod surveyed;

pub use counted::{NETWORK_RUN, RUN, put_counts, put_verdict};
pub use delayed::{MEASURE, NETWORK_MEASURE, put_buffers, put_measures};
pub use loaded::{CHECK, NETWORK_SIZE, SIZE, put_check, put_size};
pub use surveyed::{NETWORK_SURVEY, SURVEY, put_policing, put_survey};
