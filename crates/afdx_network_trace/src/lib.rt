//! What became of each arrival at each switch of a network, with the number that its frame had at its first switch (profile).
//!
//! # Example
//!
//! From `crates/afdx_run_tests/src/reports.rt`:
//!
//! ```
//! let arrivals = "frame,port\n0,1\n1,2\n";
//! let text = with_first_numbers(rt.alloc(), arrivals, &[None, Some(7)])?;
//! let with_origins = b"frame,port,origin\n0,1,\n1,2,7\n".as_slice();
//! assert_eq!(rt; text.as_slice(), with_origins);
//! ```
#![tactic(auto)]

mod column;
mod numbering;

pub use column::with_first_numbers;
pub use numbering::first_numbers;
