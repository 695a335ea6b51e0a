//! Why a command ends with another status than 0, and the line that is written then.
//!
//! The lines are those of `specs/Lines.antt`; each ends with a line feed. [`report`] writes that of a [`Failure`] and returns its status,
//! and whether the line went out whole; if failures are explained, what MESSAGES says of the line's code follows it.
//!
//! # Example
//!
//! From `crates/afdx_serve_tests/src/names.rt`:
//!
//! ```
//! let mut line = Vec::new(rt.alloc());
//! let ending = report(rt.alloc(), &Failure::Usage, false, &mut line);
//! assert!(rt;
//!     ending.status == 2 && ending.is_told && line.as_slice() == b"afdx: usage\n".as_slice()
//! );
//! ```
#![tactic(auto)]

mod argument;
mod capture;
mod code;
mod failure;
mod load;
mod network;
mod network_failure;
mod reporting;
mod table;

pub use argument::{ArgumentFault, argument_line};
pub use capture::{capture_line, output_line};
pub use failure::Failure;
pub use load::load_line;
pub use network::{network_failure_line, network_status};
pub use network_failure::{JitterRule, NetworkFailure};
pub use reporting::{Ending, report};
pub use table::table_line;
