//! A switch over whole captures: one text for each port comes in, one for each port goes out.
//!
//! [`run`] reads the captures, merges their records by stamp and then by port number, puts them through the
//! switch and writes what each port sends. Contracts see its answer as a function of the bytes that came in:
//! each capture that goes out is the one text of the frames that the definitions of the crates below let
//! leave at its port. [`run_from`] makes the same run over readers, each read once, whose outputs go to files in parts while it
//! goes on, by a [`Session`], which takes captures in pieces.
//! [`finished`] answers the switch itself, for what is asked of it beside that.
//!
//! # Example
//!
//! From `crates/afdx_run_tests/src/reports.rt`:
//!
//! ```
//! let table = read(rt.alloc(), single(rt.alloc())?.as_bytes())?;
//! let outcome = run(rt.alloc(), Plan::Unchecked(table), &captures)?;
//! let report = outcome.counts.report(rt.alloc())?;
//! assert!(rt; report.as_str().starts_with("in 1 seen 1 cut 0 "));
//! ```
#![tactic(auto)]

mod check;
mod drain;
mod lane;
pub mod laws;
mod machine;
mod plan;
mod rest;
mod session;
mod sources;
mod stop;
mod whole;

pub use plan::{Outcome, Plan, RunFault};
pub use session::Session;
pub use sources::{SourceFault, measured_from, run_from};
pub use whole::{finished, run};
