//! What is reported of a network: the ways of its links, the jitters of its rows, the reports of its switches.
//!
//! A switch is named by the name at its place among those that are given. The lines are those of `specs/Lines.antt`, the comma-separated
//! values those of `specs/Rows.antt`.
//!
//! # Example
//!
//! From `crates/afdx_run_tests/src/networks.rt`:
//!
//! ```
//! let ways = network.ways(rt.alloc()).ok().ok_or("ways")?;
//! let mut names = Vec::new(rt.alloc());
//! for name in ["A", "B"] {
//!     names.push(String::from_str(rt.alloc(), name)?)?;
//! }
//! let text = accepted_text(rt.alloc(), &names, false, &ways, &[])?;
//! assert!(rt; text.as_str().starts_with(FIRST_LINES));
//! ```
#![tactic(auto)]

mod accepted;
mod end_rows;
mod ends;
mod jitters;
mod link_ends;
mod reports;
mod rows;

pub use accepted::accepted_text;
pub use end_rows::put_link_end_row;
pub use ends::name_of;
pub use jitters::jitter_text;
pub use link_ends::{LinkEnd, put_link_end};
pub use reports::push_report;
pub use rows::{needs_rows, ways_rows};
