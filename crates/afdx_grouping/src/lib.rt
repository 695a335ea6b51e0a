//! What comes over one line cannot come all at once: the lesser bursts of a port whose links come in over lines that are kept
//! to (network calculus: grouping), and what latencies that differ add to them.
//!
//! # Example
//!
//! From `crates/afdx_rule_tests/src/bursts.rt`:
//!
//! ```
//! let mut roundings = [None; PORT_PLACES];
//! roundings[1] = first;
//! roundings[3] = third;
//! let row = table.port(2)?;
//! let bursts = lesser_bursts(table, &roundings, scatter, row);
//! Some((bursts.all, bursts.high))
//! ```
#![tactic(auto)]

mod curve;
mod group;
pub mod laws;
mod lessening;
mod scattering;

pub use lessening::{lesser_bounds, lesser_bursts};
pub use scattering::{first_scattered_fault, scattered};
