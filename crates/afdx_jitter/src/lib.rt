//! Policing accounts in series: what one account of a virtual link passed, a later one passes whose jitter is enough.
//!
//! A switch polices a link by its size, gap and jitter (ARINC 664 Part 7). What leaves it comes to the next switch some
//! time later: no sooner than the least frame takes, no later than the port's bound. [`Delays`] holds both; [`hop`] gives
//! them for one switch and the cable after it, [`need`] the jitter that the link then needs. The module `laws` says that
//! it is enough. Every call is O(1) and takes no memory.
//!
//! # Example
//!
//! From `crates/afdx_rule_tests/src/first_calls.rt`:
//!
//! ```
//! let first = hop(Speed::Hundred, 0, 20_160, 0);
//! let jitter = need(first, 0);
//! assert_eq!(rt; (first.least, jitter), (6_720, 14));
//! ```
#![tactic(auto)]

mod delays;
pub mod laws;
mod needs;

pub use delays::{Delays, hop};
pub use needs::need;
