//! What is known of recordings of a switch, and what texts say of it.
//!
//! Every call here takes no memory and always answers.
//!
//! # Example
//!
//! From `crates/afdx_rule_tests/src/first_calls.rt`:
//!
//! ```
//! let offsets = Offsets::of_text("2=-150,5=40").ok_or("offsets")?;
//! let outputs = Outputs::of_text("2,5").ok_or("ports")?;
//! let second = (offsets.at(2), outputs.has(2));
//! let third = (offsets.at(3), outputs.has(3));
//! assert_eq!(rt; (second, third), ((-150, true), (0, false)));
//! ```
#![tactic(auto)]

mod offsets;
mod outputs;
mod port;
mod recordings;
mod stamps;

pub use offsets::Offsets;
pub use outputs::Outputs;
pub use recordings::{MAX_LEAST, MAX_TOLERANCE, Recordings};
pub use stamps::Stamps;
