//! One virtual link at all output ports that it leads to, at a switch that is watched: which of its frames the switch's account passed, and
//! what left of them.
//!
//! # Example
//!
//! From `crates/afdx_compare_tests/src/watching.rt`:
//!
//! ```
//! let limits = watch.limits(22_720, Speed::Hundred);
//! let mut outputs = Vec::new(alloc);
//! outputs.push(Output::new(alloc, 2, limits, true))?;
//! let account = Account::new(Police::Byte, 64, Bag::Ms1, 0);
//! Ok(Following::new(
//!     alloc,
//!     account,
//!     watch.tolerance,
//!     watch.unknown_since(),
//!     outputs,
//! ))
//!
//! link.end(watch.last_record())?;
//! ```
#![tactic(auto)]

mod following;
mod found;
pub mod laws;
mod output;
mod tally;
mod watch;
mod watched;

pub use following::Following;
pub use output::Output;
pub use tally::{Range, Tally};
pub use watch::{Start, Watch};
