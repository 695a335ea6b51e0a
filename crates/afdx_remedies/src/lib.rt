//! What is wrong and what to do, by the code of the line that says that something is.
//!
//! The texts are those of docs/use/MESSAGES.md.
//!
//! # Example
//!
//! From `crates/afdx_rule_tests/src/first_calls.rt`:
//!
//! ```
//! let entry = entry_of("usage").ok_or("an entry")?;
//! let other = entry_of("C0");
//! assert!(rt; entry.starts_with("usage: the arguments") && other.is_none());
//! ```
#![tactic(auto)]

mod entries;
mod finding;

pub use finding::entry_of;
