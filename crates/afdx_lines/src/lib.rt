//! Lines of words and numbers, as reports have them.
//!
//! # Example
//!
//! From `crates/afdx_rule_tests/src/first_calls.rt`:
//!
//! ```
//! let mut line = String::new(rt.alloc());
//! put_line(&mut line, &[("out ", Some(2)), (" peak ", None)])?;
//! assert_eq!(rt; line.as_str(), "out 2 peak -\n");
//! ```
#![tactic(auto)]

mod lines;

pub use lines::put_line;
