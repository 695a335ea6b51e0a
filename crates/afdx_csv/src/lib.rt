//! Comma-separated values: a heading, and rows of fields by the names of their columns.
//!
//! # Example
//!
//! From `crates/afdx_rule_tests/src/first_calls.rt`:
//!
//! ```
//! let columns = ["kind", "link", "most_ns"];
//! let most = Field::Number(Some(319_918));
//! put_heading(&mut text, &columns)?;
//! put_row(
//!     &mut text,
//!     &columns,
//!     &[("kind", Field::Word("way")), ("most_ns", most)],
//! )?;
//! assert_eq!(rt; text.as_str(), "kind,link,most_ns\nway,,319918\n");
//! ```
#![tactic(auto)]

mod field;
mod form;
mod left;
mod rows;

pub use field::Field;
pub use form::Form;
pub use left::{slack, slack_per_mille};
pub use rows::{put_heading, put_row};
