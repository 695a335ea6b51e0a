//! Instants at a few places: of `Instants` the first is at hand, of `Dues` those before an instant.
//!
//! # Example
//!
//! From `crates/afdx_rule_tests/src/first_calls.rt`:
//!
//! ```
//! let mut instants = Instants::new(3);
//! let none = instants.first();
//! instants.set(1, Some(Stamp::ZERO));
//! instants.set(2, Some(Stamp::ZERO));
//! let first = instants.first();
//! instants.set(1, None);
//! let next = instants.first();
//! assert_eq!(rt;
//!     (none, first, next),
//!     (None, Some((1, Stamp::ZERO)), Some((2, Stamp::ZERO)))
//! );
//!
//! let mut dues = Dues::new(3);
//! dues.set(0, Some(Stamp::from_ns_saturating(20)));
//! dues.set(2, Some(Stamp::from_ns_saturating(10)));
//! let mut due = dues.before(20);
//! let first = take_first(&mut due);
//! let then = take_first(&mut due);
//! assert_eq!(rt; (first, then, dues.before(21)), (Some(2), None, 5));
//! ```
#![tactic(auto)]

mod dues;
mod instants;
mod numbers;

pub use dues::{Dues, take_first};
pub use instants::Instants;
