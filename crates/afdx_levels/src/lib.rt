//! What is known of the level of a policing account that cannot be looked into, as that of a real switch, from what its link
//! sent and from what was passed of it.
//!
//! A recording begins somewhere, and stamps have noise, so that the level is known as an interval. `specs/Levels.antt` defines
//! how it is credited and what each fate of a frame teaches; the laws tie it to the accounts of `afdx_account`. Every call is
//! O(1) and takes no memory.
//!
//! # Example
//!
//! From `crates/afdx_compare_tests/src/first_calls.rt`:
//!
//! ```
//! let account = ByteAccount::new(1518, Bag::Ms1, 0);
//! let levels = Levels::unknown(&account, 0, Stamp::ZERO);
//! let first = levels.outlook(&account, 0, Stamp::ZERO, 1518);
//! let second = levels.outlook(&account, 0, later, 1518);
//! assert_eq!(rt; (first, second), (Outlook::Unsure, Outlook::Must));
//! ```
#![tactic(auto)]

pub mod laws;
mod levels;
mod outlook;

pub use levels::{Levels, MAX_TOLERANCE};
pub use outlook::Outlook;
