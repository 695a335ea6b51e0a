//! The units of the switch: instants, bandwidth allocation gaps, kinds of policing, line speeds, sizes and line times.
//!
//! Every call here is O(1), takes no memory and always answers.
//!
//! # Example
//!
//! From `crates/afdx_rule_tests/src/units.rt`:
//!
//! ```
//! for (speed, captured, want) in [
//!     (Speed::Hundred, 60, (64, 80, 6_720)),
//!     (Speed::Hundred, 1514, (1518, 80, 123_040)),
//!     (Speed::Ten, 1514, (1518, 800, 1_230_400)),
//!     (Speed::Thousand, 60, (64, 8, 672)),
//! ] {
//!     let size = size(captured);
//!     assert_eq!(rt;
//!         (size, speed.tick(), cost(speed, size)),
//!         want,
//!         "{captured} bytes"
//!     );
//! }
//! ```
#![tactic(auto)]

mod bag;
mod line;
mod link;
mod police;
mod stamp;

pub use bag::Bag;
pub use line::{GREATEST_SIZE, LEAST_SIZE, Priority, Speed, cost, size};
pub use link::{MAX_JITTER, MAX_LINK_ID};
pub use police::Police;
pub use stamp::{MICROSECOND, Stamp, earlier_of};
