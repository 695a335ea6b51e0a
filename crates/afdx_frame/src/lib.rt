//! The destination address of a frame (ARINC 664 Part 7).
//!
//! Every call here is O(1), takes no memory and always answers.
//!
//! # Example
//!
//! From `crates/afdx_rule_tests/src/frames.rt`:
//!
//! ```
//! let frame = [0x03, 0x00, 0x00, 0x01, 0x12, 0x34, 0x02, 0x00];
//! for (bytes, want) in [
//!     (&frame[..], Some(([3, 0, 0, 1], 0x1234))),
//!     (&frame[..6], Some(([3, 0, 0, 1], 0x1234))),
//!     (&frame[..5], None),
//! ] {
//!     let address = view(bytes).map(|view| (view.constant(), view.link()));
//!     assert_eq!(rt; address, want, "{} bytes", bytes.len());
//! }
//! ```
#![tactic(auto)]

mod address;
mod reading;

pub use address::View;
pub use reading::view;
