//! The policing of one link by itself, from a capture to a capture.
//!
//! [`alone`] answers to a capture that is there; [`read_alone`] to one that a reader gives, of which it keeps no more than
//! 327,696 bytes. The module `laws` ties what they take for a link's own frames to the filter of the whole switch.
//!
//! # Example
//!
//! From `crates/afdx_serve_tests/src/policing.rt`:
//!
//! ```
//! let early = large(10, 999_999);
//! let input = capture(alloc, &[large(10, 0), early, large(10, 1_000_000)])?;
//! let want = capture(alloc, &[large(10, 0), large(10, 1_000_000)])?;
//! match alone(alloc, link, &input) {
//!     Ok(passed) => Ok(passed.as_slice() == want.as_slice()),
//!     Err(_) => Ok(false),
//! }
//! ```
#![tactic(auto)]

mod answer;
mod fault;
pub mod laws;
mod link;
mod own;
mod policing;
mod window;

pub use answer::{alone, read_alone};
pub use fault::{AloneFault, ReadFault};
pub use link::Alone;
