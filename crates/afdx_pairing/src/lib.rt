//! Which records that left an output port are which frames of a virtual link that came, by their bytes, their order and the bounds
//! on their delays.
//!
//! It is told of frames and records alone, so that it serves any switch. `specs/Pairing.antt` defines what each record is taken for.
//!
//! # Example
//!
//! From `crates/afdx_compare_tests/src/first_calls.rt`:
//!
//! ```
//! let came = Numbered::new(rt.alloc(), 1, frame.stamp(), frame)?;
//! let left = Numbered::new(rt.alloc(), 1, record.stamp(), record)?;
//! let kept = Event::Kept(Pair {
//!     came: came.mark(),
//!     left: left.mark(),
//!     delay: 6_720,
//! });
//! let mut pairing = Pairing::new(rt.alloc(), limits);
//! let mut events = Vec::new(rt.alloc());
//! pairing.came(came, true)?;
//! pairing.left(left, &mut events)?;
//! assert!(rt; events.as_slice() == [kept].as_slice());
//! ```
#![tactic(auto)]

mod event;
pub mod laws;
mod limits;
mod numbered;
mod pairing;
mod queue;
mod spots;

pub use event::{Event, Mark, Pair};
pub use limits::Limits;
pub use numbered::Numbered;
pub use pairing::Pairing;
pub use queue::Queue;
