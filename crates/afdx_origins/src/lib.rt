//! Where the frames of a network came from: the delays of its links from end to end (profile).
//!
//! [`Origins`] is told of each copy that a port of a switch sends. It knows of each frame on its way over wires when it came to its first
//! switch, and of each link and port the delays from there.
//!
//! # Example
//!
//! From `crates/afdx_run_tests/src/network_runs.rt`:
//!
//! ```
//! let watched = run_watched(rt.alloc(), network.network(), &mut readers, Wanted::Nothing)
//!     .ok()
//!     .ok_or("a run")?;
//! let delays = watched
//!     .origins
//!     .delays_at(3, End { switch: 1, port: 2 })
//!     .ok_or("a link")?;
//! let range = Range {
//!     least: 13_440,
//!     greatest: 26_880,
//! };
//! assert_eq!(rt; (delays.count, delays.range), (2, Some(range)));
//! ```
#![tactic(auto)]

mod at_link;
mod at_switch;
mod departure;
mod fault;
pub mod laws;
mod origins;

pub use departure::Departure;
pub use fault::OriginsFault;
pub use origins::Origins;
