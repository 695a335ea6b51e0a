//! A switch that is fed by time: at each port records come in, and leave up to the instant that it has come to (profile).
//!
//! [`Paced`] takes records at any port in any order of its calls, as long as none comes before the instant that the switch has come to.
//! Contracts see at each port what came in and what left so far: what left is a prefix of what the definitions of the crates below
//! let leave of all that came in. So a caller may take what left one switch, and put it in at another one.
//!
//! # Example
//!
//! From `crates/afdx_run_tests/src/reports.rt`:
//!
//! ```
//! let table = read(rt.alloc(), single(rt.alloc())?.as_bytes())?;
//! let frame = record(rt.alloc(), small(10, 0)).ok_or("a record")?;
//! let mut switch = Paced::new(rt.alloc(), table, Wanted::Nothing)?;
//! switch.put(1, frame)?;
//! switch.go_to(Stamp::from_ns(6_720).ok_or("an instant")?)?;
//! let out = switch.next_out(2)?.ok_or("a record")?;
//! assert_eq!(rt; out.stamp().ns(), 6_720);
//! ```
#![tactic(auto)]

mod feeder;
mod lane;
pub mod laws;
mod paced;

pub use paced::{Paced, PacedFault};
