//! Captures that are read in pieces, from readers, and the records of all of them in the order of their instants.
//!
//! # Example
//!
//! From `crates/afdx_compare_tests/src/first_calls.rt`:
//!
//! ```
//! let mut readers = [later.as_slice(), sooner.as_slice()];
//! let mut merging = Merging::open(rt.alloc(), &[CLOCK, CLOCK], &mut readers)
//!     .ok()
//!     .ok_or("two captures")?;
//! let first = merging.next(&mut readers).ok().ok_or("a record")?;
//! assert_eq!(rt; first.map(|arrival| arrival.place), Some(1));
//! ```
#![tactic(auto)]

mod clock;
mod fault;
mod head;
mod lane;
mod merging;
mod stop;

pub use clock::{Clock, same_clocks};
pub use fault::MergeFault;
pub use head::Head;
pub use merging::{Arrival, Merging};
