//! A network of switches: delivery and delay from end to end.
//!
//! [`run`] runs all switches by time, so that what comes in at each agrees with the wires; [`run_unchecked`] does so whatever their
//! loads.
//!
//! `specs/Way.antt` says what is delivered at the end of a link's way, over the headline of each switch on it;
//! `specs/Runs.antt` what a run of a network is, `specs/Ways.antt` which ways it has. The module `laws` says that each of
//! them delivers.
//!
//! # Example
//!
//! From `crates/afdx_run_tests/src/network_runs.rt`:
//!
//! ```
//! let network = cleared(alloc, jitter_us)?;
//! let ends = all_ends(alloc, network.network())?;
//! let mut readers = readers_of(alloc, network.network(), came)?;
//! let mut files = files_of(alloc, network.network())?;
//! match run(alloc, &network, &mut readers, &mut files) {
//!     Ok(counts) => Ok(Led {
//!         ends,
//!         files,
//!         counts,
//!     }),
//!     Err(_) => Err("a run".into()),
//! }
//! ```
#![tactic(auto)]

mod fault;
mod given;
mod intake;
pub mod laws;
mod line;
mod one_line;
mod outage;
mod output;
mod running;
mod site;
mod watching;
mod windows;

pub use fault::NetworkRunFault;
pub use given::{all_ends, open_ends};
pub use outage::{Incoming, incoming_at};
pub use running::{run, run_unchecked};
pub use watching::{Watched, run_watched};
