//! What is judged of a network: whether the tables of its switches fit together, their loads and their jitters; and the ways of
//! its links, with what a frame takes on them.
//!
//! A layout and the tables of its switches are a [`Network`]: `fit` says whether these fit together, `clear` checks their loads,
//! `jitters` finds jitters; `check` and `ways` of a [`ClearedNetwork`] judge them and give each link's ways, of which
//! [`part_ways`] says which an outage takes.
//!
//! # Example
//!
//! From `crates/afdx_run_tests/src/networks.rt`:
//!
//! ```
//! let network = Network::new(layout, tables)
//!     .ok()
//!     .ok_or("ports of the tables")?;
//! match network.fit(alloc) {
//!     Ok(()) => Ok(network),
//!     Err(_) => Err("tables that fit together".into()),
//! }
//!
//! let network = cleared(alloc, jitter_us)?;
//! Ok(network.check(alloc).err())
//! ```
#![tactic(auto)]

mod checking;
mod cleared_network;
mod exit;
mod fitting;
mod hops;
mod jitters;
mod joints;
pub mod laws;
mod network;
mod outage;
mod row;
mod shared;
mod sources;
mod ways;

pub use cleared_network::ClearedNetwork;
pub use exit::Exit;
pub use jitters::{Needs, RowNeed, all_past};
pub use network::{Network, STAMP_ROUNDING};
pub use outage::{OutageWays, part_ways};
pub use row::Row;
pub use ways::Way;
