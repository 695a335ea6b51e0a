//! The wiring of a network: which output port of a switch leads to which ingress port of another, read from TOML.
//!
//! [`read`] is the one way to make a [`Layout`] of a text: its switches, each with the name of its table's file, and the wires
//! between their ports. [`NetworkFault`] says why it, or the network that it is part of, is refused, and [`At`] where.
//!
//! # Example
//!
//! From `crates/afdx_run_tests/src/networks.rt`:
//!
//! ```
//! let text = network_file(alloc, &["A", "B"], &[("A.4", "B.1", 0)])?;
//! let layout = afdx_wiring::read(alloc, text.as_bytes())
//!     .ok()
//!     .ok_or("a network file")?;
//! Ok(layout)
//! ```
#![tactic(auto)]

mod fault;
mod fields;
pub mod laws;
mod layout;
mod names;
mod switches;
mod top;
mod wires;

pub use fault::{At, Key, NetworkFault, Short};
pub use layout::{End, Layout, Switch, Wire};
pub use top::read;
pub use wires::is_end;
