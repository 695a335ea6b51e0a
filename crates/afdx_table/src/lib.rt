//! The configuration table of the switch (profile), read from TOML.
//!
//! A [`Table`] is well formed: its rows lie within the limits, its numbers are distinct, and its links lead from one of
//! its ports to others of them. [`read`] is the one way to make a table.
//!
//! # Example
//!
//! From `crates/afdx_rule_tests/src/tables.rt`:
//!
//! ```
//! let text = greatest(rt.alloc())?;
//! let table = read(rt.alloc(), text.as_bytes())?;
//! let rows = (table.ports().len(), table.link_count());
//! let last = table.link(4095).map(|row| row.to.len());
//! let place = table.link_place(4095);
//! ```
#![tactic(auto)]

mod apart;
mod arrays;
mod fault;
mod fields;
pub mod laws;
mod limits;
mod link_map;
mod links;
mod pairs;
mod ports;
mod rows;
mod table;
mod top;
mod values;

pub use arrays::tables_of;
pub use fault::{At, Key, TableFault};
pub use limits::PORT_PLACES;
pub use rows::{LinkRow, PortRow, port_place};
pub use table::{Table, read};
