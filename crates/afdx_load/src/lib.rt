//! What the links of a table may ask of each port's line, and whether the port can give it (profile).
//!
//! [`loads`] sums what each port's links ask for, [`bounds`] says how long a frame may then stay there, and [`check`] accepts a
//! table exactly if each port with links keeps four rules. All is reckoned in whole numbers; "parts" in the prose are each the
//! 2,048,000,000th part of a line or of a nanosecond. No call takes memory.
//!
//! # Example
//!
//! From `crates/afdx_rule_tests/src/loads.rt`:
//!
//! ```
//! let row = table.port(2)?;
//! let load = load(table, 2)?;
//! let rate = loads(table).at(2)?.rate();
//! let bounds = bounds(&load);
//!
//! match check(table) {
//!     Ok(_) => None,
//!     Err((table, fault)) => Some((fault, table.ports().len(), table.link_count())),
//! }
//! ```
#![tactic(auto)]

mod bounding;
mod breaking;
mod bursts;
mod checking;
mod cleared;
mod delays;
mod fault;
pub mod laws;
mod loading;
mod port_load;
mod port_loads;
mod share;

pub use bounding::{PARTS, bounds, bounds_with, least_buffer};
pub use breaking::breaks;
pub use bursts::Bursts;
pub use checking::{check, fault_with, first_fault};
pub use cleared::Cleared;
pub use delays::Bounds;
pub use fault::{LoadFault, Rule};
pub use loading::{load, loads};
pub use port_load::Load;
pub use port_loads::Loads;
pub use share::{Share, share_of};
