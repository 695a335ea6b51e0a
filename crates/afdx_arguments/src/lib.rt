//! The command line: from its arguments, as `clap` reads them, to what they ask for.
//!
//! # Example
//!
//! From `crates/afdx_serve_tests/src/policing.rt`:
//!
//! ```
//! let arguments = split(alloc, line)?;
//! match parse(alloc, VERSION, &arguments) {
//!     Ok(Request::Alone(link)) => Ok(Some(link)),
//!     _ => Ok(None),
//! }
//! ```
#![tactic(auto)]

mod arguments;
mod command;
mod compare_arguments;
mod compare_command;
mod explaining;
mod fail_on;
mod network_arguments;
mod network_command;
mod request;

pub use arguments::parse;
pub use explaining::{is_explained, plain_of};
pub use fail_on::FailOn;
pub use request::{
    Compare, Inputs, NetworkInputs, NetworkPaths, NetworkRequest, NoRequest, Paths, Request,
    RunOptions, TraceOptions,
};
