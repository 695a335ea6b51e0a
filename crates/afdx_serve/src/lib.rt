//! What the program does with the arguments of its command line, over any reader, writers and folder.
//!
//! [`serve`] is the whole of it; the program `afdx` hands it the real ones.
//!
//! # Example
//!
//! From `crates/afdx_fixtures/src/commands.rt`:
//!
//! ```
//! let arguments = split(alloc, line)?;
//! let mut out = Vec::new(alloc);
//! let mut err = Vec::new(alloc);
//! let ending = serve(
//!     alloc, VERSION, &arguments, &mut input, &mut out, &mut err, folder,
//! );
//! ```
#![tactic(auto)]

mod check;
mod compare;
mod explain;
mod fitting;
mod forms;
mod gathering;
mod get;
mod leading;
mod measure;
mod measured;
mod names;
mod network_check;
mod network_ends;
mod network_get;
mod network_jitter;
mod network_measure;
mod network_plan;
mod network_run;
mod network_serving;
mod network_size;
mod network_survey;
mod network_trace;
mod network_watched;
mod outputs;
mod put;
mod reports;
mod run;
mod serving;
mod size;
mod survey;
mod trace;

pub use serving::serve;
