//! What was recorded at a switch, compared with what is proved of ours: whether the records that left are those that the frames that came
//! lead to (profile).
//!
//! [`compare`] reads the captures of what came and of what left, each once and in pieces, and gives its [`Findings`], which have numbers for
//! each link at each of its ports, a verdict, and if asked for each single difference. It runs no queue: a port's bound says how long a
//! frame may take.
#![tactic(auto)]

mod columns;
mod comparison;
mod findings;
pub mod laws;
mod lines;
mod report_rows;
mod row;
mod rows;
mod sources;

pub use columns::differences;
pub use findings::{CompareFault, Findings, compare};
pub use lines::report;
