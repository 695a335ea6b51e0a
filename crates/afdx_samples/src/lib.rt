//! Tables, networks, frames, captures and files that the crates' tests start from.
//!
//! They are in a crate of their own, so that each is written once. No program uses it.
#![tactic(auto)]

mod captures;
mod frames;
mod memory_file;
mod networks;
mod rows;
mod tables;

pub use captures::{FRAME, HEADER, capture, joined};
pub use frames::{Sample, frame, large, one_of_each, record, small};
pub use memory_file::MemoryFile;
pub use networks::{Ends, four_ports_each, network_file, small_link, two_switches};
pub use rows::{FRAMED, HIGH, LOW, Link, Port};
pub use tables::{double, later, link, mixed, narrow, port, single, slow, table};
