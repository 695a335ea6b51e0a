//! Tests of runs: sessions by their calls, captures in any pieces, and networks of switches.
//!
//! They are in a crate of their own, since a crate with tests is proved twice.
#![tactic(auto)]

#[cfg(test)]
mod feeding;
#[cfg(test)]
mod network_runs;
#[cfg(test)]
mod networks;
#[cfg(test)]
mod pieces;
#[cfg(test)]
mod reports;
#[cfg(test)]
mod sessions;
#[cfg(test)]
mod settings;
#[cfg(test)]
mod texts;
