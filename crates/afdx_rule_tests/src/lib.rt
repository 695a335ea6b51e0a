//! Tests of what the switch and its reports rest on, by their calls: numbers, accounts, addresses, verdicts, tables and loads.
//!
//! They are in a crate of their own, since a crate with tests is proved twice.
#![tactic(auto)]

#[cfg(test)]
mod accounts;
#[cfg(test)]
mod bursts;
#[cfg(test)]
mod first_calls;
#[cfg(test)]
mod frames;
#[cfg(test)]
mod loads;
#[cfg(test)]
mod tables;
#[cfg(test)]
mod units;
