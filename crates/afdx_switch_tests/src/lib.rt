//! Tests of the switch by its calls: one output port, the switch over any merge of arrivals, and its counters.
//!
//! They are in a crate of their own, since a crate with tests is proved twice.
#![tactic(auto)]

#[cfg(test)]
mod calls;
#[cfg(test)]
mod counts;
#[cfg(test)]
mod held;
#[cfg(test)]
mod kept;
#[cfg(test)]
mod ports;
#[cfg(test)]
mod scenes;
#[cfg(test)]
mod traffic;
