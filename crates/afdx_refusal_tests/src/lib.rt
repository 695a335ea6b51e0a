//! Tests of calls that go on after an allocation was refused: each of theirs is refused in turn, and what comes after it is right.
//!
//! They are in a crate of their own, since a crate with tests is proved twice.
#![tactic(auto)]

#[cfg(test)]
mod allocations;
#[cfg(test)]
mod appended;
#[cfg(test)]
mod captures;
#[cfg(test)]
mod counters;
#[cfg(test)]
mod folders;
#[cfg(test)]
mod ports;
#[cfg(test)]
mod sessions;
#[cfg(test)]
mod switches;
#[cfg(test)]
mod tables;
