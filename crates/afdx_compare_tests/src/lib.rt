//! Tests of what compares recordings of a switch with what is proved: one link at a port, by rows that were worked out by hand, and the
//! calls below that.
//!
//! They are in a crate of their own, since a crate with tests is proved twice.
#![tactic(auto)]

#[cfg(test)]
mod first_calls;
#[cfg(test)]
mod rows;
#[cfg(test)]
mod watching;
