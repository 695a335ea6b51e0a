//! Tests of captures: bytes of the format, whole and in pieces.
//!
//! They are in a crate of their own, since a crate with tests is proved twice.
#![tactic(auto)]

#[cfg(test)]
mod bytes;
#[cfg(test)]
mod captures;
#[cfg(test)]
mod readers;
