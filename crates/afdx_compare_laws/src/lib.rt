//! Laws of what recordings of a switch keep to: what of it stays if they are cut, what cannot hide in it, on what a link's rows rest, and when a
//! link that keeps to it conforms (profile).
//!
//! They are of the relation that `afdx_compare` decides and of its definitions, and of no code.
#![tactic(auto)]

pub mod laws;
