//! Spells of policing of a virtual link: when frames came that its policing did not pass (profile).
//!
//! A spell begins with a policed frame. It ends with the last one before the link kept to its allowance again for more than one gap of
//! its own.
//! [`Spells`] notes policed frames as they come. The module `laws` says that spells are apart, and have all policed frames.
//!
//! # Example
//!
//! From `crates/afdx_rule_tests/src/first_calls.rt`:
//!
//! ```
//! let mut spells = Spells::new(rt.alloc(), 1_000_000);
//! for ns in [0, 1_000_000, 2_000_001] {
//!     let at = Stamp::from_ns(ns).ok_or("an instant")?;
//!     spells.note(&Excess { at, early: 500 })?;
//! }
//! for spell in spells.as_slice() {
//!     counts.push(spell.count)?;
//! }
//! assert!(rt; counts.as_slice() == [2, 1].as_slice());
//! ```
#![tactic(auto)]

pub mod laws;
mod lines;
mod spell;
mod spells;

pub use lines::put_spell_line;
pub use spell::{Excess, Spell};
pub use spells::Spells;
