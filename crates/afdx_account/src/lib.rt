//! Policing accounts: which frames of a virtual link are passed (ARINC 664 Part 7's policing; the account
//! itself is this project's profile).
//!
//! `specs/Policing.antt` defines the passed frames by the windows over one link's own frames. An account
//! keeps one level; its `offer` is proved to answer by that definition. Every call is O(1) and takes no memory.
//!
//! # Example
//!
//! From `crates/afdx_rule_tests/src/accounts.rt`:
//!
//! ```
//! let mut account = Account::new(Police::Frame, 1518, Bag::Ms1, 1_000_000);
//! let terms = [account.cap(), account.rate(), account.price(64)];
//! let weight = account.weight(Speed::Hundred);
//! let first = account.offer(Stamp::ZERO, 64);
//! let second = account.offer(Stamp::ZERO, 1518);
//! let third = account.offer(Stamp::ZERO, 64);
//! let soon = early_by(&account, Stamp::ZERO, 64);
//! ```
#![tactic(auto)]

mod account;
mod byte_account;
mod frame;
mod frame_account;
pub mod laws;
mod meter;
mod too_early;

pub use account::Account;
pub use byte_account::ByteAccount;
pub use frame::Frame;
pub use frame_account::FrameAccount;
pub use meter::Meter;
pub use too_early::early_by;
