//! A table's text whose links are each read by itself.
//!
//! TOML of a configuration table ends in one `[[link]]` after the other. The module `laws` says that what the text before the
//! first link says and what each link's own text says is what the whole text says, by the grammar that the library `toml` is
//! proved to read, so that no tree of the whole text needs to be made.
#![tactic(auto)]

pub mod laws;
