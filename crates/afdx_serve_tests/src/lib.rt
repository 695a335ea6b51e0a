//! Tests of the program's commands if folders, readers and writers fail, and of what no case of the built program sees.
//!
//! They are in a crate of their own, since a crate with tests is proved twice.
#![tactic(auto)]

#[cfg(test)]
mod devices;
#[cfg(test)]
mod folders;
#[cfg(test)]
mod names;
#[cfg(test)]
mod networks;
#[cfg(test)]
mod policing;
#[cfg(test)]
mod progress;
#[cfg(test)]
mod recordings;
#[cfg(test)]
mod streams;
#[cfg(test)]
mod version;
