//! What the tests of the program's commands share: a folder in memory, the run of one frame, and what the program answers over them.
//!
//! They are in a crate of their own, so that the crates of tests are proved side by side. No program uses it.
#![tactic(auto)]

mod commands;
mod memory_folder;
mod one_frame;

pub use commands::{Said, Served, VERSION, answer_over, answers, folder_of, split};
pub use memory_folder::{MemoryFolder, OpenedFile};
pub use one_frame::{
    Broken, CHECKED, COMPARE, CONFORMS, LINK_10, NO_DIFFERENCES, OneFrame, REPORT, RUN, captured,
};
