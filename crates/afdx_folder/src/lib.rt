//! Readers, writers and folders of files, with what is known of them if they fail.
//!
//! [`read_to_end`] and [`write_bytes`] make a bounded number of calls and try none again. A [`Folder`] names which file it
//! failed for at last; [`Disk`] is the one of real files. A file is put as a whole, as a [`NewFile`] that was written in parts.
//!
//! # Example
//!
//! From `crates/afdx_refusal_tests/src/folders.rt`:
//!
//! ```
//! let mut new = folder.begin(name)?;
//! new.append(bytes)?;
//! let settled = folder.settle(new, name)?;
//! folder.put_new(settled, name)
//! ```
#![tactic(auto)]

mod claims;
mod device_log;
mod disk;
mod file_id;
mod folder;
mod input;
mod new_file;
mod output;
mod size_limit;
mod whole_file;

pub use device_log::DeviceLog;
pub use disk::Disk;
pub use folder::{Folder, FolderFault};
pub use input::{CHUNK, InputFault, TURNS, read_to_end};
pub use new_file::NewFile;
pub use output::{WriteFault, write_bytes};
pub use whole_file::WholeFile;
