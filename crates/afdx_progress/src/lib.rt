//! What is shown on a terminal while a command reads for longer than a second: how much it has read, of how much, and for how long.
//!
//! [`Progress`] shows the line, rewrites it in place and erases it. It is told of each read by a [`WatchedReader`] and a [`WatchedFolder`],
//! which answer as the reader and the folder in them; before anything is written by a [`ClearingWriter`], the line is erased.
//!
//! # Example
//!
//! From `crates/afdx_serve_tests/src/progress.rt`:
//!
//! ```
//! let progress = Progress::new(&rt, false);
//! let mut reader = WatchedReader::new(b"three".as_slice(), Some(5), &progress);
//! let count = reader.read(&mut bytes)?;
//! progress.end();
//! assert!(rt; bytes.get(..count) == Some(b"three".as_slice()));
//! ```
#![tactic(auto)]

mod clearing_writer;
mod line;
mod progress;
mod watched_folder;
mod watched_reader;

pub use clearing_writer::ClearingWriter;
pub use progress::Progress;
pub use watched_folder::WatchedFolder;
pub use watched_reader::WatchedReader;
