//! Which file of the system a name leads to.

use std::fs;
use std::fs::{Metadata, OpenFile};
use std::os::unix::fs::MetadataExt;
use std::rt::Files;

/// Which file of the system it is, by whatever name or link: the number of its device, and its own there.
#[derive(Clone, Copy, PartialEq, Eq)]
pub(crate) struct FileId {
    device: u64,
    number: u64,
}

impl FileId {
    /// Returns the identity that the system tells of a file.
    pub(crate) fn of(metadata: &Metadata) -> FileId {
        FileId {
            device: metadata.dev(),
            number: metadata.ino(),
        }
    }
}

/// Returns whether this very file is under a name that is no link.
pub(crate) fn is_under<R: Files>(rt: &R, file: &R::File, name: &str) -> bool {
    match (file.metadata(), fs::symlink_metadata(rt, name)) {
        (Ok(opened), Ok(there)) => FileId::of(&opened) == FileId::of(&there),
        _ => false,
    }
}
