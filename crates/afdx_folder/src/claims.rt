//! Folders into which one run puts at a time.

use crate::file_id::FileId;
use std::alloc::{AllocError, Allocator};
use std::fs;
use std::fs::{File, OpenFile, TryLockError};
use std::rt::Files;

/// Who puts into a folder.
#[derive(Clone, Copy, PartialEq, Eq)]
pub(crate) enum Claim {
    /// This run, and no other one.
    Own,
    /// Another run.
    Other,
    /// That is not known: the folder cannot be opened, or its file system has no locks.
    Unknown,
}

/// The folders whose locks this run has: as long as new files of it wait to be put. A lock ends with its process, so that nothing is
/// left of one that is killed.
#[derive(Drop)]
pub(crate) struct Claims<A: Allocator> {
    folders: Vec<(FileId, File), A>,
    waiting: usize,
}

/// Returns the name of the folder that a file is in.
fn folder_of(name: &str) -> &str {
    match name.rfind('/') {
        Some(0) => "/",
        Some(end) => &name[..end],
        None => ".",
    }
}

/// Opens a folder, and returns it with its identity, if that can be done.
fn open_folder<R: Files<File = File>>(rt: &R, name: &str) -> Option<(FileId, File)> {
    let Ok(folder) = fs::open(rt, name) else {
        return None;
    };
    match folder.metadata() {
        Ok(metadata) => Some((FileId::of(&metadata), folder)),
        Err(_) => None,
    }
}

impl<A: Allocator + Copy> Claims<A> {
    /// Makes claims of no folder. O(1).
    pub(crate) fn new(alloc: A) -> Claims<A> {
        Claims {
            folders: Vec::new(alloc),
            waiting: 0,
        }
    }

    /// Returns whether this run has the lock of a folder.
    fn has(&self, id: FileId) -> bool {
        self.folders.iter().any(|(own, _)| *own == id)
    }

    /// Takes the lock of the folder that the file of this name is in, if no other run has it, and returns who puts into that folder.
    pub(crate) fn take<R: Files<File = File>>(
        &mut self,
        rt: &R,
        name: &str,
    ) -> Result<Claim, AllocError> {
        let Some((id, folder)) = open_folder(rt, folder_of(name)) else {
            return Ok(Claim::Unknown);
        };
        if self.has(id) {
            return Ok(Claim::Own);
        }
        match folder.try_lock() {
            Ok(()) => {
                self.folders.push((id, folder))?;
                Ok(Claim::Own)
            }
            Err(TryLockError::WouldBlock) => Ok(Claim::Other),
            Err(TryLockError::Error(_)) => Ok(Claim::Unknown),
        }
    }

    /// Notes that one more new file waits to be put.
    pub(crate) fn wait(&mut self) {
        self.waiting = self.waiting.saturating_add(1);
    }

    /// Notes that one of them waits no longer, and gives the locks back if none waits.
    pub(crate) fn done(&mut self) {
        self.waiting = self.waiting.saturating_sub(1);
        self.end();
    }

    /// Gives the locks back if none waits.
    pub(crate) fn end(&mut self) {
        if self.waiting == 0 {
            self.folders.clear();
        }
    }
}
