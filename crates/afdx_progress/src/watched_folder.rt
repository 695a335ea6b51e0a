//! A folder that tells how much was read of its files.

ghost use Rattle.std.specs.Prelude.{◌≡◌};

use crate::progress::Progress;
use crate::watched_reader::WatchedReader;
use afdx_folder::{Folder, FolderFault};
use std::alloc::{AllocError, Allocator};
use std::fs::OpenFile;
use std::io::Eprint;
use std::time::Clock;

/// A folder that answers as the one in it, and tells of what is read of its files, whose length it asks when they are opened. A file that
/// is got is told of once it was read.
#[derive(Drop)]
pub struct WatchedFolder<'a, R: Clock + Eprint + AllocGlobal, F> {
    inner: F,
    progress: &'a Progress<'a, R>,
}

impl<'a, R: Clock + Eprint + AllocGlobal, F> WatchedFolder<'a, R, F> {
    /// Makes a watched folder of a folder. O(1).
    pub fn new(inner: F, progress: &'a Progress<'a, R>) -> WatchedFolder<'a, R, F>
        ensures { result.inner ≡ inner }
    {
        WatchedFolder { inner, progress }
    }
}

/// Returns how many bytes a file has, if it is a regular one: what a pipe or a device will give is not known.
fn length_of<T: OpenFile>(file: &T) -> Option<u64> {
    match file.metadata() {
        Ok(metadata) if metadata.is_file() => Some(metadata.len()),
        _ => None,
    }
}

impl<'a, R: Clock + Eprint + AllocGlobal, F: Folder> Folder for WatchedFolder<'a, R, F>
where
    F::Opened: OpenFile,
{
    type New = F::New;

    type Opened = WatchedReader<'a, R, F::Opened>;

    ghost files = { λ folder. F.files folder.inner };

    ghost failed = { λ folder. F.failed folder.inner };

    fn get<A: Allocator + Copy>(
        &mut self,
        alloc: A,
        name: &str,
    ) -> Result<Vec<u8, A>, FolderFault> {
        let bytes = self.inner.get(alloc, name)?;
        self.progress.expect(bytes.len() as u64);
        self.progress.note(bytes.len());
        Ok(bytes)
    }

    fn open(&mut self, name: &str) -> Result<WatchedReader<'a, R, F::Opened>, FolderFault> {
        let file = self.inner.open(name)?;
        let length = length_of(&file);
        Ok(WatchedReader::new(file, length, self.progress))
    }

    fn note_unread(&mut self, name: &str) -> FolderFault {
        self.inner.note_unread(name)
    }

    fn begin(&mut self, name: &str) -> Result<F::New, AllocError> {
        self.inner.begin(name)
    }

    fn settle(&mut self, new: F::New, name: &str) -> Result<F::New, FolderFault> {
        self.progress.note(0);
        self.inner.settle(new, name)
    }

    fn put_new(&mut self, new: F::New, name: &str) -> Result<(), FolderFault> {
        self.inner.put_new(new, name)
    }

    fn join(&mut self, new: &mut F::New, part: F::New) -> Result<(), AllocError> {
        self.inner.join(new, part)
    }

    fn abandon(&mut self, new: F::New) {
        self.inner.abandon(new)
    }

    fn failures(&self) -> u64 {
        self.inner.failures()
    }
}
