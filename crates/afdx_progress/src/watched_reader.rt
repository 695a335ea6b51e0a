//! A reader that tells how much was read.

ghost use Rattle.std.specs.Prelude.{◌≡◌};

use crate::progress::Progress;
use std::io;
use std::io::{Eprint, Read};
use std::time::Clock;

/// A reader that answers as the one in it, and tells of what each read gave.
#[derive(Drop)]
pub struct WatchedReader<'a, R: Clock + Eprint + AllocGlobal, T> {
    inner: T,
    has_length: bool,
    progress: &'a Progress<'a, R>,
}

impl<'a, R: Clock + Eprint + AllocGlobal, T> WatchedReader<'a, R, T> {
    /// Makes a watched reader of a reader that will give so many bytes, if that is known. One whose length is not known counts from its
    /// first read on. O(1).
    pub fn new(
        inner: T,
        length: Option<u64>,
        progress: &'a Progress<'a, R>,
    ) -> WatchedReader<'a, R, T>
        ensures { result.inner ≡ inner }
    {
        if let Some(length) = length {
            progress.expect(length);
        }
        WatchedReader {
            inner,
            has_length: length.is_some(),
            progress,
        }
    }
}

impl<R: Clock + Eprint + AllocGlobal, T: Read> Read for WatchedReader<'_, R, T> {
    ghost remaining = { λ reader. T.remaining reader.inner };

    fn read(&mut self, buf: &mut [u8]) -> io::Result<usize> {
        let read = self.inner.read(buf);
        if let Ok(count) = &read {
            if !self.has_length {
                self.progress.expect_unknown();
            }
            self.progress.note(*count);
        }
        read
    }
}
