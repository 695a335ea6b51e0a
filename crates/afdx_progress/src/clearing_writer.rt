//! A writer before which the line is erased.

ghost use Rattle.std.specs.Prelude.{◌≡◌};

use crate::progress::Progress;
use std::io;
use std::io::{Eprint, Write};
use std::time::Clock;

/// A writer that answers as the one in it. Before its first bytes the line is erased, and none is shown from then on.
#[derive(Drop)]
pub struct ClearingWriter<'a, R: Clock + Eprint, W> {
    inner: W,
    progress: &'a Progress<'a, R>,
}

impl<'a, R: Clock + Eprint, W> ClearingWriter<'a, R, W> {
    /// Makes a clearing writer of a writer. O(1).
    pub fn new(inner: W, progress: &'a Progress<'a, R>) -> ClearingWriter<'a, R, W>
        ensures { result.inner ≡ inner }
    {
        ClearingWriter { inner, progress }
    }
}

impl<R: Clock + Eprint, W: Write> Write for ClearingWriter<'_, R, W> {
    ghost contents = { λ writer. W.contents writer.inner };

    fn write(&mut self, buf: &[u8]) -> io::Result<usize> {
        self.progress.end();
        self.inner.write(buf)
    }

    fn flush(&mut self) -> io::Result<()> {
        self.inner.flush()
    }
}
