//! Readers and writers that fail.

use std::alloc::Global;
use std::io;
use std::io::{ErrorKind, Read, Write};

/// A reader that gives the bytes, at most 7 at once; one call answers an error instead.
#[derive(Drop)]
pub(crate) struct Source<'a> {
    pub(crate) bytes: &'a [u8],
    pub(crate) calls: u64,
    pub(crate) failing: u64,
    pub(crate) kind: ErrorKind,
}

impl<'a> Source<'a> {
    pub(crate) fn new(bytes: &'a [u8], failing: u64, kind: ErrorKind) -> Source<'a> {
        Source {
            bytes,
            calls: 0,
            failing,
            kind,
        }
    }
}

impl Read for Source<'_> {
    fn read(&mut self, buf: &mut [u8]) -> io::Result<usize> {
        self.calls = self.calls.saturating_add(1);
        if self.calls == self.failing {
            return Err(io::Error::from(self.kind));
        }
        let count = buf.len().min(7);
        self.bytes.read(&mut buf[..count])
    }
}

/// A reader of which every read is interrupted.
#[derive(Drop)]
pub(crate) struct Interrupted;

impl Read for Interrupted {
    fn read(&mut self, _buf: &mut [u8]) -> io::Result<usize> {
        Err(io::Error::from(ErrorKind::Interrupted))
    }
}

/// A writer that takes at most so many bytes at once; the call of number `failing`, from 1, takes none or answers an error.
#[derive(Drop)]
pub(crate) struct Sink {
    pub(crate) bytes: Vec<u8>,
    pub(crate) most: usize,
    pub(crate) calls: u64,
    pub(crate) failing: u64,
    pub(crate) kind: Option<ErrorKind>,
}

impl Sink {
    pub(crate) fn new(alloc: Global, most: usize, failing: u64, kind: Option<ErrorKind>) -> Sink {
        Sink {
            bytes: Vec::new(alloc),
            most,
            calls: 0,
            failing,
            kind,
        }
    }
}

impl Write for Sink {
    fn write(&mut self, buf: &[u8]) -> io::Result<usize> {
        self.calls = self.calls.saturating_add(1);
        if self.calls == self.failing {
            return match self.kind {
                Some(kind) => Err(io::Error::from(kind)),
                None => Ok(0),
            };
        }
        let count = buf.len().min(self.most);
        self.bytes.extend_from_slice(&buf[..count])?;
        Ok(count)
    }

    fn flush(&mut self) -> io::Result<()> {
        Ok(())
    }
}
