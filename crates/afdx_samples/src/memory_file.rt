//! New files in memory.

ghost use Rattle.std.specs.Prelude.{Some};

use afdx_folder::NewFile;
use std::alloc::{AllocError, Allocator};

/// A new file, by its bytes.
#[derive(Debug, Drop)]
pub struct MemoryFile<A: Allocator> {
    pub bytes: Vec<u8, A>,
}

impl<A: Allocator> NewFile for MemoryFile<A> {
    ghost contents = { λ file. Some file.bytes.items };

    fn append(&mut self, bytes: &[u8]) -> Result<(), AllocError> {
        self.bytes.extend_from_slice(bytes)
    }
}
