//! A file that is written in parts.

ghost use Rattle.std.specs.Prelude.{ℕ, List, Option, None, OnOk};
ghost use Rattle.std.specs.Io.KnownBytes.{Appends};

use std::alloc::AllocError;

/// A file that is written in parts, and that nobody sees under its name before it is put.
pub trait NewFile {
    /// What was appended so far, if it shows it.
    ghost contents: { Self → Option (List ℕ) } = { λ _. None };

    /// Appends bytes. A failure of the device is kept, and answered when the file is settled or put. An error says that memory ran
    /// out; nothing is said then of what the file has.
    ///
    /// O(bytes).
    fn append(&mut self, bytes: &[u8]) -> Result<(), AllocError>
        ensures { OnOk result (Appends (contents self.old) (contents self.new) bytes.now) };
}
