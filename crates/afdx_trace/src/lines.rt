//! Lines that go to a file while a run goes on.

ghost use Rattle.std.specs.Prelude.{◌≡◌, [], OnOk, IfOk};
ghost use Rattle.afdx_trace.specs.Inner.Lines.{whole_of, HasGone};

use afdx_folder::NewFile;
use afdx_past::Gone;
use std::alloc::{AllocError, Allocator};

/// How many bytes go to a file at once at least, but for the last (profile).
const PART: usize = 32_768;

/// Lines; those that went to a file were let go.
#[derive(Drop)]
pub(crate) struct Lines<A: Allocator> {
    pub(crate) gone: Gone<u8>,
    pub(crate) text: String<A>,
}

impl<A: Allocator + Copy> Lines<A> {
    /// Makes a list of no lines. It takes no memory.
    pub(crate) fn new(alloc: A) -> Lines<A>
        ensures whole { whole_of result ≡ [] }
        ensures gone { result.gone.items ≡ [] }
    {
        Lines {
            gone: Gone::new(),
            text: String::new(alloc),
        }
    }

    /// Appends all that is there to a file. O(bytes).
    ///
    /// Fails only if memory runs out; nothing is said then of what the file has.
    pub(crate) fn put_out<F: NewFile>(&mut self, file: &mut F) -> Result<(), AllocError>
        ensures whole { OnOk result (whole_of self.new ≡ whole_of self.old) }
        ensures all { OnOk result (self.new.gone.items ≡ whole_of self.new) }
        ensures gone { OnOk result ((start : F) → HasGone F.contents start file.old self.old → HasGone F.contents start file.new self.new) }
    {
        let bytes = self.text.as_bytes();
        file.append(bytes)?;
        self.gone = self.gone.and_all(bytes);
        self.text.clear();
        Ok(())
    }

    /// Appends all that is there to a file once it has reached `PART` bytes; does nothing before. O(bytes).
    pub(crate) fn hand_over<F: NewFile>(&mut self, file: &mut F) -> Result<(), AllocError>
        ensures whole { OnOk result (whole_of self.new ≡ whole_of self.old) }
        ensures gone { OnOk result ((start : F) → HasGone F.contents start file.old self.old → HasGone F.contents start file.new self.new) }
    {
        if self.text.len() >= PART {
            self.put_out(file)?;
        }
        Ok(())
    }
}
