//! What was read of an input and not taken yet.

ghost use Rattle.std.specs.Prelude.{◌≡◌, ◌≤◌, ◌-◌, ◌++◌, [], ℕ, List, length, drop, true, IfOk, IfErr};
ghost use Rattle.std.specs.Io.KnownBytes.{Consumes, IsAtEnd};
ghost use Rattle.afdx_alone.specs.declared.fault.ReadFault.TheVariants.{Device};
ghost use Rattle.afdx_alone.specs.Inner.Sizes.{longest_record, window_size};

use crate::fault::ReadFault;
use afdx_folder::CHUNK;
use afdx_pcap::{HEAD_LENGTH, MAX_CAPTURED};
use std::io::{ErrorKind, Read};

/// The longest record, its header and what it holds at most, and a chunk.
const SIZE: usize = HEAD_LENGTH + MAX_CAPTURED as usize + CHUNK;

/// The bytes from `start` to `end`, and room after them.
#[derive(Drop)]
pub(crate) struct Window {
    bytes: [u8; SIZE],
    start: usize,
    end: usize,
    ghost ordered: { start ≤ end },
    ghost within: { end ≤ window_size },
}

impl Window {
    ghost use Rattle.afdx_alone.specs.Inner.Window.{items};

    /// Makes a window of nothing so far.
    pub(crate) fn new() -> Window
        ensures { items result ≡ [] }
    {
        Window {
            bytes: [0; SIZE],
            start: 0,
            end: 0,
        }
    }

    /// Returns the bytes that were not taken.
    pub(crate) fn as_slice(&self) -> &[u8]
        ensures same { result.now ≡ items self.now }
        ensures few { length result.now ≤ window_size }
    {
        &self.bytes[self.start..self.end]
    }

    /// Moves what is left to the front, so that all room is after it.
    fn move_to_front(&mut self)
        ensures items { items self.new ≡ items self.old }
        ensures end { self.new.end ≡ length (items self.old) }
    {
        let (start, end) = (self.start, self.end);
        self.bytes.copy_within(start..end, 0);
        self.start = 0;
        self.end = end - start;
    }

    /// Takes all bytes but the last, of which it leaves this many.
    pub(crate) fn keep_last(&mut self, left: usize)
        requires { left ≤ length (items self.old) }
        ensures { items self.new ≡ drop (length (items self.old) - left) (items self.old) }
    {
        self.start = self.end - left;
    }

    /// Reads more after the bytes that were not taken, of which there are no more than the longest record has, and returns
    /// whether the input was at its end. An interrupted read gives nothing.
    pub(crate) fn fill<R: Read>(&mut self, input: &mut R) -> Result<bool, ReadFault>
        requires { length (items self.old) ≤ longest_record }
        ensures ok { IfOk result (λ ended. (piece : List ℕ) × (items self.new ≡ items self.old ++ piece)
            × Consumes (R.remaining input.old) (R.remaining input.new) piece
            × (ended ≡ true → IsAtEnd (R.remaining input.new))) }
        ensures err { IfErr result (λ fault. fault ≡ Device) }
    {
        self.move_to_front();
        let end = self.end;
        match input.read(&mut self.bytes[end..end + CHUNK]) {
            Ok(count) => {
                self.end = end + count;
                Ok(count == 0)
            }
            Err(e) => {
                if e.kind() == ErrorKind::Interrupted {
                    Ok(false)
                } else {
                    Err(ReadFault::Device)
                }
            }
        }
    }
}
