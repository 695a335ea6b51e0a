//! A reader, as standard input or a file, read to its end within a bounded number of turns.

ghost use Rattle.std.specs.Prelude.{◌≡◌, ◌<◌, length, IfOk, OnOk};
ghost use Rattle.std.specs.Io.KnownBytes.{IsAtEnd};
ghost use Rattle.afdx_folder.specs.Input.{AreGiven};

use std::alloc::{AllocError, Allocator};
use std::io::{ErrorKind, Read};

/// How often input is read at most (profile).
pub const TURNS: u32 = 16_777_216;

/// How many bytes one read gives at most (profile).
pub const CHUNK: usize = 65_536;

/// Why input was not read to its end.
#[derive(Clone, Copy, Debug, PartialEq, Eq)]
pub enum InputFault {
    /// Out of memory.
    Memory,
    /// A read failed, or all turns were used up.
    Device,
}

impl From<AllocError> for InputFault {
    ghost use Rattle.afdx_folder.specs.declared.input.InputFault.TheVariants.{Memory};

    ghost from_gives = { λ _ fault. fault ≡ Memory };

    fn from(_error: AllocError) -> InputFault {
        InputFault::Memory
    }
}

/// Makes so many zeros. An error says that memory ran out.
fn zeros<A: Allocator + Copy>(alloc: A, count: usize) -> Result<Vec<u8, A>, AllocError>
    ensures { IfOk result (λ v. length v.items ≡ count) }
{
    vec![in alloc; 0u8; count]
}

/// Reads all the bytes that are left, by at most this many reads into the chunk, and returns them; room for `expected` of them is
/// made at once.
fn read_turns<R: Read, A: Allocator + Copy>(
    alloc: A,
    input: &mut R,
    turns: u32,
    chunk: &mut [u8],
    expected: usize,
) -> Result<Vec<u8, A>, InputFault>
    requires { 0 < length chunk.old }
    ensures bytes { IfOk result (λ v. AreGiven (R.remaining input.old) v.items) }
    ensures end { OnOk result (IsAtEnd (R.remaining input.new)) }
{
    let mut bytes = Vec::with_capacity(alloc, expected)?;
    for _turn in 0..turns {
        match input.read(chunk) {
            Ok(0) => return Ok(bytes),
            Ok(count) => bytes.extend_from_slice(&chunk[..count])?,
            Err(e) => {
                if e.kind() != ErrorKind::Interrupted {
                    return Err(InputFault::Device);
                }
            }
        }
    }
    Err(InputFault::Device)
}

/// Reads all the bytes that are left, by at most 16,777,216 reads of at most 65,536 bytes (profile), and returns them.
///
/// An interrupted read, and one that finds the end, is one of them. Room for `expected` bytes is made at once, which is the
/// length of a file and 0 if none is known; more or fewer may come.
///
/// # Errors
///
/// `Device` if a read fails or all reads are used up; `Memory` if memory ran out. Some of the input may then have been read.
///
/// O(input).
pub fn read_to_end<R: Read, A: Allocator + Copy>(
    alloc: A,
    input: &mut R,
    expected: usize,
) -> Result<Vec<u8, A>, InputFault>
    ensures bytes { IfOk result (λ v. AreGiven (R.remaining input.old) v.items) }
    ensures end { OnOk result (IsAtEnd (R.remaining input.new)) }
{
    let mut chunk = zeros(alloc, CHUNK)?;
    read_turns(alloc, input, TURNS, &mut chunk, expected)
}
