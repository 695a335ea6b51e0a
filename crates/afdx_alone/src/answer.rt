//! The answer to the capture of one link's port.

ghost use Rattle.std.specs.Prelude.{IfOk, IfErr};
ghost use Rattle.afdx_alone.specs.Answer.{IsAnswer, IsAnswerTo};
ghost use Rattle.afdx_alone.specs.Faults.{IsFaultOf, IsReadFault};

use crate::fault::{AloneFault, ReadFault};
use crate::link::Alone;
use crate::policing::Policing;
use crate::window::Window;
use afdx_folder::TURNS;
use afdx_pcap::laws::{early_faults_stay, rests_are_read_on};
use std::alloc::Allocator;
use std::io::Read;

/// Polices one link by itself, and returns the capture of those of its own frames that its account passes, in order,
/// with their stamps and bytes unchanged.
///
/// A frame is the link's own if its verdict would be Clean in a table of the constant `03 00 00 00`
/// with this one link, coming from this capture's port (profile): the law `own_frames_are_clean`.
///
/// # Errors
///
/// `Capture` with the first fault of an input that is no capture; `Memory` if memory ran out.
///
/// One pass; a frame's bytes are copied once, into the answer, if it passes. O(frames + bytes of the answer).
pub fn alone<A: Allocator>(alloc: A, link: &Alone, input: &[u8]) -> Result<Vec<u8, A>, AloneFault>
    ensures answer { IfOk result (λ v. IsAnswer link.now input.now v.items) }
    ensures fault { IfErr result (IsFaultOf input.now) }
{
    let mut policing = Policing::new(alloc, link)?;
    policing.take(link, input, true)?;
    Ok(policing.into_answer())
}

/// Polices one link by itself as `alone` does, over a capture that a reader gives, by at most 16,777,216 reads of at most
/// 65,536 bytes (profile). It keeps the answer, and of the input no more than 327,696 bytes.
///
/// # Errors
///
/// `Device` if a read fails or all reads are used up; `Capture` with the first fault of an input that is no capture, as
/// soon as no further bytes can mend it; `Memory` if memory ran out. Some of the input may then not have been read.
///
/// One pass; a frame's bytes are copied once, into the answer, if it passes. O(input).
pub fn read_alone<R: Read, A: Allocator + Copy>(
    alloc: A,
    link: &Alone,
    input: &mut R,
) -> Result<Vec<u8, A>, ReadFault>
    ensures answer { IfOk result (λ v. IsAnswerTo (R.remaining input.old) link.now v.items) }
    ensures fault { IfErr result (IsReadFault (R.remaining input.old)) }
{
    early_faults_stay();
    rests_are_read_on();
    let mut policing = Policing::new(alloc, link)?;
    let mut window = Window::new();
    for _turn in 0..TURNS {
        let ended = window.fill(input)?;
        let left = policing.take(link, window.as_slice(), ended)?.len();
        if ended {
            return Ok(policing.into_answer());
        }
        window.keep_last(left);
    }
    Err(ReadFault::Device)
}
