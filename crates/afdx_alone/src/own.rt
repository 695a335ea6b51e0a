//! Which frames of a capture are a link's own.

ghost use Rattle.std.specs.Prelude.{◌≡◌, ◌≤◌, length};
ghost use Rattle.afdx_alone.specs.Own.{is_addressed, is_own};

use crate::link::Alone;
use afdx_frame::view;
use afdx_pcap::Record;
use afdx_units::{GREATEST_SIZE, LEAST_SIZE};
use std::alloc::Allocator;

/// The constant field of every link (profile).
const CONSTANT: [u8; 4] = [3, 0, 0, 0];

/// Returns whether the destination address is that of the link of this number.
fn is_addressed(bytes: &[u8], id: u16) -> bool
    requires { 6 ≤ length bytes.now }
    ensures { result ≡ is_addressed id bytes.now }
{
    let address = view(bytes).unwrap();
    address.constant() == CONSTANT && address.link() == id
}

/// Returns whether a frame is the link's own: whole, of a size that frames have, addressed to the link, and not
/// too big for it.
pub(crate) fn is_own<A: Allocator>(link: &Alone, frame: &Record<'_, A>) -> bool
    ensures { result ≡ is_own link.now frame.now }
{
    let bytes = frame.bytes();
    let size = frame.size();
    frame.original() as usize <= bytes.len()
        && LEAST_SIZE <= size
        && size <= GREATEST_SIZE
        && is_addressed(bytes, link.id)
        && size <= link.max_size
}
