//! What is reported of a run, as text.

ghost use Rattle.std.specs.Prelude.{◌≡◌, ◌++◌, string_bytes, OnOk};
ghost use Rattle.afdx_measure.specs.Lines.{link_line, peak_line};

use crate::delays::Delays;
use crate::filling::Filling;
use afdx_lines::put_line;
use std::alloc::{AllocError, Allocator};

/// Appends the line of a link at a port, with the port's bound for the link's priority, if one is promised.
///
/// An error says that memory ran out; the text is then of no use. O(line).
pub fn put_link_line<A: Allocator + Copy>(
    text: &mut String<A>,
    link: u16,
    port: u8,
    delays: &Delays,
    bound: Option<u128>,
) -> Result<(), AllocError>
    ensures { OnOk result (string_bytes text.new ≡ string_bytes text.old ++ link_line link port delays.now bound) }
{
    let (least, greatest) = match delays.range {
        Some(range) => (
            Some(u128::from(range.least)),
            Some(u128::from(range.greatest)),
        ),
        None => (None, None),
    };
    put_line(
        text,
        &[
            ("link ", Some(u128::from(link))),
            (" out ", Some(u128::from(port))),
            (" sent ", Some(delays.count as u128)),
            (" least ", least),
            (" greatest ", greatest),
            (" bound ", bound),
        ],
    )
}

/// Appends the line of a port with a buffer of so many bytes.
///
/// An error says that memory ran out; the text is then of no use. O(line).
pub fn put_peak_line<A: Allocator + Copy>(
    text: &mut String<A>,
    port: u8,
    buffer: u32,
    peak: Option<Filling>,
) -> Result<(), AllocError>
    ensures { OnOk result (string_bytes text.new ≡ string_bytes text.old ++ peak_line port buffer peak) }
{
    let (bytes, at) = match peak {
        Some(peak) => (peak.bytes, Some(u128::from(peak.at.ns()))),
        None => (0, None),
    };
    put_line(
        text,
        &[
            ("out ", Some(u128::from(port))),
            (" occupied ", Some(u128::from(bytes))),
            (" of ", Some(u128::from(buffer))),
            (" at ", at),
        ],
    )
}
