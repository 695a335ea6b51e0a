//! Frames, each named by what a capture says of it.

ghost use Rattle.std.specs.Prelude.{◌<◌, IfSome};
ghost use Rattle.afdx_units.specs.Time.{last_second};

use afdx_pcap::Record;
use afdx_units::Stamp;
use std::alloc::Allocator;

/// A frame in a capture: its stamp, its captured and original length, the first byte of its address and its link. The other
/// bytes of the address are 0; so are those after the EtherType.
#[derive(Clone, Copy)]
pub struct Sample {
    pub seconds: u32,
    pub nanos: u32,
    pub captured: u32,
    pub original: u32,
    pub first: u8,
    pub link: u8,
}

impl Sample {
    /// Returns the destination, the source and the EtherType.
    pub fn header(&self) -> [u8; 14] {
        let Sample { first, link, .. } = *self;
        [first, 0, 0, 0, 0, link, 2, 0, 0, 0, 0, 1, 8, 0]
    }
}

/// Makes a frame of a link and of so many captured bytes, so many nanoseconds after the start of 1970.
pub fn frame(link: u8, captured: u32, nanos: u32) -> Sample {
    Sample {
        seconds: 0,
        nanos,
        captured,
        original: captured,
        first: 3,
        link,
    }
}

/// Makes a frame of size 64.
pub fn small(link: u8, nanos: u32) -> Sample {
    frame(link, 60, nanos)
}

/// Makes a frame of size 1518.
pub fn large(link: u8, nanos: u32) -> Sample {
    frame(link, 1514, nanos)
}

/// Makes frames for the table `narrow` that come in at port 1 at instant 0: cut, short, long, of another constant field, of no link,
/// of a link from another port, too big, both short and of another constant field, and a clean one.
pub fn one_of_each() -> [Sample; 9] {
    let whole = small(10, 0);
    [
        Sample {
            original: 61,
            ..whole
        },
        frame(10, 59, 0),
        frame(10, 1515, 0),
        Sample { first: 2, ..whole },
        small(11, 0),
        small(20, 0),
        frame(10, 497, 0),
        Sample {
            first: 2,
            ..frame(10, 59, 0)
        },
        whole,
    ]
}

/// Makes the record of a frame; none if its stamp is no stamp or in the last second, if the frame is too long, or if memory runs
/// out.
pub fn record<A: Allocator + Copy>(alloc: A, sample: Sample) -> Option<Record<'static, A>>
    ensures { IfSome result (λ frame. frame.stamp < last_second) }
{
    let stamp = Stamp::new(sample.seconds, sample.nanos)?;
    if stamp.late() {
        return None;
    }
    let mut bytes = sample.header().to_vec(alloc).ok()?;
    bytes.resize(sample.captured as usize, 0).ok()?;
    Record::new(stamp, sample.original, bytes).ok()
}
