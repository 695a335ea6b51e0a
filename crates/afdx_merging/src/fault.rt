//! Why captures are not merged.

ghost use Rattle.std.specs.Prelude.{◌≡◌};

use afdx_pcap::PcapFault;
use std::alloc::AllocError;

/// Why captures are not merged.
#[derive(Clone, Copy, Debug, PartialEq, Eq)]
pub enum MergeFault {
    /// Out of memory.
    Memory,
    /// The reader at this place failed; those before it were read to their ends.
    Read(usize),
    /// What the reader at this place gives is no capture, and this is its first fault. All were read, and those at lower places are captures.
    Capture(usize, PcapFault),
}

impl From<AllocError> for MergeFault {
    ghost use Rattle.afdx_merging.specs.declared.fault.MergeFault.TheVariants.{Memory};

    ghost from_gives = { λ _ e. e ≡ Memory };

    fn from(_error: AllocError) -> MergeFault {
        MergeFault::Memory
    }
}
