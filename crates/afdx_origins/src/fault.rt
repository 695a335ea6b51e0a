//! Why a copy is not noted.

ghost use Rattle.std.specs.Prelude.{◌≡◌};

use std::alloc::AllocError;

/// Why a copy is not noted.
#[derive(Clone, Copy, Debug, PartialEq, Eq)]
pub enum OriginsFault {
    /// The switch has no row of the copy's link that leads to the port, or it is not known where the frame came from.
    Unknown,
    /// The frame would come at the end of a wire after the last instant.
    Late,
    /// The port had sent 2^64 - 1 copies of the link.
    Count,
    /// Out of memory.
    Memory,
}

impl From<AllocError> for OriginsFault {
    ghost use Rattle.afdx_origins.specs.declared.fault.OriginsFault.TheVariants.{Memory};

    ghost from_gives = { λ _ fault. fault ≡ Memory };

    fn from(_error: AllocError) -> OriginsFault {
        OriginsFault::Memory
    }
}
