//! Why a capture cannot be read.

ghost use Rattle.std.specs.Prelude.{◌≡◌};
ghost use Rattle.afdx_pcap.specs.declared.fault.PcapFault.TheVariants.{Memory};
ghost use Rattle.afdx_pcap.specs.Fault.{is_cut};

use std::alloc::{AllocError, AllocFailed};
use thiserror::Error;

/// The first fault of a capture, P1 to P11 in the order in which they are looked for.
///
/// A file has P2 to P5 at its header, else P6 to P11 at the first record that is not sound; these have the record's number,
/// from 1. P2, P6 and P11 are found only at the end of the input. P1 is given if memory ran out: by `read_all` only for a file
/// that has none of the others, by a reader that takes it in pieces also before one that lies later in the file. Each message
/// is its variant's name.
#[derive(Clone, Copy, Debug, PartialEq, Eq, Error)]
pub enum PcapFault {
    /// P1: out of memory.
    #[error("Memory")]
    Memory,
    /// P2: fewer than 24 bytes, whatever they are.
    #[error("NoHeader")]
    NoHeader,
    /// P3: the first four bytes are none of the four magics.
    #[error("Magic")]
    Magic,
    /// P4: another version than 2.4.
    #[error("Version")]
    Version,
    /// P5: another link type than 1, which it has.
    #[error("LinkType")]
    LinkType(u32),
    /// P6: bytes are left, but fewer than the 16 of a record's header.
    #[error("CutHeader")]
    CutHeader(usize),
    /// P7: more than 262,144 bytes are captured.
    #[error("Huge")]
    Huge(usize),
    /// P8: the fraction makes a second or more.
    #[error("Fraction")]
    Fraction(usize),
    /// P9: the stamp lies in the last second that pcap can hold.
    #[error("Late")]
    Late(usize),
    /// P10: the stamp is below that of the record before.
    #[error("Backwards")]
    Backwards(usize),
    /// P11: fewer bytes are left than the captured length.
    #[error("CutData")]
    CutData(usize),
}

impl PcapFault {
    /// Returns whether more bytes may mend it: it is found only at the end of the input. O(1).
    pub fn is_cut(self) -> bool
        ensures { result ≡ is_cut self }
    {
        matches!(
            self,
            PcapFault::NoHeader | PcapFault::CutHeader(_) | PcapFault::CutData(_)
        )
    }
}

impl From<AllocError> for PcapFault {
    ghost from_gives = { λ _ e. e ≡ Memory };

    fn from(_error: AllocError) -> PcapFault {
        PcapFault::Memory
    }
}

impl<T: Drop> From<AllocFailed<T>> for PcapFault {
    ghost from_gives = { λ _ e. e ≡ Memory };

    fn from(_error: AllocFailed<T>) -> PcapFault {
        PcapFault::Memory
    }
}
