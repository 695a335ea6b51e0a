//! How full the buffer of a port was.

ghost use Rattle.std.specs.Prelude.{◌≡◌, List, ◌∷◌, [], ◌++◌, Some};
ghost use Rattle.afdx_measure.specs.Peak.{peak_of};
ghost use Rattle.afdx_measure.specs.declared.filling.Filling.{Filling as Full};

use afdx_units::Stamp;

/// The bytes that a buffer held when a frame had been admitted, and the frame's stamp.
#[derive(Clone, Copy, Debug, PartialEq, Eq)]
pub struct Filling {
    pub bytes: u64,
    pub at: Stamp,
}

/// Returns the fuller one, and of equal ones the first.
pub(crate) fn fuller(peak: Option<Filling>, next: Filling) -> Filling
    ensures { (all : List Full) → peak ≡ peak_of all → Some result ≡ peak_of (all ++ next ∷ []) }
{
    match peak {
        None => next,
        Some(peak) => { if next.bytes > peak.bytes { next } else { peak } }
    }
}
