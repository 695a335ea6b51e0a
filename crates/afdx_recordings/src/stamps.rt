//! Which instant a stamp is.

ghost use Rattle.std.specs.Prelude.{◌≡◌, ◌≤◌};
ghost use Rattle.afdx_recordings.specs.Recordings.{gap_of};

/// Which instant the stamps of records that left are.
#[derive(Clone, Copy, Debug, PartialEq, Eq)]
pub enum Stamps {
    /// The end of the last bit: 12 bytes of gap before the line is free (IEEE 802.3).
    End,
    /// From when on the line is free, as this project's own captures have it.
    Free,
}

impl Stamps {
    /// Returns the bytes from a stamp until the line is free. O(1).
    pub fn gap(self) -> u64
        ensures gap { result ≡ gap_of self }
        ensures small { result ≤ 12 }
    {
        match self {
            Stamps::End => 12,
            Stamps::Free => 0,
        }
    }
}
