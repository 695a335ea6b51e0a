//! The verdicts.

/// What the filter says of a frame (profile). The first case that holds is given.
///
/// Sizes are in bytes, with the frame check sequence counted and the line overhead not.
#[derive(Clone, Copy, Debug, PartialEq, Eq)]
pub enum Verdict {
    /// The frame was longer on the line than what was captured of it.
    Cut,
    /// Its size is below 64.
    Short,
    /// Its size is above 1518.
    Long,
    /// Its address has another constant field than the table.
    Foreign,
    /// The table has no link of its number.
    NoLink,
    /// Its link comes in at another port.
    WrongPort,
    /// Its size is above the greatest of its link.
    TooBig,
    /// It is a frame of the link of this number.
    Clean(u16),
}
