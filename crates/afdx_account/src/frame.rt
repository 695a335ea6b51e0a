//! Frames that are offered.

use afdx_units::Stamp;

/// A frame as its account sees it.
#[derive(Clone, Copy, Debug, PartialEq, Eq)]
pub struct Frame {
    /// The instant when it is wholly received.
    pub stamp: Stamp,
    /// Its size in bytes, check sequence included.
    pub size: u32,
}
