//! Bounds on delays.

/// The bounds on the time that a frame may stay at a port, from its arrival to its end on the line, in nanoseconds,
/// rounded down.
#[derive(Clone, Copy, Debug, PartialEq, Eq)]
pub struct Bounds {
    /// Of high frames; none if no high link leads to the port.
    pub high: Option<u128>,
    /// Of low frames; none if no low link leads to the port, or if the high links ask for the whole line or more.
    pub low: Option<u128>,
}
